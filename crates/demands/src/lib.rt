// The letter's three demands, stated over a machine of a kind of array: definitions alone, in specs/; it exports no function.
#![tactic(auto)]
