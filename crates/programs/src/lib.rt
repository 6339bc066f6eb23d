// What the programs print is what runs of the grid answer. Theorems in specs/; it exports no function.
#![tactic(auto)]
