// The numbers of each call's refusals, in their order: a statement and its proof in specs/; it exports no function.
#![tactic(auto)]
