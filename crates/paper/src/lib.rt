// The planners' text of a grid at rest lists the cells that the array of demand 2 has a write of, with the array's values.
#![tactic(auto)]
