// A run at rest shows the array of demand 2, cell by cell and hour by hour: its theorems stand in specs/, and it exports no function.
#![tactic(auto)]
