// The theory of the quarter-hour grid: its theorems stand in specs/, and it exports no function.
#![tactic(auto)]
