// The grid meets the demands: its states, memories and books are the theory's runs. Theorems in specs/; it exports no function.
#![tactic(auto)]
