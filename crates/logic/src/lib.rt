// Tests: one of two by a test, truth tables, and a test at every number below a bound. Definitions and laws, in specs/.
#![tactic(auto)]
