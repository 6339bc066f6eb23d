// Lists by number: a value for each number below a bound, the numbers that pass a test. Definitions and laws, in specs/.
#![tactic(auto)]
