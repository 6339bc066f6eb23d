// The demands bite: machines that must fail, histories that lose a reading, runs that reach the bounds, and orders that cannot
// grow. Theorems in specs/.
#![tactic(auto)]
