// What open, begin and step keep to in any state and memory: one outcome, harmless refusals, one shared word a step. Theorems in
// specs/; it exports no function.
#![tactic(auto)]
