// Demand 3: theorems only, about the definitions of crate `spec`.
#![tactic(auto)]
