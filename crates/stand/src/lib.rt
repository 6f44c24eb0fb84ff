// Demand 3 as theorems: they stand in proofs/, the definitions that they speak of in specs/. It has no code of its own.
#![tactic(auto)]
