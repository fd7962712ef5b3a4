// Theorems on the rules. They are proofs alone: this crate has no code of its own.
#![tactic(auto)]
