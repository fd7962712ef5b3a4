// Theorems on the live box. They are proofs alone: this crate has no code of its own.
#![tactic(auto)]
