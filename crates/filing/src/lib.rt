// No code: that the rows that wait to be taken stay in their heaps, whatever a step does. `specs/` says what that is, `proofs/` that it is kept.
#![tactic(auto)]
