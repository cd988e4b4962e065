// Theorems about routines in proofs/. There is no code in this crate.
#![tactic(auto)]
