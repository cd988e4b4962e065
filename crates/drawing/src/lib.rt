// The text of a heap report: definitions in specs/, theorems in proofs/. There is no code in this crate.
#![tactic(auto)]
