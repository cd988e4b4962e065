// Queries in the old layout, rewritten with link 1: definitions in specs/, theorems in proofs/. There is no code in this crate.
#![tactic(auto)]
