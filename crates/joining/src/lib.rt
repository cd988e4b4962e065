// Two queries joined into one: definitions in specs/, theorems in proofs/. There is no code in this crate.
#![tactic(auto)]
