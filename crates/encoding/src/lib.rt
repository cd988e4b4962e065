// The bytes of a query that is written: definitions in specs/, theorems in proofs/. There is no code in this crate.
#![tactic(auto)]
