// Old queries with booleans, and their rewriting: definitions in specs/, theorems in proofs/. There is no code in this crate.
#![tactic(auto)]
