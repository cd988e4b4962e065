// What a path of a segment says of the state at its start: definitions in specs/, theorems in proofs/. There is no code in this crate.
#![tactic(auto)]
