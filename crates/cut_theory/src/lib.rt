// Links that are assigned, in terms of cut links: definitions in specs/, theorems in proofs/. There is no code in this crate.
#![tactic(auto)]
