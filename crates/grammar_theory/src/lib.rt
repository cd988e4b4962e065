// LL(1) grammars with actions, as data: definitions in specs/, theorems in proofs/. There is no code in this crate.
#![tactic(auto)]
