// What a path of a segment says, as formulas over literals of a query: definitions in specs/, theorems in proofs/. There is no code in this crate.
#![tactic(auto)]
