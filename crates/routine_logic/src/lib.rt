// The definitions of routines in specs/, and in proofs/ that their examples come out. There is no code in this crate.
#![tactic(auto)]
