// What a routine's text says, and its first fault: definitions in specs/, in proofs/ what holds of them and that their examples come out. There is no code in this crate.
#![tactic(auto)]
