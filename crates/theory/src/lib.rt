// The theorems about the definitions of logic. There is no code in this crate.
#![tactic(auto)]
