// The search for the first small heap: definitions and theory.
#![tactic(auto)]
