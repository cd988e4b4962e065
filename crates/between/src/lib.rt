// Between literals, for queries of at most five terms.
#![tactic(auto)]
