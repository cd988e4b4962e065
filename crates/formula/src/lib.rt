// Formulas with or: their grammar, what they mean, and the proofs. The code is in formula_reader, formula_query and formula_call.
#![tactic(auto)]
