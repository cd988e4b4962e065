// Every call as C calls it (include/lemitsaka.h); lemitsaka_c exports them. Each answers one number: below 65,536 the call's own answer, else a refusal.
#![tactic(auto)]

pub mod between_export;
pub mod check_export;
pub mod dot_export;
pub mod formula_export;
pub mod join_export;
pub mod links_rewrite_export;
pub mod precedence_export;
pub mod rewrite_export;
pub mod verdict_export;
