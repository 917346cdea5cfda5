// Joins clauses: a literal for each two that fit.
#![tactic(auto)]

mod join;
mod raw;

pub use join::raw_clause;
pub use raw::RawClause;
