// Makes clauses as small as they can be: tidies them by the engine, and numbers their variables anew.
#![tactic(auto)]

mod compact;
mod numbering;
mod renumber;
mod tidying;

pub use compact::Compact;
pub use renumber::renumbered_clause;
pub use tidying::tidied;
