// Records: the clauses of signed facts that spoiled mounts leave, their type with its invariant, and their packed form.
#![tactic(auto)]

mod clause;
mod fault;
mod literal;
mod mark;

pub use clause::Record;
pub use fault::{InLiteral, LiteralFault, RecordFault};
