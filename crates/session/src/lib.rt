// A session: takes the records of an input into a class, and tells in a lent buffer what happened and which rule came of it.
#![tactic(auto)]

mod lines;
mod output;
mod refusal;
mod taking;
mod whole;

pub use refusal::NoBuffer;
pub use whole::session;
