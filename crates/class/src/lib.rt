// A class of things of one kind: it gathers things, and holds the rule that they share.
#![tactic(auto)]

mod classes;
mod kind;

pub use classes::{Class, Issued};
pub use kind::{Kind, Refusal};
