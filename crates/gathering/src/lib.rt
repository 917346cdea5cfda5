// Gathers the place words of an input through a class, and tells what happened.
#![tactic(auto)]

mod lines;
mod taking;
mod whole;

pub use whole::gather;
