// The entries of an input: each is a packed length, and that many bytes.
#![tactic(auto)]

mod reading;

pub use reading::entry;
