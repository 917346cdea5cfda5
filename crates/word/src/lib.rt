// The packed form of words: reader and writer of lists of nodes.
#![tactic(auto)]

mod fault;
mod reading;
mod writing;

pub use fault::{Layer, WordFault};
pub use reading::read_words;
pub use writing::{packed_length, write_nodes};
