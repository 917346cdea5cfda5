// Words as nodes in preorder, and what can be done with them: walk, compare, match, join.
#![tactic(auto)]

mod equality;
mod join;
mod matching;
mod node;
mod walk;

pub use equality::equality_is_exact;
pub use join::{Pair, fellows, join_word, variable_of};
pub use matching::match_word;
pub use node::{Node, Symbol};
pub use walk::{WordAt, places};
