// Covering of clauses: whether some substitution turns each literal of one into a literal of another.
#![tactic(auto)]

mod bits;
mod check;
mod choice;
mod column;
mod covering;
mod front;
mod link;
mod lookout;
mod meeting;
mod outside;
mod places;
mod prune;
mod search;
mod slot;
mod state;
mod support;
mod table;
mod view;

pub use bits::BitSet;
pub use places::Targets;
pub use search::Order;
pub use slot::Slots;
pub use state::State;
pub use table::Table;
pub use view::View;
