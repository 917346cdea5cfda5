// What the programs print, as values.
#![tactic(auto)]

mod coverings;
mod faults;
mod listings;
mod numbers;
mod places;
mod records;
mod reductions;
mod words;

pub use coverings::{explain, list_covering};
pub use listings::Listing;
pub use numbers::list_numbers;
pub use places::list_place;
pub use records::{list_record, show_record};
pub use reductions::{list_joined, list_tidied};
pub use words::show_place;
