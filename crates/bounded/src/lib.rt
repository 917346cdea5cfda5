// A list of at most N elements, held in place: no allocator, so no call fails for want of memory.
#![tactic(auto)]

mod list;

pub use list::{Bounded, Full};
