// The library for programs that are not written in Rattle: five calls on packed bytes, which stand in lent memory.
#![tactic(auto)]

mod answers;
mod calls;
mod faults;
mod inputs;

pub use answers::Answer;
pub use calls::{cehmoli_covers, cehmoli_join, cehmoli_session, cehmoli_witness};
pub use faults::{Fault, cehmoli_read};
