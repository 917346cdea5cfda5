// The packed number: 0 to 65,535 in one to three bytes, seven bits a byte, the lowest group first.
#![tactic(auto)]

mod fault;
mod length;
mod reading;
mod writing;

pub use fault::{NoRoom, NumberFault};
pub use length::form_length;
pub use reading::read;
pub use writing::write;
