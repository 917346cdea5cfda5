// Why a rule covers a record: which literals its literals become, and where its variables are met.
#![tactic(auto)]

mod choices;
mod witnesses;

pub use choices::first_choice;
pub use witnesses::{TooFewEntries, witness};
