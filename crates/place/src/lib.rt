// Place words: where in the cabinet a reel stood. The first kind of thing that a class gathers.
#![tactic(auto)]

mod fault;
mod placed;

pub use fault::PlaceFault;
pub use placed::PlaceWord;
