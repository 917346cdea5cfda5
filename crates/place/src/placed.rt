// The type of place words, with its invariant.
ghost use Rattle.std.specs.Prelude.{◌≡◌, true};
ghost use Rattle.bounded.specs.Elems.{elems};
ghost use Rattle.term.specs.Lawful.{lawful};

use bounded::Bounded;
use term::Node;

pub mod ops;
mod packing;

// One word of at most 64 nodes: no symbol has more than 8 places, and the variables are numbered from 0 in the order of
// their first standing. No `impl Model`: the type is `Copy`, so a view would need an inverse, and `meaning` forgets what stands
// in the places that are not in use.
#[derive(Clone, Copy)]
pub struct PlaceWord {
    nodes: Bounded<Node, 64>,
    ghost one: { lawful (elems nodes) 1 0 ≡ true },
}
