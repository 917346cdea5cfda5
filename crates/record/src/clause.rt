// The type of records, with its invariant.
ghost use Rattle.std.specs.Prelude.{◌≡◌, true};
ghost use Rattle.bounded.specs.Elems.{elems};
ghost use Rattle.term.specs.Coding.{decode};
ghost use Rattle.record.specs.Clauses.{whole, clausal, distinct};
ghost use Rattle.clauses.specs.Beginnings.{begins};

use bounded::Bounded;
use term::Node;

mod kind;
mod ops;
mod packing;
mod view;

// A clause of at most 16 literals and 256 nodes: no symbol and no predicate has more than 8 places, no literal stands
// twice, and the variables are numbered from 0 in the order of their first standing. The nodes stand in preorder, one
// literal after the other, and `starts` says where each begins; both stand in place, since the library has no heap.
// No `impl Model`: the type is `Copy`, so a view would need an inverse, and `literals` forgets what stands in the places that
// are not in use.
#[derive(Clone, Copy)]
pub struct Record {
    nodes: Bounded<Node, 256>,
    starts: Bounded<usize, 16>,
    ghost whole: { whole (elems nodes) ≡ true },
    ghost clause: { clausal (decode (elems nodes)) 0 ≡ true },
    ghost apart: { distinct (decode (elems nodes)) ≡ true },
    ghost begun: { elems starts ≡ begins 0 (decode (elems nodes)) },
}
