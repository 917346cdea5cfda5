// The type of clauses that are within the limit, with its invariant.
ghost use Rattle.std.specs.Prelude.{◌≡◌};
ghost use Rattle.bounded.specs.Elems.{elems};
ghost use Rattle.clauses.specs.Beginnings.{begins};
ghost use Rattle.term.specs.Coding.{Whole, decode};
ghost use Rattle.term.specs.Standing.{Whole-prop};

use bounded::Bounded;
use term::Node;

mod ops;

// A clause of at most 16 literals and 256 nodes. The nodes stand in preorder, one literal after the other, and `starts`
// says where each begins.
#[derive(Clone, Copy)]
pub struct Compact {
    pub nodes: Bounded<Node, 256>,
    pub starts: Bounded<usize, 16>,
    pub ghost whole: { Whole (elems nodes) } by { Whole-prop (elems nodes) },
    pub ghost begun: { elems starts ≡ begins 0 (decode (elems nodes)) },
}
