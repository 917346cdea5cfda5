// The type of raw clauses, with its invariant.
ghost use Rattle.std.specs.Prelude.{◌≡◌};
ghost use Rattle.bounded.specs.Elems.{elems};
ghost use Rattle.clauses.specs.Beginnings.{begins};
ghost use Rattle.term.specs.Coding.{Whole, decode};
ghost use Rattle.term.specs.Standing.{Whole-prop};

use bounded::Bounded;
use term::Node;

mod ops;

// What joining two clauses leaves before it is tidied: as many literals as there are pairs of one from each, at most. The
// nodes stand in preorder, one literal after the other, and `starts` says where each begins.
#[derive(Drop)]
pub struct RawClause {
    nodes: Bounded<Node, 4096>,
    starts: Bounded<usize, 256>,
    ghost whole: { Whole (elems nodes) } by { Whole-prop (elems nodes) },
    ghost begun: { elems starts ≡ begins 0 (decode (elems nodes)) },
}
