// A place of a variable in a literal, with what the targets give it.
ghost use Rattle.std.specs.Prelude.{◌≡◌, [], length};
ghost use Rattle.bounded.specs.Elems.{elems};

use super::bits::BitSet;
use super::column::{COLUMNS, Column};
use super::front::Front;
use bounded::Bounded;
use term::Node;

// A variable of a literal, and the front that has for each target the label of the word that it gives the variable.
#[derive(Clone, Copy)]
pub struct Slot {
    pub literal: u16,
    pub variable: u16,
    // The slot before this one with the same variable.
    pub before: Option<u16>,
    pub front: u16,
}

// At most K slots and F fronts, and where to find them. The first front is where every walk begins.
#[derive(Drop)]
pub struct Slots<const N: usize, const K: usize, const F: usize> {
    pub fronts: Bounded<Front<N>, F>,
    pub rows: Bounded<Slot, K>,
    // For each literal its first slot, and for each variable its last. Pruning is quicker for them, and no proof rests on them.
    pub first: [usize; N],
    pub last: [Option<u16>; K],
    // For each front one that follows it, and another that follows the same. No proof rests on them either.
    pub child: [Option<u16>; F],
    pub sibling: [Option<u16>; F],
    // For the first fronts the columns of their labels.
    pub columns: Bounded<Option<Column>, COLUMNS>,
}

impl<const N: usize, const K: usize, const F: usize> Slots<N, K, F> {
    // No slots.
    pub fn new() -> Slots<N, K, F>
        ensures { (elems result.rows ≡ []) × (elems result.fronts ≡ []) }
    {
        Slots {
            fronts: Bounded::new(Front {
                parent: 0,
                node: Node::Variable(0),
                met: BitSet::new(),
                at: [0; N],
                labels: [0; N],
            }),
            rows: Bounded::new(Slot {
                literal: 0,
                variable: 0,
                before: None,
                front: 0,
            }),
            first: [0; N],
            last: [None; K],
            child: [None; F],
            sibling: [None; F],
            columns: Bounded::new(None),
        }
    }

    // Takes all slots and fronts out.
    pub fn clear(&mut self)
        ensures { (elems self.new.rows ≡ []) × (elems self.new.fronts ≡ []) }
    {
        self.fronts.truncate(0);
        self.rows.truncate(0);
        let none = [None; K];
        self.last = none;
    }
}
