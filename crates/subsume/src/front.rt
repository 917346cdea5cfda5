// Fronts: where a walk stands in all targets after nodes of some shape, once for all literals that begin so.
ghost use Rattle.std.specs.Prelude.{◌≡◌, ⊤, length};

use super::bits::BitSet;
use std::alloc::AllocError;
use term::Node;

// How many fronts help to decide whether one clause covers another, at most.
pub const FRONTS: usize = 64;

// Of a literal that keeps more targets than this, what it loses is not followed up where one clause covers another.
pub const MOST: u32 = 4;

// Where a walk stands after a node, which came after those of another front.
#[derive(Copy)]
pub struct Front<const N: usize> {
    // A `usize`, so that no space is left between the fields, and a list of fronts is cleared at once.
    pub parent: usize,
    // The node, as a variable 0 where it is a variable.
    pub node: Node,
    // The targets in which the walk has not ended, and where it stands in each.
    pub met: BitSet<4>,
    pub at: [u16; N],
    // For each target the label of the word that the node met.
    pub labels: [u16; N],
    ghost placed: { length at ≡ N },
    ghost sized: { length labels ≡ N },
}

// By hand, since `Clone` cannot be derived for a generic struct with a ghost field.
impl<const N: usize> Clone for Front<N> {
    ghost is_clone = { λ x y. y ≡ x };

    ghost is_infallible = { λ _. ⊤ };

    fn clone(&self) -> Result<Front<N>, AllocError> {
        Ok(*self)
    }
}
