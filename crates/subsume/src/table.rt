// What is known of literals and targets before a choice is made: the table of labels, and the candidates.
ghost use Rattle.std.specs.Prelude.{◌≡◌, ◌<◌, ◌≤◌, length};
ghost use Rattle.subsume.specs.Columns.{Columned};
ghost use Rattle.subsume.specs.Solving.{Linked, Open};

use super::bits::BitSet;
use super::column::Column;
use super::front::Front;
use super::slot::Slot;
use super::view::View;

// For each of at most N literals, which of at most 256 targets are left for it.
pub type Candidates<const N: usize> = [BitSet<4>; N];

// The literals of one clause, those of another as their targets, and a slot for each variable of each literal, as far as
// there is room. The sets of labels and of variables that help the search are of W words.
#[derive(Drop)]
pub struct Table<'a, const N: usize, const W: usize> {
    pub literals: View<'a>,
    pub targets: View<'a>,
    pub fronts: &'a [Front<N>],
    pub slots: &'a [Slot],
    // For the first fronts the columns of their labels.
    pub columns: &'a [Option<Column>],
    // For each literal its first slot, and for each variable its last. Pruning is quicker for them, and no proof rests on them.
    pub first: &'a [usize],
    pub last: &'a [Option<u16>],
    // What a literal loses that keeps more targets than this is not followed up: that seldom helps. No proof rests on it.
    pub most: u32,
    // For each literal the targets that it meets without a clash.
    pub candidates: Candidates<N>,
    // How many literals there may be stands here, since pruning and each step of the search need it.
    ghost few: { (length literals.starts.now ≤ N) × (length targets.starts.now ≤ N) × (N ≤ 256) × (W ≤ 1024) },
    ghost wide: { 0 < W },
    ghost columned: { Columned fronts.now (length targets.starts.now) columns.now },
    ghost rows: { length candidates ≡ N },
    ghost opened: { Open literals.nodes.now literals.starts.now targets.nodes.now targets.starts.now candidates (length literals.starts.now) },
    ghost linked: { Linked literals.nodes.now literals.starts.now targets.nodes.now targets.starts.now fronts.now slots.now },
}
