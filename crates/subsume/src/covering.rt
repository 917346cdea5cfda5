// Whether one clause covers another (subsumes it).
ghost use Rattle.std.specs.Prelude.{◌<◌, ◌≤◌, length, Decides};
ghost use Rattle.term.specs.Matched.{Below};
ghost use Rattle.clauses.specs.Clauses.{Covers, literals_at};

use super::front::{FRONTS, MOST};
use super::meeting::shape;
use super::places::Targets;
use super::slot::Slots;
use super::table::Table;
use super::view::View;
use term::{Node, places};

impl View<'_> {
    // Whether some substitution turns each literal into a literal of the other. N bounds the literals of each, and K the slots
    // that help the search; V is more than the number of any variable, and no less than the other has nodes; the sets of
    // words and of variables that help the search hold those below 64 * W.
    pub fn covers<const N: usize, const K: usize, const V: usize, const W: usize>(
        self,
        other: View<'_>,
    ) -> bool
        requires few { (length self.starts.now ≤ N) × (length other.starts.now ≤ N) × (N ≤ 256) × (K ≤ 65536) × (W ≤ 1024) × (0 < W) × (length other.nodes.now ≤ V) }
        requires variables { Below V self.nodes.now × (V ≤ 65535) }
        ensures { Decides result (Covers (literals_at self.entry.nodes.now self.entry.starts.now) (literals_at other.entry.nodes.now other.entry.starts.now)) }
    {
        // Labels are places among the other's nodes, slots are places among these nodes, and there are mostly no more variables
        // than nodes: where these are few, one word and 64 slots hold them all, and are quicker. No more fronts are made than
        // are wanted, since making them takes a good part of the time.
        if self.nodes.len() > 64 || other.nodes.len() > 64 {
            return self.covers_by::<N, K, V, W, FRONTS>(other);
        }
        let wanted = self.wanted_fronts();
        if wanted <= 8 {
            self.covers_by::<N, 64, V, 1, 8>(other)
        } else if wanted <= 24 {
            self.covers_by::<N, 64, V, 1, 24>(other)
        } else {
            self.covers_by::<N, 64, V, 1, FRONTS>(other)
        }
    }

    // How many fronts the literals have at most: where no symbol stands below a literal's own, those that begin alike share
    // theirs. No promise rests on it.
    pub fn wanted_fronts(self) -> usize {
        let symbols = self
            .nodes
            .iter()
            .filter(|node| shape(**node) != Node::Variable(0))
            .count();
        if symbols > self.starts.len() {
            return self.nodes.len().saturating_add(1);
        }
        let mut count: usize = 1;
        for i in 0..self.starts.len() {
            let first = self.nodes[self.starts[i]];
            let mut known = false;
            for k in 0..i {
                if self.nodes[self.starts[k]] == first {
                    known = true;
                    break;
                }
            }
            if !known {
                count = count.saturating_add(1 + places(first));
            }
        }
        count
    }

    // The same, with sets of that size, and F fronts. Never inlined, so that each has a stack frame of its own.
    #[inline(never)]
    fn covers_by<const N: usize, const K: usize, const V: usize, const W: usize, const F: usize>(
        self,
        other: View<'_>,
    ) -> bool
        requires few { (length self.starts.now ≤ N) × (length other.starts.now ≤ N) × (N ≤ 256) × (K ≤ 65536) × (W ≤ 1024) × (0 < W) × (length other.nodes.now ≤ V) }
        requires fronts { (0 < F) × (F ≤ 256) }
        requires variables { Below V self.nodes.now × (V ≤ 65535) }
        ensures { Decides result (Covers (literals_at self.entry.nodes.now self.entry.starts.now) (literals_at other.entry.nodes.now other.entry.starts.now)) }
    {
        let targets = Targets::<V>::new(other);
        let mut slots = Slots::<N, K, F>::new();
        let table = Table::<N, W>::link(self, &targets, &mut slots, MOST);
        table.solvable::<V>(table.start())
    }
}
