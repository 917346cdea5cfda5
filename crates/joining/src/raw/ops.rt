// What can be done with a raw clause.
ghost use Rattle.std.specs.Prelude.{◌≡◌, ◌+◌, ◌-◌, ◌<◌, ◌≤◌, [], length};
ghost use Rattle.bounded.specs.Elems.{elems};
ghost use Rattle.clauses.specs.Clauses.{literals_at};
ghost use Rattle.term.specs.Joined.{Inside};
ghost use Rattle.joining.specs.Raw.{literals, Added};

use super::RawClause;
use bounded::Bounded;
use subsume::View;
use term::{Node, Pair, WordAt, fellows, join_word};

impl RawClause {
    // The clause without literals.
    #[tactic(auto, unfolding(term::specs::Coding::Whole, term::specs::Coding::decode))]
    pub fn new() -> RawClause
        ensures { literals result ≡ [] }
    {
        RawClause {
            nodes: Bounded::new(Node::Variable(0)),
            starts: Bounded::new(0),
        }
    }

    // Its nodes, and where its literals begin among them.
    pub fn view(&self) -> View<'_>
        ensures nodes { result.nodes.now ≡ elems self.now.nodes }
        ensures starts { result.starts.now ≡ elems self.now.starts }
        ensures literals { literals_at result.nodes.now result.starts.now ≡ literals self.now }
    {
        View {
            nodes: self.nodes.as_slice(),
            starts: self.starts.as_slice(),
        }
    }

    // Puts the join of two literals last, if they fit.
    pub(crate) fn add(&mut self, a: WordAt<'_>, b: WordAt<'_>, pairs: &mut Bounded<Pair, 4096>)
        requires known { Inside a.nodes.now b.nodes.now (elems pairs.old) }
        requires room { length (elems self.old.nodes) + (length a.nodes.now - a.start) ≤ 4096 }
        requires spare { length (elems pairs.old) + (length a.nodes.now - a.start) ≤ 4096 }
        requires few { length (literals self.old) < 256 }
        ensures { Added a.entry.nodes.now b.entry.nodes.now a.entry.start b.entry.start self.old self.new (elems pairs.old) (elems pairs.new) }
    {
        if fellows(a.nodes[a.start], b.nodes[b.start]) {
            let start = self.nodes.len();
            let _ = join_word(a, b, &mut self.nodes, pairs);
            let _ = self.starts.push(start);
        }
    }
}
