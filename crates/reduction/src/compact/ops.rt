// How a compact clause is made.
ghost use Rattle.std.specs.Prelude.{◌≡◌, ◌≤◌, [], length};
ghost use Rattle.bounded.specs.Elems.{elems};
ghost use Rattle.term.specs.Coding.{word_at};
ghost use Rattle.reduction.specs.Compacts.{literals, Adds};

use super::super::numbering::add_nodes;
use super::Compact;
use bounded::{Bounded, Full};
use term::{Node, WordAt};

// How many nodes a compact clause may have.
const NODES: usize = 256;

impl Compact {
    // The clause without literals.
    #[tactic(auto, unfolding(term::specs::Coding::Whole, term::specs::Coding::decode))]
    pub(crate) fn new() -> Compact
        ensures { literals result ≡ [] }
    {
        Compact {
            nodes: Bounded::new(Node::Variable(0)),
            starts: Bounded::new(0),
        }
    }

    // Puts a literal last, with its variables numbered by their places among those seen; or refuses, and changes nothing,
    // where it has no room.
    pub(crate) fn add(
        &mut self,
        literal: WordAt<'_>,
        seen: &mut Bounded<u16, 256>,
    ) -> Result<(), Full>
        requires { length (elems seen.old) ≤ length (elems self.old.nodes) }
        ensures { Adds (word_at literal.entry.nodes.now literal.entry.start) self.old (elems seen.old) result self.new (elems seen.new) }
    {
        let start = self.nodes.len();
        let end = literal.end();
        if end - literal.start > NODES - start {
            return Err(Full);
        }
        self.starts.push(start)?;
        add_nodes(&literal.nodes[literal.start..end], &mut self.nodes, seen);
        Ok(())
    }
}
