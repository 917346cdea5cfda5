// What a record shows of itself.
ghost use Rattle.std.specs.Prelude.{◌≡◌};
ghost use Rattle.term.specs.Coding.{codes};
ghost use Rattle.term.specs.Words.{nil};
ghost use Rattle.record.specs.Clauses.{Clause};
ghost use Rattle.clauses.specs.Beginnings.{begins};
ghost use Rattle.record.specs.Records.{literals};

use super::Record;
use bounded::Bounded;
use term::Node;

impl Record {
    // The record without literals.
    pub fn new() -> Record
        ensures { literals result ≡ nil }
    {
        Record {
            nodes: Bounded::new(Node::Variable(0)),
            starts: Bounded::new(0),
        }
    }

    // Its nodes in written order.
    pub fn nodes(&self) -> &[Node]
        ensures value { result.now ≡ codes (literals self.now) }
        ensures held { Clause (literals self.now) }
    {
        self.nodes.as_slice()
    }

    // Where its literals begin among its nodes.
    pub fn starts(&self) -> &[usize]
        ensures { result.now ≡ begins 0 (literals self.now) }
    {
        self.starts.as_slice()
    }
}
