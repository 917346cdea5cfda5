// A record as a clause by its nodes.
ghost use Rattle.std.specs.Prelude.{◌≡◌, ◌≤◌, length};
ghost use Rattle.clauses.specs.Beginnings.{begins};
ghost use Rattle.clauses.specs.Clauses.{literals_at};
ghost use Rattle.term.specs.Coding.{codes};
ghost use Rattle.term.specs.Matched.{Below};
ghost use Rattle.record.specs.Records.{literals, clause};

use super::Record;
use subsume::View;

impl Record {
    // Its literals by its nodes, all of them.
    pub fn view(&self) -> View<'_>
        ensures nodes { result.nodes.now ≡ codes (literals self.now) }
        ensures starts { result.starts.now ≡ begins 0 (literals self.now) }
        ensures literals { literals_at result.nodes.now result.starts.now ≡ clause self.now }
        ensures variables { Below (length result.nodes.now) result.nodes.now }
        ensures few { Below 256 result.nodes.now }
        ensures small { length result.nodes.now ≤ 256 }
    {
        View {
            nodes: self.nodes(),
            starts: self.starts(),
        }
    }
}
