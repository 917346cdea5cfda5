// The raw clause of two clauses.
ghost use Rattle.std.specs.Prelude.{◌≡◌, ◌≤◌, [], length};
ghost use Rattle.bounded.specs.Elems.{elems};
ghost use Rattle.clauses.specs.Beginnings.{begins};
ghost use Rattle.clauses.specs.Clauses.{literals_at};
ghost use Rattle.clauses.specs.Joins.{raw};
ghost use Rattle.term.specs.Coding.{decode};
ghost use Rattle.term.specs.Matched.{Below};
ghost use Rattle.joining.specs.Raw.{literals};

use super::raw::RawClause;
use bounded::Bounded;
use subsume::View;
use term::Pair;

// Joins each literal of the first clause with each of the second that it fits, over one table of pairs. Nothing refuses: a
// join has no more nodes than its left side, so 16 of each of 256 nodes have room. The variables are numbered by first
// standing, so each is below the count of nodes. The clause is lent, since it is large, and begins without literals.
pub fn raw_clause(first: View<'_>, second: View<'_>, clause: &mut RawClause)
    requires empty { literals clause.old ≡ [] }
    requires begun { first.starts.now ≡ begins 0 (decode first.nodes.now) }
    requires few { (length first.starts.now ≤ 16) × (length second.starts.now ≤ 16) }
    requires small { length first.nodes.now ≤ 256 }
    ensures literals { literals clause.new ≡ raw (literals_at first.entry.nodes.now first.entry.starts.now) (literals_at second.entry.nodes.now second.entry.starts.now) }
    ensures variables { Below (length (elems clause.new.nodes)) (elems clause.new.nodes) }
{
    let mut pairs = Bounded::new(Pair { left: 0, right: 0 });
    for i in 0..first.len() {
        for j in 0..second.len() {
            clause.add(first.literal(i), second.literal(j), &mut pairs);
        }
    }
}
