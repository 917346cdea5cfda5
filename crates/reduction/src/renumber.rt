// A clause with its variables numbered anew.
ghost use Rattle.clauses.specs.Clauses.{literals_at};
ghost use Rattle.reduction.specs.Compacts.{Renumbers};

use super::compact::Compact;
use bounded::Bounded;
use subsume::View;

// The literals of a clause, one after the other, with the variables numbered from 0 by their first standing; or none where
// there are more than 16 literals or 256 nodes in them.
pub fn renumbered_clause(clause: View<'_>) -> Option<Compact>
    ensures { Renumbers (literals_at clause.entry.nodes.now clause.entry.starts.now) result }
{
    let mut compact = Compact::new();
    let mut seen = Bounded::new(0);
    for i in 0..clause.len() {
        compact.add(clause.literal(i), &mut seen).ok()?;
    }
    Some(compact)
}
