// What records have in common with every kind: covering, tidying and joining.
ghost use Rattle.std.specs.Prelude.{◌≡◌, ◌≤◌, length, All};
ghost use Rattle.class.specs.Kinds.{Tidied, Joined};
ghost use Rattle.clauses.specs.Clauses.{literals_at};
ghost use Rattle.term.specs.Matched.{Below};
ghost use Rattle.record.specs.Clauses.{Literal};
ghost use Rattle.record.specs.Kind.{records, laws};
ghost use Rattle.record.specs.Records.{clause};
ghost use Rattle.record.specs.Reductions.{Reduces, Tidying, Joining};

use super::Record;
use class::{Kind, Refusal};
use joining::{RawClause, raw_clause};
use reduction::{renumbered_clause, tidied};
use subsume::View;

// How many literals a record may have, how many slots help the search, how many variables a record may have, and how many
// words of 64 bits a set of them has.
const LITERALS: usize = 16;

const SLOTS: usize = 128;

const VARIABLES: usize = 256;

const WORDS: usize = 4;

// The refusal of a join that is beyond the limit.
const TOO_LARGE: u8 = 11;

impl Kind for Record {
    ghost kind = { records };

    ghost lawful = { laws };

    // Whether some substitution turns each literal of this rule into a literal of the mount.
    fn covers(&self, mount: &Record) -> bool {
        self.view()
            .covers::<LITERALS, SLOTS, VARIABLES, WORDS>(mount.view())
    }

    fn tidy(&mut self)
        ensures tidied { Tidied records self.old self.new }
        ensures value { Tidying (clause self.old) (clause self.new) }
    {
        if let Some(rest) = reduced(self.view()) {
            *self = rest;
        }
    }

    // The raw clause of both, tidied; refused where that has more than 16 literals or 256 nodes.
    fn join(&mut self, other: &Record) -> Result<(), Refusal>
        ensures joined { Joined records self.old other.now result self.new }
        ensures value { Joining self.old other.now result self.new }
    {
        let mut raw = RawClause::new();
        raw_clause(self.view(), other.view(), &mut raw);
        match reduced(raw.view()) {
            Some(rest) => {
                *self = rest;
                Ok(())
            }
            None => Err(Refusal { number: TOO_LARGE }),
        }
    }
}

// What tidying leaves of a clause, with its variables numbered anew; or none, where that is beyond the limit.
fn reduced(clause: View<'_>) -> Option<Record>
    requires few { length clause.starts.now ≤ 256 }
    requires small { length clause.nodes.now ≤ 4096 }
    requires variables { Below (length clause.nodes.now) clause.nodes.now }
    requires literals { All Literal (literals_at clause.nodes.now clause.starts.now) }
    ensures { Reduces (literals_at clause.entry.nodes.now clause.entry.starts.now) result }
{
    let starts = tidied(clause)?;
    let kept = View {
        nodes: clause.nodes,
        starts: starts.as_slice(),
    };
    let compact = renumbered_clause(kept)?;
    Some(Record {
        nodes: compact.nodes,
        starts: compact.starts,
    })
}
