// Which literals a rule's literals become.
ghost use Rattle.std.specs.Prelude.{MatchOption};
ghost use Rattle.bounded.specs.Elems.{elems};
ghost use Rattle.clauses.specs.Clauses.{Covers};
ghost use Rattle.record.specs.Records.{clause};
ghost use Rattle.subsume.specs.FirstChoices.{FirstChoice};

use bounded::Bounded;
use record::Record;

// How many literals a record may have, how many slots help the search, how many variables a record may have, and how many
// words of 64 bits a set of them has.
const LITERALS: usize = 16;

const SLOTS: usize = 128;

const VARIABLES: usize = 256;

const WORDS: usize = 4;

// The first choice, in dictionary order, of a literal of the mount for each literal of the rule; none where the rule does
// not cover the mount.
pub fn first_choice(rule: &Record, mount: &Record) -> Option<Bounded<u16, LITERALS>>
    ensures { MatchOption result (Covers (clause rule.now) (clause mount.now) → ⊥) (λ choice. FirstChoice (clause rule.now) (clause mount.now) (elems choice)) }
{
    rule.view()
        .first_choice::<LITERALS, SLOTS, VARIABLES, WORDS>(mount.view())
}
