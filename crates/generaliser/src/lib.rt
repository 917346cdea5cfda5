// Gathers the records of one class into the rule that they share.
#![tactic(auto)]

ghost use Rattle.class.specs.Calls.{Begun};
ghost use Rattle.record.specs.Kind.{records};
ghost use Rattle.generaliser.specs.Law.{RecordLaw};

use class::Class;
use record::Record;

// Begins a class with its first record. Whatever calls of admit, fits and issue follow, the law of records holds: each
// answer is right, and the rule is least over the records taken, as small as can be, and settled by what they are.
pub fn begin(first: Record) -> Class<Record>
    ensures begun { Begun records first result }
    ensures law { RecordLaw first result }
{
    Class::begin(first)
}
