// Inputs that are packed records, one or two.
ghost use Rattle.std.specs.Prelude.{◌≡◌};
ghost use Rattle.term.specs.Words.{nil};
ghost use Rattle.record.specs.Reads.{read_record};
ghost use Rattle.record.specs.Records.{literals};
ghost use Rattle.cehmoli.specs.Answers.{unread};
ghost use Rattle.cehmoli.specs.Calls.{ReadsOne, ReadsBoth};

use super::answers::Answer;
use record::{Record, RecordFault};

// Which of two inputs is no record, and why.
#[derive(Clone, Copy, PartialEq, Debug)]
pub(super) enum Unread {
    First(RecordFault),
    Second(RecordFault),
}

impl Unread {
    // The answer of a call that met it.
    pub(super) fn answer(self) -> Answer
        ensures { result ≡ unread self }
    {
        match self {
            Unread::First(fault) => Answer::first_unread(fault),
            Unread::Second(fault) => Answer::second_unread(fault),
        }
    }
}

// The record whose packed form the input is.
pub(super) fn read(input: &[u8]) -> Result<Record, RecordFault>
    ensures { ReadsOne (read_record input.now) result }
{
    let mut record = Record::new();
    record.read(input)?;
    Ok(record)
}

// Two records, the first and the second input's. They are filled in place, since they are large.
#[derive(Clone, Copy)]
pub(super) struct Both {
    pub first: Record,
    pub second: Record,
}

impl Both {
    // Two records without literals.
    pub(super) fn new() -> Both
        ensures first { literals result.first ≡ nil }
        ensures second { literals result.second ≡ nil }
    {
        Both {
            first: Record::new(),
            second: Record::new(),
        }
    }

    // Become the records whose packed forms the inputs are.
    pub(super) fn read(&mut self, first: &[u8], second: &[u8]) -> Result<(), Unread>
        ensures { ReadsBoth (read_record first.now) (read_record second.now) result self.old self.new }
    {
        self.first.read(first).map_err(Unread::First)?;
        self.second.read(second).map_err(Unread::Second)
    }
}
