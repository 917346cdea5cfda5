// An answer as numbers, since no enum crosses to C.
ghost use Rattle.std.specs.Prelude.{◌≡◌};
ghost use Rattle.cehmoli.specs.Answers.{answered, none, refused, first_unread, second_unread};

use record::RecordFault;

// The kinds of answers.
const ANSWERED: u8 = 0;

const NONE: u8 = 1;

const REFUSED: u8 = 2;

const FIRST_UNREAD: u8 = 3;

const SECOND_UNREAD: u8 = 4;

// A kind, and a number with it: what was asked for, the number of a refusal, or the question of a fault.
#[repr(C)]
#[derive(Clone, Copy, PartialEq, Debug)]
pub struct Answer {
    pub kind: u8,
    pub value: usize,
}

impl Answer {
    // Answered, with a number.
    pub(super) fn answered(value: usize) -> Answer
        ensures { result ≡ answered value }
    {
        Answer {
            kind: ANSWERED,
            value,
        }
    }

    // There is none.
    pub(super) fn none() -> Answer
        ensures { result ≡ none }
    {
        Answer {
            kind: NONE,
            value: 0,
        }
    }

    // Refused with this number.
    pub(super) fn refused(number: u8) -> Answer
        ensures { result ≡ refused number }
    {
        Answer {
            kind: REFUSED,
            value: number.into(),
        }
    }

    // The first input is no record.
    pub(super) fn first_unread(fault: RecordFault) -> Answer
        ensures { result ≡ first_unread fault }
    {
        Answer {
            kind: FIRST_UNREAD,
            value: fault.question().into(),
        }
    }

    // The second input is no record.
    pub(super) fn second_unread(fault: RecordFault) -> Answer
        ensures { result ≡ second_unread fault }
    {
        Answer {
            kind: SECOND_UNREAD,
            value: fault.question().into(),
        }
    }
}
