// Why a number was not read or not written.
ghost use Rattle.std.specs.Prelude.{◌≡◌, Some};
ghost use Rattle.number.specs.Faults.{told, sentence, no_room};

use std::error::Error;
use std::fmt;

// The first question of the reader that was answered with no. The faults of the other readers have methods of the same
// names; a trait over all would save no line, since each would still match its own cases.
#[derive(Clone, Copy, PartialEq, Debug)]
pub enum NumberFault {
    // 1: is there another byte? The input ends at `end`.
    Missing { end: usize },
    // 2: is the third byte below 4? The number begins at `first`.
    TooLarge { first: usize },
    // 3: is the last byte of several other than 0? The number begins at `first`.
    Padded { first: usize },
}

impl NumberFault {
    // The number of the question.
    pub fn question(&self) -> u8
        ensures { result ≡ (told self.now).0 }
    {
        match self {
            NumberFault::Missing { end: _ } => 1,
            NumberFault::TooLarge { first: _ } => 2,
            NumberFault::Padded { first: _ } => 3,
        }
    }

    // The byte that the fault is about, counted from the start of the input.
    pub fn byte(&self) -> usize
        ensures { result ≡ (told self.now).1 }
    {
        match self {
            NumberFault::Missing { end } => *end,
            NumberFault::TooLarge { first } => *first,
            NumberFault::Padded { first } => *first,
        }
    }
}

// What is wrong, in words.
impl fmt::Display for NumberFault {
    ghost output = { λ fault. Some (sentence fault) };

    fn fmt<W: fmt::Write>(&self, f: &mut fmt::Formatter<W>) -> fmt::Result {
        let text = match self {
            NumberFault::Missing { end: _ } => "the input ends within a number",
            NumberFault::TooLarge { first: _ } => "the third byte of a number is not below 4",
            NumberFault::Padded { first: _ } => "the last byte of a number of several bytes is 0",
        };
        f.write_str(text)
    }
}

impl Error for NumberFault {}

// The buffer does not hold the form.
#[derive(Clone, Copy, PartialEq, Debug)]
pub struct NoRoom;

impl NoRoom {
    // The number of the refusal.
    pub fn question(&self) -> u8
        ensures { result ≡ no_room }
    {
        10
    }
}
