// Why a place word was not read.
ghost use Rattle.std.specs.Prelude.{◌≡◌, Some};
ghost use Rattle.place.specs.declared.fault.PlaceFault.TheVariants.{Word};
ghost use Rattle.place.specs.Faults.{told, sentence};

use std::error::Error;
use std::fmt;
use word::{Layer, WordFault};

// The first question of the reader that was answered with no.
#[derive(Clone, Copy, PartialEq, Debug)]
pub enum PlaceFault {
    // 1 to 3 and 5 to 7: the questions of a word.
    Word(WordFault),
    // 9: is the input used up? What is left over begins at `first`.
    Left { first: usize },
}

impl From<WordFault> for PlaceFault {
    ghost from_gives = { λ e r. r ≡ Word e };

    fn from(e: WordFault) -> PlaceFault {
        PlaceFault::Word(e)
    }
}

impl PlaceFault {
    // The number of the question.
    pub fn question(&self) -> u8
        ensures { result ≡ (told self.now).0 }
    {
        match self {
            PlaceFault::Word(fault) => fault.question(),
            PlaceFault::Left { first: _ } => 9,
        }
    }

    // The byte that the fault is about, counted from the start of the input.
    pub fn byte(&self) -> usize
        ensures { result ≡ (told self.now).1 }
    {
        match self {
            PlaceFault::Word(fault) => fault.byte(),
            PlaceFault::Left { first } => *first,
        }
    }

    // What was being read, from where the fault arose upward.
    pub fn layers(&self) -> &'static [Layer]
        ensures { result.now ≡ (told self.now).2 }
    {
        match self {
            PlaceFault::Word(WordFault::Number(_)) => &[
                Layer::Number,
                Layer::Word,
                Layer::PlaceWord,
            ],
            PlaceFault::Word(_) => &[Layer::Word, Layer::PlaceWord],
            PlaceFault::Left { first: _ } => &[Layer::PlaceWord],
        }
    }
}

// What is wrong, in words.
impl fmt::Display for PlaceFault {
    ghost output = { λ fault. Some (sentence fault) };

    fn fmt<W: fmt::Write>(&self, f: &mut fmt::Formatter<W>) -> fmt::Result {
        match self {
            PlaceFault::Word(WordFault::Nodes { first: _ }) => f.write_str(
                "the word has more than 64 nodes",
            ),
            PlaceFault::Word(fault) => fault.fmt(f),
            PlaceFault::Left { first: _ } => f.write_str("bytes are left over"),
        }
    }
}

impl Error for PlaceFault {}
