// Why a record was not read.
ghost use Rattle.std.specs.Prelude.{◌≡◌, Some};
ghost use Rattle.record.specs.declared.fault.LiteralFault.TheVariants.{Number as InNumber, Word};
ghost use Rattle.record.specs.declared.fault.RecordFault.TheVariants.{Number};
ghost use Rattle.record.specs.Faults.{literal_told, told, literal_sentence, sentence};
ghost use Rattle.record.specs.Reads.{in_literal};

use number::NumberFault;
use std::error::Error;
use std::fmt;
use word::{Layer, WordFault};

// The first question of the reader of a literal that was answered with no.
#[derive(Clone, Copy, PartialEq, Debug)]
pub enum LiteralFault {
    // 1 to 3: the questions of a number, of the literal's first one or of its count of places.
    Number(NumberFault),
    // 1 to 3 and 5 to 7: the questions of the words in its places.
    Word(WordFault),
    // 5: are there at most 8 places? The count of them begins at `first`.
    Places { first: usize },
    // 6: is the predicate's node within the limit of 256? It begins at `first`.
    Nodes { first: usize },
    // 8: does the finished literal differ from all before it? It begins at `first`.
    Repeated { first: usize },
}

impl From<NumberFault> for LiteralFault {
    ghost from_gives = { λ e r. r ≡ InNumber e };

    fn from(e: NumberFault) -> LiteralFault {
        LiteralFault::Number(e)
    }
}

impl From<WordFault> for LiteralFault {
    ghost from_gives = { λ e r. r ≡ Word e };

    fn from(e: WordFault) -> LiteralFault {
        LiteralFault::Word(e)
    }
}

impl LiteralFault {
    // The number of the question.
    pub fn question(&self) -> u8
        ensures { result ≡ (literal_told self.now).0 }
    {
        match self {
            LiteralFault::Number(fault) => fault.question(),
            LiteralFault::Word(fault) => fault.question(),
            LiteralFault::Places { first: _ } => 5,
            LiteralFault::Nodes { first: _ } => 6,
            LiteralFault::Repeated { first: _ } => 8,
        }
    }

    // The byte that the fault is about, counted from the start of the input.
    pub fn byte(&self) -> usize
        ensures { result ≡ (literal_told self.now).1 }
    {
        match self {
            LiteralFault::Number(fault) => fault.byte(),
            LiteralFault::Word(fault) => fault.byte(),
            LiteralFault::Places { first } => *first,
            LiteralFault::Nodes { first } => *first,
            LiteralFault::Repeated { first } => *first,
        }
    }

    // This fault in a record, where the literal in hand is number `literal`.
    pub(super) fn in_literal(self, literal: usize) -> RecordFault
        ensures { result ≡ in_literal literal self }
    {
        RecordFault::Literal(InLiteral {
            literal,
            byte: self.byte(),
            fault: self,
        })
    }
}

// What is wrong, in words.
impl fmt::Display for LiteralFault {
    ghost output = { λ fault. Some (literal_sentence fault) };

    fn fmt<W: fmt::Write>(&self, f: &mut fmt::Formatter<W>) -> fmt::Result {
        match self {
            LiteralFault::Number(fault) => fault.fmt(f),
            LiteralFault::Word(WordFault::Nodes { first: _ }) => f.write_str(
                "the record has more than 256 nodes",
            ),
            LiteralFault::Word(fault) => fault.fmt(f),
            LiteralFault::Places { first: _ } => f.write_str("a predicate has more than 8 places"),
            LiteralFault::Nodes { first: _ } => f.write_str("the record has more than 256 nodes"),
            LiteralFault::Repeated { first: _ } => f.write_str(
                "the literal repeats an earlier one",
            ),
        }
    }
}

impl Error for LiteralFault {}

// A literal's fault with the byte that it is about and the literal in hand, counted from 0.
#[derive(Clone, Copy, PartialEq, Debug)]
pub struct InLiteral {
    pub literal: usize,
    pub byte: usize,
    pub fault: LiteralFault,
}

// The first question of the reader of a record that was answered with no.
#[derive(Clone, Copy, PartialEq, Debug)]
pub enum RecordFault {
    // 1 to 3: the questions of a number, of the count of literals.
    Number(NumberFault),
    // 4: are there at most 16 literals? The count of them begins at `first`.
    Literals { first: usize },
    // 1 to 3 and 5 to 8: the questions of a literal.
    Literal(InLiteral),
    // 9: is the input used up? What is left over begins at `first`.
    Left { first: usize },
}

impl From<NumberFault> for RecordFault {
    ghost from_gives = { λ e r. r ≡ Number e };

    fn from(e: NumberFault) -> RecordFault {
        RecordFault::Number(e)
    }
}

impl RecordFault {
    // The number of the question.
    pub fn question(&self) -> u8
        ensures { result ≡ (told self.now).0 }
    {
        match self {
            RecordFault::Number(fault) => fault.question(),
            RecordFault::Literals { first: _ } => 4,
            RecordFault::Literal(place) => place.fault.question(),
            RecordFault::Left { first: _ } => 9,
        }
    }

    // The byte that the fault is about, counted from the start of the input.
    pub fn byte(&self) -> usize
        ensures { result ≡ (told self.now).1 }
    {
        match self {
            RecordFault::Number(fault) => fault.byte(),
            RecordFault::Literals { first } => *first,
            RecordFault::Literal(place) => place.byte,
            RecordFault::Left { first } => *first,
        }
    }

    // The literal in hand, counted from 0; none at the count of literals and where bytes are left over.
    pub fn literal(&self) -> Option<usize>
        ensures { result ≡ (told self.now).2 }
    {
        match self {
            RecordFault::Literal(place) => Some(place.literal),
            _ => None,
        }
    }

    // What was being read, from where the fault arose upward.
    pub fn layers(&self) -> &'static [Layer]
        ensures { result.now ≡ (told self.now).3 }
    {
        match self {
            RecordFault::Number(_) => &[Layer::Number, Layer::Record],
            RecordFault::Literal(place) => literal_layers(&place.fault),
            RecordFault::Literals { first: _ } => &[Layer::Record],
            RecordFault::Left { first: _ } => &[Layer::Record],
        }
    }
}

// The layers of a fault inside a literal of a record.
fn literal_layers(fault: &LiteralFault) -> &'static [Layer]
    ensures { result.now ≡ (literal_told fault.now).2 }
{
    match fault {
        LiteralFault::Number(_) => &[Layer::Number, Layer::Literal, Layer::Record],
        LiteralFault::Word(WordFault::Number(_)) => &[
            Layer::Number,
            Layer::Word,
            Layer::Literal,
            Layer::Record,
        ],
        LiteralFault::Word(_) => &[Layer::Word, Layer::Literal, Layer::Record],
        _ => &[Layer::Literal, Layer::Record],
    }
}

// What is wrong, in words.
impl fmt::Display for RecordFault {
    ghost output = { λ fault. Some (sentence fault) };

    fn fmt<W: fmt::Write>(&self, f: &mut fmt::Formatter<W>) -> fmt::Result {
        match self {
            RecordFault::Number(fault) => fault.fmt(f),
            RecordFault::Literals { first: _ } => f.write_str("there are more than 16 literals"),
            RecordFault::Literal(place) => place.fault.fmt(f),
            RecordFault::Left { first: _ } => f.write_str("bytes are left over"),
        }
    }
}

impl Error for RecordFault {}
