// Why words were not read.
ghost use Rattle.std.specs.Prelude.{◌≡◌, Some};
ghost use Rattle.word.specs.declared.fault.WordFault.TheVariants.{Number};
ghost use Rattle.word.specs.Faults.{told, layer_name, sentence};

use number::NumberFault;
use std::error::Error;
use std::fmt;

// What was being read when a fault arose.
#[derive(Clone, Copy, PartialEq, Debug)]
pub enum Layer {
    Number,
    Word,
    PlaceWord,
    Literal,
    Record,
}

impl fmt::Display for Layer {
    ghost output = { λ layer. Some (layer_name layer) };

    fn fmt<W: fmt::Write>(&self, f: &mut fmt::Formatter<W>) -> fmt::Result {
        let name = match self {
            Layer::Number => "number",
            Layer::Word => "word",
            Layer::PlaceWord => "place word",
            Layer::Literal => "literal",
            Layer::Record => "record",
        };
        f.write_str(name)
    }
}

// The first question of the reader that was answered with no.
#[derive(Clone, Copy, PartialEq, Debug)]
pub enum WordFault {
    // 1 to 3: the questions of a number.
    Number(NumberFault),
    // 5: are there at most 8 places? The count of them begins at `first`.
    Places { first: usize },
    // 6: is this node within the limit? The node begins at `first`.
    Nodes { first: usize },
    // 7: is the variable seen before, or the next unused one? It begins at `first`.
    Order { first: usize },
}

impl From<NumberFault> for WordFault {
    ghost from_gives = { λ e r. r ≡ Number e };

    fn from(e: NumberFault) -> WordFault {
        WordFault::Number(e)
    }
}

impl WordFault {
    // The number of the question.
    pub fn question(&self) -> u8
        ensures { result ≡ (told self.now).0 }
    {
        match self {
            WordFault::Number(fault) => fault.question(),
            WordFault::Places { first: _ } => 5,
            WordFault::Nodes { first: _ } => 6,
            WordFault::Order { first: _ } => 7,
        }
    }

    // The byte that the fault is about, counted from the start of the input.
    pub fn byte(&self) -> usize
        ensures { result ≡ (told self.now).1 }
    {
        match self {
            WordFault::Number(fault) => fault.byte(),
            WordFault::Places { first } => *first,
            WordFault::Nodes { first } => *first,
            WordFault::Order { first } => *first,
        }
    }

    // What was being read, from where the fault arose upward.
    pub fn layers(&self) -> &'static [Layer]
        ensures { result.now ≡ (told self.now).2 }
    {
        match self {
            WordFault::Number(_) => &[Layer::Number, Layer::Word],
            WordFault::Places { first: _ } => &[Layer::Word],
            WordFault::Nodes { first: _ } => &[Layer::Word],
            WordFault::Order { first: _ } => &[Layer::Word],
        }
    }
}

// What is wrong, in words.
impl fmt::Display for WordFault {
    ghost output = { λ fault. Some (sentence fault) };

    fn fmt<W: fmt::Write>(&self, f: &mut fmt::Formatter<W>) -> fmt::Result {
        match self {
            WordFault::Number(fault) => fault.fmt(f),
            WordFault::Places { first: _ } => f.write_str("a symbol has more than 8 places"),
            WordFault::Nodes { first: _ } => f.write_str(
                "there are more nodes than the limit (64 in a place word, 256 in a record)",
            ),
            WordFault::Order { first: _ } => f.write_str("a variable is not the next unused one"),
        }
    }
}

impl Error for WordFault {}
