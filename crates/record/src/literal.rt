// Reads one literal into a list of nodes.
ghost use Rattle.std.specs.Prelude.{◌≡◌, ◌<◌, length, IfOk};
ghost use Rattle.bounded.specs.Elems.{elems};
ghost use Rattle.term.specs.Coding.{decode, Whole, word_at};
ghost use Rattle.record.specs.Clauses.{variables, stands};
ghost use Rattle.clauses.specs.Beginnings.{begins};
ghost use Rattle.record.specs.Marks.{Marked};
ghost use Rattle.record.specs.Reads.{words_from, Inside, predicate_of, head_at, read_literal, Grows};

use super::fault::LiteralFault;
use super::mark::mark_of;
use bounded::Bounded;
use term::{Node, Symbol, WordAt};

// How many nodes a record may have, and how many places a predicate.
const NODES: usize = 256;

const PLACES: u16 = 8;

// A literal's predicate with its sign, its count of places, and the place after these.
#[derive(Clone, Copy)]
pub(super) struct Head {
    symbol: Symbol,
    places: u8,
    next: usize,
}

// Reads the literal that begins at `at`, after the literals that begin at `starts`, and puts its nodes at the end of
// `nodes`; `seen` variables have stood before, and the marks of those literals are set. Answers the place after the literal
// and the new `seen`; after a fault the nodes that stood before still do, and others may follow them.
pub(super) fn add_literal(
    nodes: &mut Bounded<Node, 256>,
    starts: &[usize],
    marks: &mut [bool; 256],
    input: &[u8],
    at: usize,
    seen: u16,
) -> Result<(usize, u16), LiteralFault>
    requires whole { Whole (elems nodes.old) }
    requires begun { starts.now ≡ begins 0 (decode (elems nodes.old)) }
    requires counted { seen ≡ variables (decode (elems nodes.old)) }
    requires marked { Marked (decode (elems nodes.old)) marks.old }
    ensures value { Grows (read_literal (decode (elems nodes.old)) input.now at) (elems nodes.old) result (elems nodes.new) }
    ensures marked { IfOk result (λ _. Marked (decode (elems nodes.new)) marks.new) }
{
    let start = nodes.len();
    let head = read_head(input, at, start)?;
    let _ = nodes.push(Node::Applied(head.symbol, head.places));
    let (next, seen) = word::read_words(input, head.next, head.places as usize, nodes, seen)?;
    let word = WordAt {
        nodes: nodes.as_slice(),
        start,
    };
    let mark = mark_of(&input[at..next]);
    if marks[mark] && stands_among(word, starts) {
        return Err(LiteralFault::Repeated { first: at });
    }
    marks[mark] = true;
    Ok((next, seen))
}

// Reads the predicate and the count of places of the literal that begins at `at`, where `held` nodes stand before it.
fn read_head(input: &[u8], at: usize, held: usize) -> Result<Head, LiteralFault>
    ensures { result ≡ head_at held input.now at }
{
    let (value, next) = number::read(input, at)?;
    if held >= NODES {
        return Err(LiteralFault::Nodes { first: at });
    }
    let (places, end) = number::read(input, next)?;
    if places > PLACES {
        return Err(LiteralFault::Places { first: next });
    }
    Ok(Head {
        symbol: predicate(value),
        places: places as u8,
        next: end,
    })
}

// The predicate of a literal's first number. No `From`: elsewhere in the packed form the same number
// is a variable or a function symbol.
fn predicate(value: u16) -> Symbol
    ensures { result ≡ predicate_of value }
{
    if value % 2 == 0 {
        Symbol::Positive(value / 2)
    } else {
        Symbol::Negative(value / 2)
    }
}

// Whether a word is one of those that begin at `starts`.
fn stands_among(word: WordAt<'_>, starts: &[usize]) -> bool
    requires { Inside (length word.nodes.now) starts.now }
    ensures { result ≡ stands (word_at word.entry.nodes.now word.entry.start) (words_from word.entry.nodes.now starts.now) }
{
    for start in starts {
        if word.is_same(word.at(*start)) {
            return true;
        }
    }
    false
}
