// Words in a legible form: X0 for a variable, a7 for a constant, f5(X0, a7) for a symbol over its places.
ghost use Rattle.std.specs.Prelude.{◌≡◌, ◌++◌, Some, IfOk, string_bytes};
ghost use Rattle.place.specs.Places.{meaning};
ghost use Rattle.term.specs.Coding.{word_at, Next};
ghost use Rattle.listing.specs.Shown.{divider, closing, letter, node_name, shown};

use place::PlaceWord;
use std::alloc::{AllocError, Global};
use std::fmt;
use term::{Node, Symbol, WordAt, places};

// A place word in legible form: the word of `show_word`, and so no `Display`.
pub fn show_place(heap: Global, place: &PlaceWord) -> Result<String, AllocError>
    ensures { IfOk result (λ s. string_bytes s ≡ shown (meaning place.now)) }
{
    let mut text = String::new(heap);
    let word = WordAt {
        nodes: place.nodes(),
        start: 0,
    };
    show_word(&mut text, word)?;
    Ok(text)
}

// Puts a word at the end of the text, and answers where the word ends; so it is no `Display`, which answers nothing.
pub(super) fn show_word(text: &mut String, word: WordAt<'_>) -> Result<usize, AllocError>
    ensures { IfOk result (λ j. Next word.entry.nodes.now word.entry.start j × (string_bytes text.new ≡ string_bytes text.old ++ shown (word_at word.entry.nodes.now word.entry.start))) }
{
    let node = word.nodes[word.start];
    push_name(text, node)?;
    let count = places(node);
    let mut at = word.start + 1;
    for n in 0..count {
        text.push_str(divider("(", n))?;
        at = show_word(text, word.at(at))?;
    }
    text.push_str(closing(count))?;
    Ok(at)
}

// Puts a node without its places at the end of the text. It stands apart so that a level of `show_word` needs less stack.
#[inline(never)]
fn push_name(text: &mut String, node: Node) -> Result<(), AllocError>
    ensures { IfOk result (λ _. string_bytes text.new ≡ string_bytes text.old ++ node_name node) }
{
    write!(text, "{}", Name(node))
}

// What stands before the text in place `n` of several: `first` before the first of them, a comma before the others.
pub(super) fn divider(first: &'static str, n: usize) -> &'static str
    ensures { result.now ≡ divider first.now n }
{
    if n == 0 { first } else { ", " }
}

// What stands after the words in `count` places.
fn closing(count: usize) -> &'static str
    ensures { result.now ≡ closing count }
{
    if count == 0 { "" } else { ")" }
}

// The letter of a predicate: p, q, r and s in turn from number 1 on.
fn letter(p: u16) -> &'static str
    ensures { result.now ≡ letter p }
{
    match p % 4 {
        1 => "p",
        2 => "q",
        3 => "r",
        _ => "s",
    }
}

// A node without its places.
#[derive(Clone, Copy)]
struct Name(Node);

impl fmt::Display for Name {
    ghost output = { λ name. Some (node_name name.0) };

    fn fmt<W: fmt::Write>(&self, f: &mut fmt::Formatter<W>) -> fmt::Result {
        match self.0 {
            Node::Variable(x) => write!(f, "X{x}"),
            Node::Applied(Symbol::Function(a), 0) => write!(f, "a{a}"),
            Node::Applied(Symbol::Function(g), _) => write!(f, "f{g}"),
            Node::Applied(Symbol::Positive(p), _) => write!(f, "{}{p}", letter(p)),
            Node::Applied(Symbol::Negative(p), _) => write!(f, "-{}{p}", letter(p)),
        }
    }
}
