// Where the words of the targets end, and where they stand first. The first place of a word is its label: equal words have
// the same, and others another.
ghost use Rattle.std.specs.Prelude.{◌≡◌, ◌<◌, ◌≤◌, length, Decides};
ghost use Rattle.term.specs.Coding.{word_at, Next};
ghost use Rattle.subsume.specs.Meeting.{place_of, Ends, Firsts, number, hash_of};
ghost use Rattle.subsume.specs.Ending.{Ends-prop};

use super::view::View;
use term::{Node, Symbol, WordAt, places};

// For each of at most P nodes, a place among them.
pub type Places<const P: usize> = [u16; P];

// The targets, with what is known of the words at their nodes.
#[derive(Drop)]
pub struct Targets<'a, const P: usize> {
    pub view: View<'a>,
    pub ends: Places<P>,
    pub firsts: Places<P>,
    ghost small: { length view.nodes.now ≤ 65535 },
    ghost ended: { Ends view.nodes.now ends } by { Ends-prop view.nodes.now ends },
    ghost named: { Firsts view.nodes.now firsts },
}

impl<'a, const P: usize> Targets<'a, P> {
    pub fn new(view: View<'a>) -> Targets<'a, P>
        requires { (length view.nodes.now ≤ P) × (P ≤ 65535) }
        ensures { result.view ≡ view.entry }
    {
        let ends = ends(view);
        Targets {
            view,
            ends,
            firsts: firsts(view, &ends),
        }
    }
}

// For each node of the targets where its word ends.
fn ends<const P: usize>(targets: View<'_>) -> Places<P>
    requires { (length targets.nodes.now ≤ P) × (P ≤ 65535) }
    ensures { Ends targets.entry.nodes.now result }
{
    let mut ends = [0; P];
    for start in 0..targets.nodes.len() {
        let word = WordAt {
            nodes: targets.nodes,
            start,
        };
        ends[start] = word.end() as u16;
    }
    ends
}

// For each node of the targets the first place where the same word stands.
fn firsts<const P: usize>(targets: View<'_>, ends: &[u16]) -> Places<P>
    requires few { (length targets.nodes.now ≤ P) × (P ≤ 65535) }
    requires ends { Ends targets.nodes.now ends.now }
    ensures { Firsts targets.entry.nodes.now result }
{
    let mut places = [0; P];
    // For each hash the first place of a word that has it, or P.
    let mut seen: Places<P> = [P as u16; P];
    for q in 0..targets.nodes.len() {
        let word = WordAt {
            nodes: targets.nodes,
            start: q,
        };
        let h = hash(word, ends[q] as usize) as usize % P;
        let p = seen[h];
        if p >= q as u16 {
            seen[h] = q as u16;
            places[q] = q as u16;
        } else if stands_at(word, p as usize) {
            places[q] = p;
        } else {
            places[q] = first_place(word) as u16;
        }
    }
    places
}

// The first place where the word stands.
fn first_place(word: WordAt<'_>) -> usize
    ensures value { result ≡ place_of word.entry.nodes.now (word_at word.entry.nodes.now word.entry.start) }
    ensures bound { result ≤ word.entry.start }
{
    for p in 0..word.start {
        if stands_at(word, p) {
            return p;
        }
    }
    word.start
}

// Whether the word stands at a place too. Mostly its first node tells.
fn stands_at(word: WordAt<'_>, p: usize) -> bool
    requires { p < length word.nodes.now }
    ensures { Decides result (word_at word.entry.nodes.now word.entry.start ≡ word_at word.entry.nodes.now p) }
{
    let node = word.nodes[word.start];
    node == word.nodes[p] && (places(node) == 0 || word.is_same(word.at(p)))
}

// A hash of a word that ends at a place, by which most that differ are told apart.
fn hash(word: WordAt<'_>, end: usize) -> u16
    requires { Next word.nodes.now word.start end }
    ensures value { result ≡ hash_of (word_at word.entry.nodes.now word.entry.start) }
    ensures bound { result < 4096 }
{
    // A loop and no `fold`, since each turn relies on an invariant: the hash is below 4096.
    let mut hash: u32 = 0;
    for node in &word.nodes[word.start..end] {
        hash = (hash * 31 + number(*node)) % 4096;
    }
    hash as u16
}

// What a node adds to a hash. A weight and no conversion: so no `From`. The numbers of the packed
// form have the same cases and are narrower.
fn number(node: Node) -> u32
    ensures value { result ≡ number node }
    ensures bound { result ≤ 131071 }
{
    match node {
        Node::Variable(x) => 2 * x as u32,
        Node::Applied(Symbol::Function(f), _) => 2 * f as u32 + 1,
        Node::Applied(Symbol::Positive(p), _) => 2 * p as u32,
        Node::Applied(Symbol::Negative(p), _) => 2 * p as u32 + 1,
    }
}
