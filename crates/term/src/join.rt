// Joins words: their least general generalisation, place by place, over one table of pairs.
ghost use Rattle.std.specs.Prelude.{◌≡◌, ◌+◌, ◌-◌, ◌<◌, ◌≤◌, length, Decides};
ghost use Rattle.bounded.specs.Elems.{elems};
ghost use Rattle.term.specs.Coding.{word_at};
ghost use Rattle.term.specs.Joins.{place, enter};
ghost use Rattle.term.specs.Joined.{mean, Inside, Fellows, Joined};

use super::{Node, WordAt, places};
use bounded::Bounded;

// An ordered pair of words, by where they stand. Its variable is its place among the pairs.
#[derive(Clone, Copy)]
pub struct Pair {
    pub left: usize,
    pub right: usize,
}

// Whether two nodes are the same symbol with the same count of places.
pub fn fellows(x: Node, y: Node) -> bool
    ensures { Decides result (Fellows x y) }
{
    match (x, y) {
        (Node::Applied(s, k), Node::Applied(t, l)) => s == t && k == l,
        _ => false,
    }
}

// The variable of the pair of two words. A pair that is new comes last.
pub fn variable_of<const N: usize>(
    pairs: &mut Bounded<Pair, N>,
    a: WordAt<'_>,
    b: WordAt<'_>,
) -> u16
    requires known { Inside a.nodes.now b.nodes.now (elems pairs.old) }
    requires room { length (elems pairs.old) < N }
    requires limit { N ≤ 65536 }
    ensures number { result ≡ place (mean a.entry.nodes.now b.entry.nodes.now (elems pairs.old)) (word_at a.entry.nodes.now a.entry.start) (word_at b.entry.nodes.now b.entry.start) }
    ensures table { mean a.entry.nodes.now b.entry.nodes.now (elems pairs.new) ≡ enter (mean a.entry.nodes.now b.entry.nodes.now (elems pairs.old)) (word_at a.entry.nodes.now a.entry.start) (word_at b.entry.nodes.now b.entry.start) }
    ensures known { Inside a.entry.nodes.now b.entry.nodes.now (elems pairs.new) }
    ensures size { length (elems pairs.new) ≤ length (elems pairs.old) + 1 }
{
    let count = pairs.len();
    for (k, pair) in pairs.as_slice().iter().enumerate() {
        if a.is_same(a.at(pair.left)) && b.is_same(b.at(pair.right)) {
            return k as u16;
        }
    }
    let _ = pairs.push(Pair {
        left: a.start,
        right: b.start,
    });
    count as u16
}

// Joins two words: puts the nodes of their join at the end of `out`, and answers where the words end.
pub fn join_word<const N: usize>(
    a: WordAt<'_>,
    b: WordAt<'_>,
    out: &mut Bounded<Node, N>,
    pairs: &mut Bounded<Pair, N>,
) -> (usize, usize)
    requires known { Inside a.nodes.now b.nodes.now (elems pairs.old) }
    requires room { length (elems out.old) + (length a.nodes.now - a.start) ≤ N }
    requires spare { length (elems pairs.old) + (length a.nodes.now - a.start) ≤ N }
    requires limit { N ≤ 65536 }
    ensures { Joined a.entry.nodes.now b.entry.nodes.now a.entry.start b.entry.start result.0 result.1 (elems out.old) (elems out.new) (elems pairs.old) (elems pairs.new) }
{
    let node = a.nodes[a.start];
    if !fellows(node, b.nodes[b.start]) {
        let x = variable_of(pairs, a, b);
        let _ = out.push(Node::Variable(x));
        return (a.end(), b.end());
    }
    let _ = out.push(node);
    let mut p = a.start + 1;
    let mut q = b.start + 1;
    for _ in 0..places(node) {
        (p, q) = join_word(a.at(p), b.at(q), out, pairs);
    }
    (p, q)
}
