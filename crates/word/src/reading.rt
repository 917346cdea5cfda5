// Reads words: one function for a node, and one that goes on while words are needed.
ghost use Rattle.std.specs.Prelude.{◌≡◌, ◌+◌, ◌-◌, ◌*◌, ◌^◌, ◌<◌, length, take};
ghost use Rattle.bounded.specs.Elems.{elems};
ghost use Rattle.word.specs.Reads.{variable_at, symbol_at, node_at, read_words, Gives, Exactly};

use super::WordFault;
use bounded::Bounded;
use term::{Node, Symbol};

// A node, how many words it needs in its places, the place after it, and the count of variables seen.
#[derive(Clone, Copy)]
struct Read {
    node: Node,
    places: usize,
    next: usize,
    seen: u16,
}

// Reads `count` words that begin at `at` and puts their nodes at the end of `nodes`; the variables below `seen` have stood
// before. Answers the place after the last word and the new `seen`, which goes in and out as the place does; after a fault
// `nodes` is as it was.
pub fn read_words<const N: usize>(
    input: &[u8],
    at: usize,
    count: usize,
    nodes: &mut Bounded<Node, N>,
    seen: u16,
) -> Result<(usize, u16), WordFault>
    requires { count + 8 * N < 2 ^ 64 }
    ensures value { Gives (read_words count (N - length (elems nodes.old)) seen input.now at (elems nodes.old)) (elems nodes.old) result (elems nodes.new) }
    ensures exact { Exactly count (N - length (elems nodes.old)) seen input.now at (elems nodes.old) result (elems nodes.new) }
{
    let before = nodes.len();
    let answer = read_each(input, at, count, nodes, seen);
    if answer.is_err() {
        nodes.truncate(before);
    }
    answer
}

// The same, but after a fault `nodes` holds the nodes read so far.
fn read_each<const N: usize>(
    input: &[u8],
    mut at: usize,
    count: usize,
    nodes: &mut Bounded<Node, N>,
    mut seen: u16,
) -> Result<(usize, u16), WordFault>
    requires { count + 8 * N < 2 ^ 64 }
    ensures value { Gives (read_words count (N - length (elems nodes.old)) seen input.now at (elems nodes.old)) (elems nodes.new) result (elems nodes.new) }
    ensures kept { take (length (elems nodes.old)) (elems nodes.new) ≡ elems nodes.old }
{
    let mut need = count;
    // No loop over a range: how many words are still needed is known only after each node.
    while need > 0 {
        let (value, next) = number::read(input, at)?;
        if nodes.len() == N {
            return Err(WordFault::Nodes { first: at });
        }
        let read = read_node(input, at, value, next, seen)?;
        let _ = nodes.push(read.node);
        need = need - 1 + read.places;
        at = read.next;
        seen = read.seen;
    }
    Ok((at, seen))
}

// The node that begins at `at` with the number `value`, whose place after is `next`.
fn read_node(input: &[u8], at: usize, value: u16, next: usize, seen: u16) -> Result<Read, WordFault>
    ensures { result ≡ node_at seen input.now at value next }
{
    if value % 2 == 0 {
        read_variable(at, value / 2, next, seen)
    } else {
        read_symbol(input, value / 2, next, seen)
    }
}

// The variable `x`, whose number begins at `at`.
fn read_variable(at: usize, x: u16, next: usize, seen: u16) -> Result<Read, WordFault>
    requires { x < 65535 }
    ensures { result ≡ variable_at seen at x next }
{
    if x > seen {
        return Err(WordFault::Order { first: at });
    }
    Ok(Read {
        node: Node::Variable(x),
        places: 0,
        next,
        seen: seen.max(x + 1),
    })
}

// The function symbol `f`, whose count of places begins at `at`.
fn read_symbol(input: &[u8], f: u16, at: usize, seen: u16) -> Result<Read, WordFault>
    ensures { result ≡ symbol_at seen input.now f at }
{
    let (places, next) = number::read(input, at)?;
    if places > 8 {
        return Err(WordFault::Places { first: at });
    }
    Ok(Read {
        node: Node::Applied(Symbol::Function(f), places as u8),
        places: places as usize,
        next,
        seen,
    })
}
