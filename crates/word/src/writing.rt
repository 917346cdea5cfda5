// Writes nodes into a lent buffer.
ghost use Rattle.std.specs.Prelude.{◌≡◌, ◌+◌, ◌≤◌, ◌++◌, length, take, drop, IfOk, Ok};
ghost use Rattle.number.specs.Writes.{Wrote};
ghost use Rattle.word.specs.Packed.{packed_symbol, packed_node, packed, symbol_number, node_number, Writable};
ghost use Rattle.word.specs.Writes.{Back};

use number::NoRoom;
use term::{Node, Symbol};

// How many bytes the packed form of `nodes` has. That the numbers are small enough is asked here and below and stands in no
// type: a node may hold any number, and a type that could not would ask more of whoever makes nodes.
pub fn packed_length(nodes: &[Node]) -> usize
    requires { Writable nodes.now }
    ensures { result ≡ length (packed nodes.now) }
{
    nodes.iter().map(|node| node_length(*node)).sum()
}

// Writes the packed form of `nodes` at `at`, and answers the place after it.
pub fn write_nodes(out: &mut [u8], at: usize, nodes: &[Node]) -> Result<usize, NoRoom>
    requires { Writable nodes.now }
    ensures wrote { Wrote (packed nodes.now) at out.old result out.new }
    ensures back { IfOk result (λ to. Back nodes.now at out.new to) }
{
    let length = packed_length(nodes);
    if out.len() < at || out.len() - at < length {
        return Err(NoRoom);
    }
    let mut to = at;
    for node in nodes {
        to = write_node(out, to, *node)?;
    }
    Ok(to)
}

// Writes the packed form of `node` at `at`, where it has room, and answers the place after it.
fn write_node(out: &mut [u8], at: usize, node: Node) -> Result<usize, NoRoom>
    requires number { node_number node ≤ 32767 }
    requires room { at + length (packed_node node) ≤ length out.old }
    ensures place { result ≡ Ok (at + length (packed_node node)) }
    ensures puts { out.new ≡ take at out.old ++ (packed_node node ++ drop (at + length (packed_node node)) out.old) }
{
    match node {
        Node::Variable(x) => number::write(out, at, 2 * x),
        Node::Applied(symbol, places) => {
            let next = number::write(out, at, packed_symbol(symbol))?;
            number::write(out, next, places as u16)
        }
    }
}

// How many bytes the packed form of `node` has. No `From`, here and below: that would have to take every node and symbol, and
// a `TryFrom` would refuse what the caller has shown not to be there.
fn node_length(node: Node) -> usize
    requires { node_number node ≤ 32767 }
    ensures value { result ≡ length (packed_node node) }
    ensures bound { result ≤ 6 }
{
    match node {
        Node::Variable(x) => number::form_length(2 * x),
        Node::Applied(symbol, places) => {
            number::form_length(packed_symbol(symbol)) + number::form_length(places as u16)
        }
    }
}

// A symbol's first number.
fn packed_symbol(symbol: Symbol) -> u16
    requires { symbol_number symbol ≤ 32767 }
    ensures { result ≡ packed_symbol symbol }
{
    match symbol {
        Symbol::Function(f) => 2 * f + 1,
        Symbol::Positive(p) => 2 * p,
        Symbol::Negative(p) => 2 * p + 1,
    }
}
