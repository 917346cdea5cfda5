// Numbers variables by their first standing.
ghost use Rattle.std.specs.Prelude.{◌≡◌, ◌+◌, ◌<◌, ◌≤◌, ◌++◌, length, map, fold, position, ◌==◌};
ghost use Rattle.bounded.specs.Elems.{elems};
ghost use Rattle.clauses.specs.Numbering.{enlist, rank};
ghost use Rattle.reduction.specs.Numbers.{renumbered_node, variables_in, variable_in};

use bounded::Bounded;
use term::Node;

// Puts nodes at the end of `out`, with their variables numbered by their places among those seen.
pub(super) fn add_nodes(nodes: &[Node], out: &mut Bounded<Node, 256>, seen: &mut Bounded<u16, 256>)
    requires room { length (elems out.old) + length nodes.now ≤ 256 }
    requires few { length (elems seen.old) ≤ length (elems out.old) }
    ensures nodes { elems out.new ≡ elems out.old ++ map (renumbered_node (elems seen.new)) nodes.now }
    ensures seen { elems seen.new ≡ fold enlist (elems seen.old) (variables_in nodes.now) }
    ensures few { length (elems seen.new) ≤ length (elems out.new) }
{
    for node in nodes {
        let _ = out.push(renumbered_node(*node, seen));
    }
}

// A node with its variable numbered by its place among those seen. A new one comes last.
fn renumbered_node(node: Node, seen: &mut Bounded<u16, 256>) -> Node
    requires { length (elems seen.old) < 256 }
    ensures node { result ≡ renumbered_node (elems seen.old) node }
    ensures seen { elems seen.new ≡ fold enlist (elems seen.old) (variable_in node) }
    ensures few { length (elems seen.new) ≤ length (elems seen.old) + 1 }
{
    match node {
        Node::Variable(x) => Node::Variable(number_of(x, seen)),
        Node::Applied(_, _) => node,
    }
}

// The place of a variable among those seen. A new one comes last.
fn number_of(x: u16, seen: &mut Bounded<u16, 256>) -> u16
    requires { length (elems seen.old) < 256 }
    ensures number { result ≡ rank (elems seen.old) x }
    ensures seen { elems seen.new ≡ enlist (elems seen.old) x }
    ensures few { length (elems seen.new) ≤ length (elems seen.old) + 1 }
{
    if let Some(k) = place_of(x, seen.as_slice()) {
        return k as u16;
    }
    let count = seen.len();
    let _ = seen.push(x);
    count as u16
}

// Where a variable stands first among others.
fn place_of(x: u16, among: &[u16]) -> Option<usize>
    ensures { result ≡ position (λ y. y == x) among.now }
{
    among.iter().position(|y| *y == x)
}
