// Words that stand among nodes in preorder: where they end, and whether two are the same.
ghost use Rattle.std.specs.Prelude.{◌≡◌, ◌<◌, length, Decides};
ghost use Rattle.term.specs.Coding.{places_of, Whole, word_at, Next};
ghost use Rattle.term.specs.Standing.{Whole-prop};

use super::Node;

// A word that stands among nodes in preorder: the nodes, and where among them it begins. No `impl Model`, by which clauses
// would speak of the word alone: a type with a lifetime that has one cannot be `Copy`, and where a word ends is asked too.
#[derive(Clone, Copy)]
pub struct WordAt<'a> {
    pub nodes: &'a [Node],
    pub start: usize,
    pub ghost whole: { Whole nodes.now } by { Whole-prop nodes.now },
    pub ghost inside: { start < length nodes.now },
}

impl<'a> WordAt<'a> {
    // The word at another place among the same nodes.
    pub fn at(self, start: usize) -> WordAt<'a>
        requires { start < length self.nodes.now }
        ensures nodes { result.nodes.now ≡ self.entry.nodes.now }
        ensures start { result.start ≡ start }
    {
        WordAt {
            nodes: self.nodes,
            start,
        }
    }

    // Where the word ends.
    pub fn end(self) -> usize
        ensures { Next self.entry.nodes.now self.entry.start result }
    {
        let mut end = self.start;
        let mut need: usize = 1;
        // No loop over the nodes: how many words are still to come is known only after each node.
        while need > 0 {
            need = need - 1 + places(self.nodes[end]);
            end += 1;
        }
        end
    }

    // Whether two words are the same.
    pub fn is_same(self, other: WordAt<'_>) -> bool
        ensures { Decides result (word_at self.entry.nodes.now self.entry.start ≡ word_at other.entry.nodes.now other.entry.start) }
    {
        let mut left = self.start;
        let mut right = other.start;
        let mut need: usize = 1;
        // Node by node, to the first that differ: neither word's end is looked for before.
        while need > 0 {
            let node = self.nodes[left];
            if node != other.nodes[right] {
                return false;
            }
            need = need - 1 + places(node);
            left += 1;
            right += 1;
        }
        true
    }
}

// How many places a node has.
pub fn places(node: Node) -> usize
    ensures value { result ≡ places_of node }
    ensures bound { result < 256 }
{
    match node {
        Node::Variable(_) => 0,
        Node::Applied(_, k) => k as usize,
    }
}
