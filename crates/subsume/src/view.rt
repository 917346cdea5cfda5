// A clause by its nodes in preorder, and where the literals that count begin among them. Two slices, so that a
// literal can be left out without a copy. Definitions take it by its parts, since what they say does not rest on its facts.
ghost use Rattle.std.specs.Prelude.{◌≡◌, ℕ, ◌<◌, length, slice_index};
ghost use Rattle.term.specs.Coding.{Whole};
ghost use Rattle.term.specs.Standing.{Whole-prop};

use term::{Node, WordAt};

#[derive(Clone, Copy)]
pub struct View<'a> {
    pub nodes: &'a [Node],
    pub starts: &'a [usize],
    pub ghost whole: { Whole nodes.now } by { Whole-prop nodes.now },
    pub ghost inside: { (i : ℕ) → i < length starts.now → slice_index starts.now i < length nodes.now },
}

impl<'a> View<'a> {
    // How many literals there are.
    pub fn len(self) -> usize
        ensures { result ≡ length self.entry.starts.now }
    {
        self.starts.len()
    }

    // The literal `i`.
    pub fn literal(self, i: usize) -> WordAt<'a>
        requires { i < length self.starts.now }
        ensures nodes { result.nodes.now ≡ self.entry.nodes.now }
        ensures start { result.start ≡ slice_index self.entry.starts.now i }
    {
        WordAt {
            nodes: self.nodes,
            start: self.starts[i],
        }
    }
}
