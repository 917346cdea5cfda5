// A walk along one literal and along each target beside it, from front to front.
ghost use Rattle.std.specs.Prelude.{◌≡◌, ℕ, ◌<◌, ◌≤◌, min, length, slice_index, Some, ◌≢◌};
ghost use Rattle.std.specs.Int.{bit_at as bit};
ghost use Rattle.term.specs.Matched.{Turns};
ghost use Rattle.term.specs.Words.{Word};
ghost use Rattle.subsume.specs.Bits.{bit_at};
ghost use Rattle.subsume.specs.Fronts.{shape, stands, Labelled, Beyond};
ghost use Rattle.subsume.specs.Meeting.{Stepped, Advanced, Reached};

use super::bits::{BitSet, both};
use super::front::Front;
use super::places::Targets;
use term::{Node, WordAt, fellows};

// A node with all variables the same.
pub fn shape(node: Node) -> Node
    ensures { result ≡ shape node }
{
    match node {
        Node::Variable(_) => Node::Variable(0),
        Node::Applied(symbol, places) => Node::Applied(symbol, places),
    }
}

// One node on: what meets a variable is a whole word, and what meets a symbol is the same symbol.
fn beside<const P: usize>(node: Node, targets: &Targets<'_, P>, q: u16) -> Option<u16>
    requires { q < length targets.now.view.nodes.now }
    ensures { Stepped node targets.now.view.nodes.now q result }
{
    let end = targets.ends[q as usize];
    if let Node::Variable(_) = node {
        return Some(end);
    }
    if fellows(node, targets.view.nodes[q as usize]) {
        Some(q + 1)
    } else {
        None
    }
}

impl<const N: usize> Front<N> {
    // Where a walk begins: in each target at its start.
    pub fn begin<const P: usize>(targets: &Targets<'_, P>) -> Front<N>
        requires { (length targets.now.view.starts.now ≤ N) × (N ≤ 256) }
        ensures { (j : ℕ) → j < length targets.now.view.starts.now → stands result j ≡ Some (slice_index targets.now.view.starts.now j) }
    {
        let mut met = BitSet::<4>::new();
        let mut at = [0; N];
        for j in 0..targets.view.len() {
            met.include(j);
            at[j] = targets.view.starts[j] as u16;
        }
        Front {
            parent: 0,
            node: Node::Variable(0),
            met,
            at,
            labels: [0; N],
        }
    }

    // One node on from this front, which is front `r`.
    pub fn next<const P: usize>(&self, r: usize, node: Node, targets: &Targets<'_, P>) -> Front<N>
        requires few { (length targets.now.view.starts.now ≤ N) × (N ≤ 256) }
        requires inside { (j q : ℕ) → j < length targets.now.view.starts.now → stands self.now j ≡ Some q → q < length targets.now.view.nodes.now }
        ensures parent { result.parent ≡ r }
        ensures beyond { Beyond targets.now.view.nodes.now targets.now.view.starts.now self.now node result }
    {
        let mut met = BitSet::<4>::new();
        let mut at = [0; N];
        for j in 0..targets.view.len() {
            if let Some(q) = self.place(node, j, targets) {
                met.include(j);
                at[j] = q;
            }
        }
        Front {
            parent: r,
            node: shape(node),
            met,
            at,
            labels: self.labels(node, targets),
        }
    }

    // Where the walk stands in the target `j`, if it has not ended there.
    fn stand(&self, j: usize) -> Option<u16>
        requires { (j < N) × (N ≤ 256) }
        ensures { result ≡ stands self.now j }
    {
        if self.met.test(j) {
            Some(self.at[j])
        } else {
            None
        }
    }

    // Where it stands in the target `j` after the node.
    fn place<const P: usize>(&self, node: Node, j: usize, targets: &Targets<'_, P>) -> Option<u16>
        requires target { (j < N) × (N ≤ 256) }
        requires inside { (q : ℕ) → stands self.now j ≡ Some q → q < length targets.now.view.nodes.now }
        ensures { Advanced node targets.now.view.nodes.now (stands self.now j) result }
    {
        beside(node, targets, self.stand(j)?)
    }

    // For each target the label of the word that a variable meets here; of a symbol nothing is asked.
    fn labels<const P: usize>(&self, node: Node, targets: &Targets<'_, P>) -> [u16; N]
        requires few { (length targets.now.view.starts.now ≤ N) × (N ≤ 256) }
        requires inside { (j q : ℕ) → j < length targets.now.view.starts.now → stands self.now j ≡ Some q → q < length targets.now.view.nodes.now }
        ensures labelled { Labelled targets.now.view.nodes.now targets.now.view.starts.now self.now node result }
        ensures size { length result ≡ N }
    {
        let mut labels = [0; N];
        if let Node::Applied(_, _) = node {
            return labels;
        }
        for j in 0..targets.view.len() {
            if let Some(q) = self.stand(j) {
                labels[j] = targets.firsts[q as usize];
            }
        }
        labels
    }

    // Leaves the targets in which the walk has not ended.
    pub fn meet(&self, left: &mut BitSet<4>)
        ensures { (j : ℕ) → bit_at left.new.words j ≡ min (bit_at left.old.words j) (bit_at self.now.met.words j) }
    {
        for w in 0..4 {
            left.words[w] = both(left.words[w], self.met.words[w]);
        }
    }
}

// The front at which the rest of a literal ends, from the place `from` on, where there is no room to keep one for each node.
pub fn finish<const N: usize, const P: usize>(
    literal: WordAt<'_>,
    from: usize,
    front: &Front<N>,
    targets: &Targets<'_, P>,
) -> Front<N>
    requires few { (length targets.now.view.starts.now ≤ N) × (N ≤ 256) }
    requires reached { (j : ℕ) → j < length targets.now.view.starts.now → Reached literal.nodes.now literal.start from targets.now.view.nodes.now (slice_index targets.now.view.starts.now j) (stands front.now j) }
    ensures { (j : ℕ) → j < length targets.now.view.starts.now → (θ : ℕ → Word) → Turns literal.entry.nodes.now literal.entry.start targets.now.view.nodes.now (slice_index targets.now.view.starts.now j) θ → (q : ℕ) × (stands result j ≡ Some q) }
{
    let mut last = *front;
    for p in from..literal.end() {
        last = last.next(0, literal.nodes[p], targets);
    }
    last
}

// Takes each of the first `n` targets out whose two labels differ.
pub fn agree(left: &mut BitSet<4>, labels: &[u16], others: &[u16], n: usize)
    requires { (n ≤ length labels.now) × (n ≤ length others.now) × (n ≤ 256) }
    ensures same { (j : ℕ) → slice_index labels.now j ≡ slice_index others.now j → bit_at left.new.words j ≡ bit_at left.old.words j }
    ensures ended { (j : ℕ) → j < n → slice_index labels.now j ≢ slice_index others.now j → bit_at left.new.words j ≡ 0 }
{
    for j in 0..n {
        if labels[j] != others[j] {
            left.exclude(j);
        }
    }
}
