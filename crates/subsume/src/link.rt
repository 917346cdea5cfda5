// The table of labels, and the candidates to begin with: a walk along each literal and all targets beside it.
ghost use Rattle.std.specs.Prelude.{◌≡◌, ℕ, ◌<◌, ◌≤◌, ◌++◌, [], ◌∷◌, length, List, IfSome, MatchOption, Some, slice_index, take};
ghost use Rattle.bounded.specs.Elems.{elems};
ghost use Rattle.term.specs.declared.node.Node.{Node};
ghost use Rattle.subsume.specs.Choices.{Standing, front_at};
ghost use Rattle.subsume.specs.Columns.{Supported, Columned};
ghost use Rattle.subsume.specs.Fronts.{Follows, Grown, stands};
ghost use Rattle.subsume.specs.Solving.{OpenAt, Named, Linked, Fronted};

use super::bits::BitSet;
use super::column::{COLUMNS, Column};
use super::front::Front;
use super::meeting::{agree, finish, shape};
use super::places::Targets;
use super::slot::{Slot, Slots};
use super::table::Table;
use super::view::View;
use term::Node;

impl<'a, const N: usize, const W: usize> Table<'a, N, W> {
    // The table for the literals of one clause and, as targets, those of another. The slots are made anew.
    pub fn link<const K: usize, const F: usize, const P: usize>(
        literals: View<'a>,
        targets: &Targets<'a, P>,
        slots: &'a mut Slots<N, K, F>,
        most: u32,
    ) -> Table<'a, N, W>
        requires { (length literals.starts.now ≤ N) × (length targets.now.view.starts.now ≤ N) × (N ≤ 256) × (W ≤ 1024) × (0 < W) × (0 < F) }
        ensures { (result.literals ≡ literals.entry) × (result.targets ≡ targets.entry.now.view) }
    {
        slots.clear();
        slots.begin(targets);
        let mut candidates = [BitSet::<4>::full(); N];
        for i in 0..literals.len() {
            candidates[i] = slots.add_literal(literals, targets, i);
        }
        slots.tabulate(targets.view.len());
        Table {
            literals,
            targets: targets.view,
            fronts: slots.fronts.as_slice(),
            slots: slots.rows.as_slice(),
            columns: slots.columns.as_slice(),
            first: &slots.first,
            last: &slots.last,
            most,
            candidates,
        }
    }
}

impl<const N: usize, const K: usize, const F: usize> Slots<N, K, F> {
    // The front where every walk begins.
    fn begin<const P: usize>(&mut self, targets: &Targets<'_, P>)
        requires few { (length targets.now.view.starts.now ≤ N) × (N ≤ 256) × (0 < F) }
        requires none { elems self.old.fronts ≡ [] }
        ensures same { self.new.rows ≡ self.old.rows }
        ensures size { length (elems self.new.fronts) ≡ 1 }
        ensures begun { (j : ℕ) → j < length targets.now.view.starts.now → stands (front_at (elems self.new.fronts) 0) j ≡ Some (slice_index targets.now.view.starts.now j) }
    {
        let _ = self.fronts.push(Front::begin(targets));
        if let Some(child) = self.child.get_mut(0) {
            *child = None;
        }
    }

    // The front that a node leads to from front `r`: one that is there, or else a new one, where there is room.
    fn front_after<const P: usize>(
        &mut self,
        r: u16,
        node: Node,
        targets: &Targets<'_, P>,
    ) -> Option<u16>
        requires front { r < length (elems self.old.fronts) }
        requires few { (length targets.now.view.starts.now ≤ N) × (N ≤ 256) }
        requires inside { (j q : ℕ) → j < length targets.now.view.starts.now → stands (front_at (elems self.old.fronts) r) j ≡ Some q → q < length targets.now.view.nodes.now }
        ensures same { self.new.rows ≡ self.old.rows }
        ensures grown { Grown targets.now.view.nodes.now targets.now.view.starts.now r node (elems self.old.fronts) (elems self.new.fronts) }
        ensures follows { IfSome result (λ s. Follows (elems self.new.fronts) r node s) }
    {
        let found = self.known(r, node);
        if found.is_some() {
            return found;
        }
        let front = self.fronts.as_slice()[r as usize].next(r as usize, node, targets);
        self.add_front(front)
    }

    // A front that the node leads to from front `r`, if it is found.
    fn known(&self, r: u16, node: Node) -> Option<u16>
        ensures { IfSome result (λ s. Follows (elems self.now.fronts) r node s) }
    {
        let fronts = self.fronts.as_slice();
        let wanted = shape(node);
        let mut at = self.child.get(r as usize).copied().flatten();
        for _ in 0..fronts.len() {
            let s = at?;
            let front = fronts.get(s as usize)?;
            if r < s && front.parent == r as usize && front.node == wanted {
                return Some(s);
            }
            at = self.sibling.get(s as usize).copied().flatten();
        }
        None
    }

    // One front more, where there is room.
    fn add_front(&mut self, front: Front<N>) -> Option<u16>
        ensures same { self.new.rows ≡ self.old.rows }
        ensures pushed { MatchOption result (elems self.new.fronts ≡ elems self.old.fronts) (λ s. (s ≡ length (elems self.old.fronts)) × (elems self.new.fronts ≡ elems self.old.fronts ++ front.entry ∷ [])) }
    {
        let parent = front.parent;
        let s = u16::try_from(self.fronts.len()).ok()?;
        self.fronts.push(front).ok()?;
        self.place(parent, s);
        Some(s)
    }

    // Front `s` is found from front `r` on.
    fn place(&mut self, r: usize, s: u16)
        ensures { (self.new.fronts ≡ self.old.fronts) × (self.new.rows ≡ self.old.rows) }
    {
        let first = self.child.get(r).copied().flatten();
        if let Some(sibling) = self.sibling.get_mut(s as usize) {
            *sibling = first;
        }
        if let Some(child) = self.child.get_mut(s as usize) {
            *child = None;
        }
        if let Some(child) = self.child.get_mut(r) {
            *child = Some(s);
        }
    }

    // Adds slots for the variables of literal `i`. Answers the targets that it meets without a clash.
    fn add_literal<const P: usize>(
        &mut self,
        literals: View<'_>,
        targets: &Targets<'_, P>,
        i: usize,
    ) -> BitSet<4>
        requires literal { i < length literals.starts.now }
        requires few { (length literals.starts.now ≤ N) × (length targets.now.view.starts.now ≤ N) × (N ≤ 256) }
        requires fronted { Fronted literals.nodes.now literals.starts.now targets.now.view.nodes.now targets.now.view.starts.now (elems self.old.fronts) }
        requires linked { Linked literals.nodes.now literals.starts.now targets.now.view.nodes.now targets.now.view.starts.now (elems self.old.fronts) (elems self.old.rows) }
        ensures fronted { Fronted literals.entry.nodes.now literals.entry.starts.now targets.now.view.nodes.now targets.now.view.starts.now (elems self.new.fronts) }
        ensures linked { Linked literals.entry.nodes.now literals.entry.starts.now targets.now.view.nodes.now targets.now.view.starts.now (elems self.new.fronts) (elems self.new.rows) }
        ensures left { OpenAt literals.entry.nodes.now literals.entry.starts.now targets.now.view.nodes.now targets.now.view.starts.now i result.words }
    {
        self.open(i);
        let literal = literals.literal(i);
        let mut left = BitSet::<4>::full();
        let mut r = 0;
        for p in literal.start..literal.end() {
            let node = literal.nodes[p];
            let Some(s) = self.front_after(r, node, targets) else {
                let front = &self.fronts.as_slice()[r as usize];
                finish(literal, p, front, targets).meet(&mut left);
                return left;
            };
            if let Node::Variable(x) = node {
                self.add_variable(literals, targets, i, x, s, &mut left);
            }
            r = s;
        }
        self.fronts.as_slice()[r as usize].meet(&mut left);
        left
    }

    // The columns of the first fronts, of their labels for `n` targets.
    fn tabulate(&mut self, n: usize)
        requires { n ≤ N }
        ensures same { (self.new.rows ≡ self.old.rows) × (self.new.fronts ≡ self.old.fronts) }
        ensures columned { Columned (elems self.new.fronts) n (elems self.new.columns) }
    {
        self.columns.truncate(0);
        // No slot has front 0.
        let _ = self.columns.push(None);
        // Where few slots share a front, columns are not worth their time.
        let fronts = self.fronts.len();
        if self.rows.len() < fronts.saturating_mul(2) {
            return;
        }
        for r in 1..fronts.min(COLUMNS) {
            let column = self.column_of(r, n);
            let _ = self.columns.push(column);
        }
    }

    // The column of front `r`; or none, where it is not one of a variable.
    fn column_of(&self, r: usize, n: usize) -> Option<Column>
        requires { n ≤ N }
        ensures { r < length (elems self.now.fronts) → IfSome result (λ column. Supported (front_at (elems self.now.fronts) r).met.words (take n (front_at (elems self.now.fronts) r).labels) column) }
    {
        let fronts = self.fronts.as_slice();
        let front = fronts.get(r)?;
        if let Node::Applied(_, _) = front.node {
            return None;
        }
        Column::of(&front.met, &front.labels[..n])
    }

    // The slots of literal `i` begin here.
    fn open(&mut self, i: usize)
        ensures { (self.new.rows ≡ self.old.rows) × (self.new.fronts ≡ self.old.fronts) }
    {
        let count = self.rows.len();
        if let Some(first) = self.first.get_mut(i) {
            *first = count;
        }
    }

    // The variable `x` of literal `i`, whose labels front `s` has: a slot, or where it has one, targets are taken out that give
    // it another word.
    fn add_variable<const P: usize>(
        &mut self,
        literals: View<'_>,
        targets: &Targets<'_, P>,
        i: usize,
        x: u16,
        s: u16,
        left: &mut BitSet<4>,
    )
        requires literal { i < length literals.starts.now }
        requires front { s < length (elems self.old.fronts) }
        requires few { (length literals.starts.now ≤ N) × (length targets.now.view.starts.now ≤ N) × (N ≤ 256) }
        requires named { Named literals.nodes.now literals.starts.now targets.now.view.nodes.now targets.now.view.starts.now i x (front_at (elems self.old.fronts) s).labels }
        requires linked { Linked literals.nodes.now literals.starts.now targets.now.view.nodes.now targets.now.view.starts.now (elems self.old.fronts) (elems self.old.rows) }
        ensures same { self.new.fronts ≡ self.old.fronts }
        ensures linked { Linked literals.entry.nodes.now literals.entry.starts.now targets.now.view.nodes.now targets.now.view.starts.now (elems self.new.fronts) (elems self.new.rows) }
        ensures left { OpenAt literals.entry.nodes.now literals.entry.starts.now targets.now.view.nodes.now targets.now.view.starts.now i left.old.words → OpenAt literals.entry.nodes.now literals.entry.starts.now targets.now.view.nodes.now targets.now.view.starts.now i left.new.words }
    {
        match self.slot_of(i, x) {
            Some(slot) => {
                let fronts = self.fronts.as_slice();
                let labels = &fronts[s as usize].labels;
                let others = &fronts[slot.front as usize].labels;
                agree(left, labels, others, targets.view.len());
            }
            None => self.add_slot(i, x, s),
        }
    }

    // The slot of the variable `x` of literal `i`, if it has one.
    fn slot_of(&self, i: usize, x: u16) -> Option<Slot>
        ensures { Standing (elems self.now.rows) (λ slot. (slot.literal ≡ i) × (slot.variable ≡ x)) result }
    {
        let slots = self.rows.as_slice();
        for s in self.first.get(i).copied().unwrap_or(0)..slots.len() {
            let slot = slots[s];
            if slot.literal as usize == i && slot.variable == x {
                return Some(slot);
            }
        }
        None
    }

    // One slot more, where there is room. Slots that are linked to two clauses stay so, where the labels of its front are those
    // of a variable of one of them.
    fn add_slot(&mut self, i: usize, x: u16, front: u16)
        requires { i < 65536 }
        ensures same { self.new.fronts ≡ self.old.fronts }
        ensures linked { (N : List Node) (S : List ℕ) (M : List Node) (T : List ℕ) → Linked N S M T (elems self.old.fronts) (elems self.old.rows) → i < length S → front < length (elems self.old.fronts) → Named N S M T i x (front_at (elems self.old.fronts) front).labels → Linked N S M T (elems self.old.fronts) (elems self.new.rows) }
    {
        let s = self.rows.len();
        let before = self.last.get(x as usize).copied().flatten();
        let added = self.rows.push(Slot {
            literal: i as u16,
            variable: x,
            before,
            front,
        });
        if added.is_ok() {
            if let Some(last) = self.last.get_mut(x as usize) {
                *last = u16::try_from(s).ok();
            }
        }
    }
}
