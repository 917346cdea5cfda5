// A look-out before a search: literals that no substitution reaches that turns the clause into a part of itself.
ghost use Rattle.std.specs.Prelude.{◌≡◌, ℕ, ◌+◌, ◌*◌, ◌<◌, List, length, false, true, option_copied, Contains, ◌≢◌};
ghost use Rattle.std.specs.Int.{bit_at as bit};
ghost use Rattle.clauses.specs.Clauses.{literals_at};
ghost use Rattle.term.specs.Words.{Word};
ghost use Rattle.subsume.specs.Bits.{bit_at, Within};
ghost use Rattle.subsume.specs.Choices.{Standing};
ghost use Rattle.subsume.specs.Meeting.{place_of};
ghost use Rattle.subsume.specs.Retracting.{Spares, Moves, Differs};
ghost use Rattle.subsume.specs.Solving.{TurnsAt};

use super::bits::{BitSet, part};
use super::slot::Slot;
use super::table::Table;

// Whether each number of the one set is in the other.
fn is_within(one: &BitSet<4>, other: &BitSet<4>) -> bool
    ensures { result ≡ true → Within one.now.words other.now.words }
{
    for w in 0..4 {
        if one.words[w] & !other.words[w] != 0 {
            return false;
        }
    }
    true
}

impl<const N: usize, const W: usize> Table<'_, N, W> {
    // The label that the target `j` gives the variable of a slot.
    fn label(&self, slot: &Slot, j: usize) -> usize
        requires slot { Contains self.now.slots.now slot.now }
        requires target { j < length self.now.targets.starts.now }
        ensures { (θ : ℕ → Word) → TurnsAt self.now.literals.nodes.now self.now.literals.starts.now self.now.targets.nodes.now self.now.targets.starts.now θ slot.now.literal j → result ≡ place_of self.now.targets.nodes.now (θ slot.now.variable) }
    {
        self.fronts[slot.front as usize].labels[j] as usize
    }

    // Whether a target of one word of a set gives the variable of a slot this label.
    fn gives(&self, slot: &Slot, label: usize, w: usize, word: u64) -> bool
        requires slot { Contains self.now.slots.now slot.now }
        requires word { w < 4 }
        ensures { result ≡ false → (k : ℕ) → bit word k ≡ 1 → 64 * w + k < length self.now.targets.starts.now → Differs self.now.literals.nodes.now self.now.literals.starts.now self.now.targets.nodes.now self.now.targets.starts.now slot.now.literal slot.now.variable (64 * w + k) label }
    {
        let mut rest = word;
        while rest != 0 {
            let (k, others) = part(rest);
            let j = 64 * w + k;
            if j < self.targets.len() && self.label(slot, j) == label {
                return true;
            }
            rest = others;
        }
        false
    }

    // Whether the literal of a slot has support: a candidate that is not gone, and gives the slot's variable the label of the
    // variable itself.
    fn supported(&self, slot: &Slot, gone: &BitSet<4>) -> bool
        requires slot { Contains self.now.slots.now slot.now }
        requires same { self.now.literals ≡ self.now.targets }
        ensures { result ≡ false → (kept : List ℕ) → Moves kept gone.now.words self.now.targets.nodes.now self.now.targets.starts.now slot.now.variable }
    {
        let i = slot.literal as usize;
        // The literal is its own support, as long as it is not gone.
        if !gone.test(i) {
            return true;
        }
        let label = self.label(slot, i);
        let candidates = &self.candidates;
        for w in 0..4 {
            let left = candidates[i].words[w] & !gone.words[w];
            if self.gives(slot, label, w, left) {
                return true;
            }
        }
        false
    }

    // Whether a literal with the variable `x` has no support: then each such substitution moves the variable.
    fn must_move(&self, x: usize, gone: &BitSet<4>) -> bool
        requires { self.now.literals ≡ self.now.targets }
        ensures { result ≡ true → (kept : List ℕ) → Moves kept gone.now.words self.now.targets.nodes.now self.now.targets.starts.now x }
    {
        let mut at = self.last.get(x).copied().flatten();
        for _ in 0..self.slots.len() {
            let Some(slot) = self.slot(at, x) else {
                break;
            };
            if !self.supported(slot, gone) {
                return true;
            }
            at = slot.before;
        }
        false
    }

    // Puts the literals with a variable that must move into `gone`, and those that were not there into the queue. Says no where
    // one of them is kept.
    fn lose(&self, x: usize, kept: &BitSet<4>, gone: &mut BitSet<4>, queue: &mut BitSet<4>) -> bool
        requires same { self.now.literals ≡ self.now.targets }
        requires moves { Moves kept.now.words gone.old.words self.now.targets.nodes.now self.now.targets.starts.now x }
        ensures more { Within gone.old.words gone.new.words }
        ensures apart { (j : ℕ) → bit_at kept.now.words j ≡ 1 → bit_at gone.new.words j ≡ bit_at gone.old.words j }
        ensures spares { Spares kept.now.words gone.old.words gone.new.words (literals_at self.now.targets.nodes.now self.now.targets.starts.now) result }
    {
        let mut at = self.last.get(x).copied().flatten();
        for _ in 0..self.slots.len() {
            let Some(slot) = self.slot(at, x) else {
                break;
            };
            let i = slot.literal as usize;
            if kept.test(i) {
                return false;
            }
            if !gone.test(i) {
                gone.include(i);
                queue.include(i);
            }
            at = slot.before;
        }
        true
    }

    // The same for a variable of which it is not known whether it must move. Those that must are noted, as far as there is
    // room, so that none is looked at twice for nothing.
    fn look_at(
        &self,
        x: usize,
        kept: &BitSet<4>,
        gone: &mut BitSet<4>,
        queue: &mut BitSet<4>,
        moved: &mut BitSet<W>,
    ) -> bool
        requires { self.now.literals ≡ self.now.targets }
        ensures more { Within gone.old.words gone.new.words }
        ensures apart { (j : ℕ) → bit_at kept.now.words j ≡ 1 → bit_at gone.new.words j ≡ bit_at gone.old.words j }
        ensures spares { Spares kept.now.words gone.old.words gone.new.words (literals_at self.now.targets.nodes.now self.now.targets.starts.now) result }
    {
        let noted = x < 64 * W;
        if noted && moved.test(x) || !self.must_move(x, gone) {
            return true;
        }
        if noted {
            moved.include(x);
        }
        self.lose(x, kept, gone, queue)
    }

    // The same for each variable of literal `i`.
    fn look_from(
        &self,
        i: usize,
        kept: &BitSet<4>,
        gone: &mut BitSet<4>,
        queue: &mut BitSet<4>,
        moved: &mut BitSet<W>,
    ) -> bool
        requires { self.now.literals ≡ self.now.targets }
        ensures more { Within gone.old.words gone.new.words }
        ensures apart { (j : ℕ) → bit_at kept.now.words j ≡ 1 → bit_at gone.new.words j ≡ bit_at gone.old.words j }
        ensures spares { Spares kept.now.words gone.old.words gone.new.words (literals_at self.now.targets.nodes.now self.now.targets.starts.now) result }
    {
        let first = self.first.get(i).copied().unwrap_or(0);
        for slot in self.slots.iter().skip(first) {
            if slot.literal as usize != i {
                break;
            }
            if !self.look_at(slot.variable as usize, kept, gone, queue, moved) {
                return false;
            }
        }
        true
    }

    // Whether each literal has a candidate that is not gone. Where it says no, there is no such substitution.
    fn each_has_candidate(&self, gone: &BitSet<4>) -> bool
        requires { self.now.literals ≡ self.now.targets }
        ensures { (kept : List ℕ) → Spares kept gone.now.words gone.now.words (literals_at self.now.targets.nodes.now self.now.targets.starts.now) result }
    {
        let candidates = &self.candidates;
        for i in 0..self.literals.len() {
            if is_within(&candidates[i], gone) {
                return false;
            }
        }
        true
    }

    // Puts into `gone` further literals that no such substitution reaches, beginning at the variables of the literal `out`.
    // Says no where there is none.
    pub fn look_out(&self, kept: &BitSet<4>, gone: &mut BitSet<4>, out: usize) -> bool
        requires { self.now.literals ≡ self.now.targets }
        ensures more { Within gone.old.words gone.new.words }
        ensures apart { (j : ℕ) → bit_at kept.now.words j ≡ 1 → bit_at gone.new.words j ≡ bit_at gone.old.words j }
        ensures spares { Spares kept.now.words gone.old.words gone.new.words (literals_at self.now.targets.nodes.now self.now.targets.starts.now) result }
    {
        let mut queue = BitSet::<4>::new();
        let mut moved = BitSet::<W>::new();
        if out < 256 {
            queue.include(out);
        }
        // Each literal comes into the queue once.
        for _ in 0..256 {
            let Some(i) = queue.pop() else {
                break;
            };
            if !self.look_from(i, kept, gone, &mut queue, &mut moved) {
                return false;
            }
        }
        self.each_has_candidate(gone)
    }
}
