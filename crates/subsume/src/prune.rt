// Strikes out candidates that no choice of targets can take: those on which two literals that share a variable disagree.
ghost use Rattle.std.specs.Prelude.{◌≡◌, ℕ, List, ◌*◌, ◌<◌, ◌≤◌, length, slice_index, take, option_copied, Decides, IfSome, ◌≢◌, ◌⊎◌};
ghost use Rattle.std.specs.Int.{bit_at as bit};
ghost use Rattle.subsume.specs.Bits.{bit_at};
ghost use Rattle.subsume.specs.Columns.{Supported, SiftedWord};
ghost use Rattle.subsume.specs.Choices.{Shows, Given, Shared, Standing, Sifted, Pruned, front_at, labels_of};

use super::bits::{BitSet, part};
use super::column::Column;
use super::slot::Slot;
use super::table::Table;

// How many variables are looked at again before pruning stops.
const ROUNDS: usize = 65536;

// The labels of the targets that are left. A label beyond what a set can hold is left out.
pub(super) fn given<const W: usize>(left: &BitSet<4>, labels: &[u16]) -> BitSet<W>
    requires { (length labels.now ≤ 256) × (W ≤ 1024) }
    ensures { Given left.now.words labels.now (length labels.now) result.words }
{
    let mut marks = BitSet::<W>::new();
    for w in 0..4 {
        if 64 * w >= labels.len() {
            break;
        }
        mark_word(left.words[w], &labels[64 * w..], &mut marks);
    }
    marks
}

// Marks the labels of the targets of one word.
fn mark_word<const W: usize>(word: u64, labels: &[u16], marks: &mut BitSet<W>)
    ensures here { (k : ℕ) → k < length labels.now → bit word k ≡ 1 → Shows marks.new.words (slice_index labels.now k) }
    ensures others { (l : ℕ) → bit_at marks.old.words l ≡ 1 → bit_at marks.new.words l ≡ 1 }
    ensures only { (l : ℕ) → bit_at marks.new.words l ≡ 1 → (bit_at marks.old.words l ≡ 1) ⊎ ((k : ℕ) × (k < 64) × (k < length labels.now) × (bit word k ≡ 1) × (slice_index labels.now k ≡ l)) }
{
    let mut rest = word;
    while rest != 0 {
        let (k, others) = part(rest);
        if k >= labels.len() {
            break;
        }
        let label = labels[k] as usize;
        if label < 64 * W {
            marks.include(label);
        }
        rest = others;
    }
}

// Strikes out the targets whose labels are not marked; says whether there were any.
fn sift<const W: usize>(
    left: &mut BitSet<4>,
    labels: &[u16],
    marks: &BitSet<W>,
    column: Option<&Column>,
) -> bool
    requires few { (length labels.now ≤ 256) × (0 < W) }
    requires column { IfSome (option_copied column) (λ column. (met : List ℕ) × Supported met labels.now column) }
    ensures sifted { Sifted left.old.words left.new.words labels.now (length labels.now) marks.now.words }
    ensures struck { Decides result (left.new.words ≢ left.old.words) }
{
    let before = left.words;
    for w in 0..4 {
        if 64 * w >= labels.len() {
            break;
        }
        left.words[w] = sift_part(left.words[w], &labels[64 * w..], marks, column);
    }
    left.words != before
}

// The targets of one word that are kept: at once where there is a column, and else one by one.
fn sift_part<const W: usize>(
    word: u64,
    labels: &[u16],
    marks: &BitSet<W>,
    column: Option<&Column>,
) -> u64
    requires some { 0 < W }
    requires column { IfSome (option_copied column) (λ column. (met : List ℕ) × Supported met labels.now column) }
    ensures { SiftedWord labels.now word marks.now.words result }
{
    match column {
        Some(column) => column.sift(word, marks),
        None => sift_word(word, labels, marks),
    }
}

// The same one by one.
fn sift_word<const W: usize>(word: u64, labels: &[u16], marks: &BitSet<W>) -> u64
    ensures { SiftedWord labels.now word marks.now.words result }
{
    let mut kept = word;
    let mut rest = word;
    while rest != 0 {
        let (k, others) = part(rest);
        if k >= labels.len() {
            break;
        }
        let label = labels[k] as usize;
        if label < 64 * W {
            kept &= !(u64::from(!marks.test(label)) << k);
        }
        rest = others;
    }
    kept
}

impl<const N: usize, const W: usize> Table<'_, N, W> {
    // The slot at a place of the table, if it is one of the variable `x`.
    pub(super) fn slot(&self, at: Option<u16>, x: usize) -> Option<&Slot>
        ensures { Standing self.now.slots.now (λ slot. slot.variable ≡ x) (option_copied result) }
    {
        let slot = self.slots.get(at? as usize)?;
        if slot.variable as usize == x {
            Some(slot)
        } else {
            None
        }
    }

    // The column of the labels of a slot, if it has one.
    fn column(&self, slot: &Slot) -> Option<&Column>
        requires { slot.now.front < length self.now.fronts.now }
        ensures { IfSome (option_copied result) (λ column. Supported (front_at self.now.fronts.now slot.now.front).met.words (take (length self.now.targets.starts.now) (labels_of self.now.fronts.now slot.now)) column) }
    {
        let r = slot.front as usize;
        if r < self.columns.len() {
            self.columns[r].as_ref()
        } else {
            None
        }
    }

    // The labels that the targets that are left give the variable of a slot: known, where none was struck out.
    fn labels_left(&self, slot: &Slot, left: &BitSet<4>) -> BitSet<W>
        requires { slot.now.front < length self.now.fronts.now }
        ensures { Given left.now.words (labels_of self.now.fronts.now slot.now) (length self.now.targets.starts.now) result.words }
    {
        let n = self.targets.len();
        let front = &self.fronts[slot.front as usize];
        if left.is_same(&front.met) {
            if let Some(column) = self.column(slot) {
                return column.labels::<W>();
            }
        }
        given(left, &front.labels[..n])
    }

    // The labels that each literal with the variable `x` has a candidate for; or none, where they have all the same labels, so
    // that there is nothing to strike out.
    fn shared(&self, x: usize, sets: &[BitSet<4>]) -> Option<BitSet<W>>
        requires { length self.now.literals.starts.now ≤ length sets.now }
        ensures { IfSome result (λ marks. Shared self.now.fronts.now self.now.slots.now (length self.now.literals.starts.now) (length self.now.targets.starts.now) sets.now x marks.words) }
    {
        let mut marks = BitSet::<W>::full();
        let mut all = BitSet::<W>::new();
        let mut at = self.last.get(x).copied().flatten();
        for _ in 0..self.slots.len() {
            let Some(slot) = self.slot(at, x) else {
                break;
            };
            let own = self.labels_left(slot, &sets[slot.literal as usize]);
            marks.keep(&own);
            all.add(&own);
            at = slot.before;
        }
        if marks.words == all.words {
            return None;
        }
        Some(marks)
    }

    // Strikes out the candidates that give the variable `x` a label that is not marked. The variables of literals that lose
    // a candidate, and keep few, come into the queue; where a literal has lost its last, nothing more need be looked at.
    fn strike(&self, x: usize, marks: &BitSet<W>, sets: &mut [BitSet<4>], queue: &mut BitSet<W>)
        requires rows { length self.now.literals.starts.now ≤ length sets.old }
        requires shared { Shared self.now.fronts.now self.now.slots.now (length self.now.literals.starts.now) (length self.now.targets.starts.now) sets.old x marks.now.words }
        ensures { Pruned self.now.fronts.now self.now.slots.now (length self.now.literals.starts.now) (length self.now.targets.starts.now) sets.old sets.new }
    {
        let n = self.targets.len();
        let mut at = self.last.get(x).copied().flatten();
        for _ in 0..self.slots.len() {
            let Some(slot) = self.slot(at, x) else {
                break;
            };
            let labels = &self.fronts[slot.front as usize].labels[..n];
            let column = self.column(slot);
            if sift(&mut sets[slot.literal as usize], labels, marks, column) {
                if sets[slot.literal as usize].is_empty() {
                    *queue = BitSet::<W>::new();
                    return;
                }
                if sets[slot.literal as usize].count() <= self.most {
                    self.enqueue(slot.literal as usize, queue);
                }
            }
            at = slot.before;
        }
    }

    // Puts the variables of literal `i` into the queue.
    pub(super) fn enqueue(&self, i: usize, queue: &mut BitSet<W>)
        ensures { (l : ℕ) → bit_at queue.old.words l ≡ 1 → bit_at queue.new.words l ≡ 1 }
    {
        let first = self.first.get(i).copied().unwrap_or(0);
        for slot in self.slots.iter().skip(first) {
            if slot.literal as usize != i {
                break;
            }
            if (slot.variable as usize) < 64 * W {
                queue.include(slot.variable as usize);
            }
        }
    }

    // Strikes out what literals with the variable `x` disagree on; where it stands in one alone, nothing.
    fn revise(&self, x: usize, sets: &mut [BitSet<4>], queue: &mut BitSet<W>)
        requires { length self.now.literals.starts.now ≤ length sets.old }
        ensures { Pruned self.now.fronts.now self.now.slots.now (length self.now.literals.starts.now) (length self.now.targets.starts.now) sets.old sets.new }
    {
        let Some(last) = self.slot(self.last.get(x).copied().flatten(), x) else {
            return;
        };
        if last.before.is_none() {
            return;
        }
        if let Some(marks) = self.shared(x, sets) {
            self.strike(x, &marks, sets, queue);
        }
        if x < 64 * W {
            queue.exclude(x);
        }
    }

    // Strikes out candidates until no two literals disagree, beginning at the variables in the queue.
    pub(super) fn prune(&self, sets: &mut [BitSet<4>], mut queue: BitSet<W>)
        requires { length self.now.literals.starts.now ≤ length sets.old }
        ensures { Pruned self.now.fronts.now self.now.slots.now (length self.now.literals.starts.now) (length self.now.targets.starts.now) sets.old sets.new }
    {
        // Round and round: so what is struck out at one variable is felt at the next in the same round.
        let mut next = 0;
        for _ in 0..ROUNDS {
            let Some(x) = queue.pop_from(next) else {
                return;
            };
            self.revise(x, sets, &mut queue);
            next = x + 1;
        }
    }
}
