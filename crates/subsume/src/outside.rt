// Choices that take none of some targets: those that are gone; and literals that are held where they are.
ghost use Rattle.std.specs.Prelude.{◌≡◌, ℕ, List, ◌-◌, ◌<◌, ◌≤◌, min, None, length, slice_index, All, MatchOption, Decides, ◌≢◌};
ghost use Rattle.std.specs.Int.{bit_at as bit};
ghost use Rattle.subsume.specs.Bits.{bit_at, Within};
ghost use Rattle.subsume.specs.Choices.{Removed, Picked, Clear, Holding, pick, picked};
ghost use Rattle.clauses.specs.Clauses.{literals_at};
ghost use Rattle.term.specs.Matched.{Below};
ghost use Rattle.term.specs.Words.{Word, sub};
ghost use Rattle.subsume.specs.FirstChoices.{Outside, ChoosesOutside};
ghost use Rattle.subsume.specs.Retracting.{Stays, Apart};
ghost use Rattle.subsume.specs.Solving.{SparedOutside};

use super::bits::BitSet;
use super::search::{Order, narrow};
use super::state::State;
use super::table::Table;

// Strikes out the targets that are gone; says whether there were any.
fn remove(left: &mut BitSet<4>, gone: &BitSet<4>) -> bool
    ensures removed { Removed gone.now.words left.old.words left.new.words }
    ensures struck { Decides result (left.new.words ≢ left.old.words) }
{
    let before = left.words;
    for w in 0..4 {
        left.words[w] = minus(left.words[w], gone.words[w]);
    }
    left.words != before
}

// The bits of a word that another has not.
fn minus(word: u64, other: u64) -> u64
    ensures { (k : ℕ) → k < 64 → bit result k ≡ min (bit word k) (1 - bit other k) }
{
    word & !other
}

impl<const N: usize, const W: usize> Table<'_, N, W> {
    // Where a search begins for choices that take none of the targets that are gone and leave the literals where they are that
    // begin at the places in `kept`.
    pub fn start_outside(&self, kept: &BitSet<4>, gone: &BitSet<4>) -> State<N>
        ensures picked { Picked result.sets (length self.now.literals.starts.now) (length self.now.targets.starts.now) result.picks }
        ensures none { (i : ℕ) → pick result.picks i ≡ None }
        ensures spared { SparedOutside self.now.literals.nodes.now self.now.literals.starts.now self.now.targets.nodes.now self.now.targets.starts.now kept.now.words gone.now.words result.sets }
    {
        let mut sets = self.candidates;
        let mut queue = BitSet::<W>::new();
        for i in 0..self.literals.len() {
            let _ = remove(&mut sets[i], gone);
            self.enqueue(i, &mut queue);
        }
        for j in 0..self.targets.len() {
            if kept.test(j) {
                self.narrow_at(&mut sets, j, &mut queue);
            }
        }
        self.prune(&mut sets, queue);
        State {
            sets,
            picks: [None; N],
        }
    }

    // Leaves to the literal that begins where the target `j` does no other target, and puts its variables into the queue.
    fn narrow_at(&self, sets: &mut [BitSet<4>], j: usize, queue: &mut BitSet<W>)
        requires target { j < length self.now.targets.starts.now }
        requires rows { length self.now.literals.starts.now ≤ length sets.old }
        ensures { Holding (length self.now.literals.starts.now) (length self.now.targets.starts.now) (λ i. slice_index self.now.literals.starts.now i) (slice_index self.now.targets.starts.now j) j sets.old sets.new }
    {
        for i in 0..self.literals.len() {
            if self.literals.starts[i] == self.targets.starts[j] {
                narrow(&mut sets[i], j);
                self.enqueue(i, queue);
            }
        }
    }

    // The same, and prunes.
    pub fn hold(&self, state: &mut State<N>, j: usize)
        requires target { j < length self.now.targets.starts.now }
        requires picked { Picked state.old.sets (length self.now.literals.starts.now) (length self.now.targets.starts.now) state.old.picks }
        ensures picked { Picked state.new.sets (length self.now.literals.starts.now) (length self.now.targets.starts.now) state.new.picks }
        ensures picks { state.new.picks ≡ state.old.picks }
        ensures spared { (kept gone : List ℕ) → bit_at kept j ≡ 1 → SparedOutside self.now.literals.nodes.now self.now.literals.starts.now self.now.targets.nodes.now self.now.targets.starts.now kept gone state.old.sets → SparedOutside self.now.literals.nodes.now self.now.literals.starts.now self.now.targets.nodes.now self.now.targets.starts.now kept gone state.new.sets }
    {
        let mut queue = BitSet::<W>::new();
        self.narrow_at(&mut state.sets, j, &mut queue);
        self.prune(&mut state.sets, queue);
    }

    // Takes the targets that are gone from all literals.
    pub fn strike_out(&self, state: &mut State<N>, gone: &BitSet<4>)
        requires picked { Picked state.old.sets (length self.now.literals.starts.now) (length self.now.targets.starts.now) state.old.picks }
        requires none { (i : ℕ) → i < length self.now.literals.starts.now → pick state.old.picks i ≡ None }
        ensures picked { Picked state.new.sets (length self.now.literals.starts.now) (length self.now.targets.starts.now) state.new.picks }
        ensures picks { state.new.picks ≡ state.old.picks }
        ensures clear { Clear gone.now.words state.new.sets (length self.now.literals.starts.now) (length self.now.targets.starts.now) state.new.picks }
        ensures spared { (kept before : List ℕ) → Within before gone.now.words → SparedOutside self.now.literals.nodes.now self.now.literals.starts.now self.now.targets.nodes.now self.now.targets.starts.now kept before state.old.sets → SparedOutside self.now.literals.nodes.now self.now.literals.starts.now self.now.targets.nodes.now self.now.targets.starts.now kept gone.now.words state.new.sets }
    {
        let mut queue = BitSet::<W>::new();
        for i in 0..self.literals.len() {
            // What loses nothing need not be looked at again.
            if remove(&mut state.sets[i], gone) {
                self.enqueue(i, &mut queue);
            }
        }
        self.prune(&mut state.sets, queue);
    }

    // A choice that works, of targets that are not gone; or none, where there is no such choice that leaves the literals where
    // they are that are held in the state.
    pub fn choose_outside<const V: usize>(
        &self,
        start: &State<N>,
        gone: &BitSet<4>,
        order: &mut Order<N>,
    ) -> Option<[Option<u16>; N]>
        requires same { self.now.literals.nodes.now ≡ self.now.targets.nodes.now }
        requires variables { Below V self.now.literals.nodes.now × (V ≤ 65536) }
        requires picked { Picked start.now.sets (length self.now.literals.starts.now) (length self.now.targets.starts.now) start.now.picks }
        requires none { (i : ℕ) → i < length self.now.literals.starts.now → pick start.now.picks i ≡ None }
        ensures { (kept before : List ℕ) → Within before gone.now.words → SparedOutside self.now.literals.nodes.now self.now.literals.starts.now self.now.targets.nodes.now self.now.targets.starts.now kept before start.now.sets → Apart kept gone.now.words (literals_at self.now.targets.nodes.now self.now.targets.starts.now) → MatchOption result ((θ : ℕ → Word) → All (λ l. Outside gone.now.words (literals_at self.now.targets.nodes.now self.now.targets.starts.now) (sub θ l)) (literals_at self.now.literals.nodes.now self.now.literals.starts.now) → Stays kept (literals_at self.now.targets.nodes.now self.now.targets.starts.now) θ → ⊥) (λ picks. ChoosesOutside gone.now.words (literals_at self.now.literals.nodes.now self.now.literals.starts.now) (literals_at self.now.targets.nodes.now self.now.targets.starts.now) (picked picks)) }
    {
        let mut state = start.copied();
        self.strike_out(&mut state, gone);
        self.search::<V>(state, order)
    }

    // The literals that hang together by variables that they share with one that begins where the target `j` does. It is for
    // the order of the search, and no promise rests on it.
    pub fn part_at(&self, j: usize) -> BitSet<4>
        requires { j < length self.now.targets.starts.now }
    {
        let mut part = BitSet::<4>::new();
        let mut queue = BitSet::<4>::new();
        let mut seen = BitSet::<W>::new();
        for (i, start) in self.literals.starts.iter().enumerate() {
            if *start == self.targets.starts[j] {
                queue.include(i);
            }
        }
        for _ in 0..self.literals.len() {
            let Some(k) = queue.pop() else {
                break;
            };
            part.include(k);
            self.enqueue_beside(k, &part, &mut queue, &mut seen);
        }
        part
    }

    // Puts the literals that share a variable with literal `k` into the queue, but those that are done. Variables that were seen
    // are passed over, as far as there is room to note them.
    fn enqueue_beside(
        &self,
        k: usize,
        done: &BitSet<4>,
        queue: &mut BitSet<4>,
        seen: &mut BitSet<W>,
    )
        ensures { Within queue.old.words queue.new.words }
    {
        let first = self.first.get(k).copied().unwrap_or(0);
        for slot in self.slots.iter().skip(first) {
            if slot.literal as usize != k {
                break;
            }
            let x = slot.variable as usize;
            if x < 64 * W {
                if seen.test(x) {
                    continue;
                }
                seen.include(x);
            }
            let mut at = self.last.get(x).copied().flatten();
            for _ in 0..self.slots.len() {
                let Some(beside) = self.slot(at, x) else {
                    break;
                };
                let l = beside.literal as usize;
                if l < 256 && !done.test(l) {
                    queue.include(l);
                }
                at = beside.before;
            }
        }
    }
}
