// The search: takes the literal with the fewest candidates, tries each, prunes, and goes on.
ghost use Rattle.std.specs.Prelude.{◌≡◌, ℕ, ◌*◌, ◌<◌, ◌≤◌, true, false, List, None, length, replicate, Decides, IfSome};
ghost use Rattle.term.specs.Matched.{Below};
ghost use Rattle.subsume.specs.Bits.{bit_at};
ghost use Rattle.subsume.specs.Choices.{left, Settled, Narrowed, Spent, Taken, Chosen, Uses, Turn, Picked, Made, Clear, Avoids, pick, picked, undone};
ghost use Rattle.subsume.specs.Solving.{Works, Solved, Hopeful, Spared};

use super::bits::BitSet;
use super::check::check;
use super::state::State;
use super::table::Table;

// Leaves only the target `j`, if it was left.
pub(super) fn narrow(left: &mut BitSet<4>, j: usize)
    requires { j < 256 }
    ensures { Narrowed left.old.words left.new.words j }
{
    let kept = left.test(j);
    *left = BitSet::<4>::new();
    if kept {
        left.include(j);
    }
}

// The only target that is left, if it is one of the first `n`.
fn settled(left: &BitSet<4>, n: usize) -> Option<usize>
    ensures { Settled result left.now.words n }
{
    left.only().filter(|j| *j < n)
}

// The target that has the turn `k` of 2 * n: those of the first `n` that are in the set come first, and then the others.
fn turn(first: &BitSet<4>, n: usize, k: usize) -> Option<usize>
    requires { (n ≤ 256) × (k < 2 * n) }
    ensures { Turn first.now.words n k result }
{
    if k < n {
        first.test(k).then_some(k)
    } else {
        (!first.test(k - n)).then_some(k - n)
    }
}

// What orders the literals in a search. No promise rests on it.
#[derive(Drop)]
pub struct Order<const N: usize> {
    // These come first.
    pub first: BitSet<4>,
    // How often each literal was left without a target: where that is often, few targets more are as good as fewer ones.
    pub failures: [u32; N],
}

impl<const N: usize> Order<N> {
    // No literal comes before another.
    pub fn new() -> Order<N>
        ensures first { (k : ℕ) → bit_at result.first.words k ≡ 0 }
        ensures failures { result.failures ≡ replicate N 0 }
    {
        Order {
            first: BitSet::new(),
            failures: [0; N],
        }
    }

    // By what literal `i` comes before others: the least is the first.
    fn rank(&self, sets: &[BitSet<4>], i: usize) -> (bool, u32)
        ensures { result.0 ≡ false → bit_at self.now.first.words i ≡ 1 }
    {
        let later = i >= 256 || !self.first.test(i);
        let targets = sets.get(i).map_or(0, |left| left.count());
        let rank = targets % 4096 << 20;
        match self.failures.get(i) {
            Some(failures) if *failures > 0 => (later, rank / failures.saturating_add(1)),
            _ => (later, rank),
        }
    }

    // Notes which literals are left without a target.
    fn note(&mut self, sets: &[BitSet<4>])
        ensures { self.new.first ≡ self.old.first }
    {
        for (failures, left) in self.failures.iter_mut().zip(sets) {
            if left.is_empty() {
                *failures = failures.saturating_add(1);
            }
        }
    }
}

impl<const N: usize, const W: usize> Table<'_, N, W> {
    // Where the search begins: pruned from every literal on, and no choice is made.
    pub fn start(&self) -> State<N>
        ensures picked { Picked result.sets (length self.now.literals.starts.now) (length self.now.targets.starts.now) result.picks }
        ensures spared { Spared self.now.literals.nodes.now self.now.literals.starts.now self.now.targets.nodes.now self.now.targets.starts.now result.sets }
        ensures none { (i : ℕ) → pick result.picks i ≡ None }
    {
        let mut sets = self.candidates;
        let mut queue = BitSet::<W>::new();
        for i in 0..self.literals.len() {
            self.enqueue(i, &mut queue);
        }
        self.prune(&mut sets, queue);
        State {
            sets,
            picks: [None; N],
        }
    }

    // Makes the choices for which one target is left.
    fn settle(&self, state: &mut State<N>)
        requires { Picked state.old.sets (length self.now.literals.starts.now) (length self.now.targets.starts.now) state.old.picks }
        ensures picked { Picked state.new.sets (length self.now.literals.starts.now) (length self.now.targets.starts.now) state.new.picks }
        ensures fewer { undone state.new.picks ≤ undone state.old.picks }
        ensures same { state.new.sets ≡ state.old.sets }
        ensures clear { (gone : List ℕ) → Clear gone state.old.sets (length self.now.literals.starts.now) (length self.now.targets.starts.now) state.old.picks → Clear gone state.new.sets (length self.now.literals.starts.now) (length self.now.targets.starts.now) state.new.picks }
    {
        // By number: picks lent in place beside the sets are refused, and by `zip` or `enumerate` over both the proof did not close.
        for i in 0..self.literals.len() {
            if let Some(_) = state.picks[i] {
                continue;
            }
            if let Some(j) = settled(&state.sets[i], self.targets.len()) {
                state.picks[i] = Some(j as u16);
            }
        }
    }

    // Whether some literal has no target left.
    fn spent(&self, state: &State<N>) -> bool
        ensures { Decides result (Spent state.now.sets (length self.now.literals.starts.now)) }
    {
        state.sets[..self.literals.len()]
            .iter()
            .any(|left| left.is_empty())
    }

    // A literal whose choice is still to be made: the first by the order.
    fn choose(&self, state: &State<N>, order: &Order<N>) -> Option<usize>
        ensures { Chosen result (length self.now.literals.starts.now) state.now.picks }
    {
        state.picks[..self.literals.len()]
            .iter()
            .enumerate()
            .filter(|(_, pick)| pick.is_none())
            .min_by_key(|(i, _)| order.rank(&state.sets, *i))
            .map(|(i, _)| i)
    }

    // The targets that are chosen already.
    fn chosen(&self, state: &State<N>) -> BitSet<4>
        requires { Picked state.now.sets (length self.now.literals.starts.now) (length self.now.targets.starts.now) state.now.picks }
        ensures { Uses state.now.picks (length self.now.literals.starts.now) result.words }
    {
        let mut chosen = BitSet::<4>::new();
        for i in 0..self.literals.len() {
            if let Some(j) = state.picks[i] {
                chosen.include(j as usize);
            }
        }
        chosen
    }

    // Whether some choice works. Where it says no, none works whose targets are left.
    pub(super) fn solvable<const V: usize>(&self, state: State<N>) -> bool
        requires variables { Below V self.now.literals.nodes.now × (V ≤ 65536) }
        requires picked { Picked state.sets (length self.now.literals.starts.now) (length self.now.targets.starts.now) state.picks }
        ensures found { result ≡ true → Solved self.now.literals.nodes.now self.now.literals.starts.now self.now.targets.nodes.now self.now.targets.starts.now }
        ensures none { result ≡ false → Hopeful self.now.literals.nodes.now self.now.literals.starts.now self.now.targets.nodes.now self.now.targets.starts.now state.entry.sets → ⊥ }
    {
        self.search::<V>(state, &mut Order::new()).is_some()
    }

    // A choice that works; or none, where none works whose targets are left.
    pub(super) fn search<const V: usize>(
        &self,
        mut state: State<N>,
        order: &mut Order<N>,
    ) -> Option<[Option<u16>; N]>
        requires variables { Below V self.now.literals.nodes.now × (V ≤ 65536) }
        requires picked { Picked state.sets (length self.now.literals.starts.now) (length self.now.targets.starts.now) state.picks }
        ensures found { IfSome result (λ picks. Made picks (length self.now.literals.starts.now) (length self.now.targets.starts.now) × Works self.now.literals.nodes.now self.now.literals.starts.now self.now.targets.nodes.now self.now.targets.starts.now (picked picks)) }
        ensures clear { (gone : List ℕ) → Clear gone state.entry.sets (length self.now.literals.starts.now) (length self.now.targets.starts.now) state.entry.picks → IfSome result (λ picks. Avoids gone (length self.now.literals.starts.now) picks) }
        ensures none { result ≡ None → Hopeful self.now.literals.nodes.now self.now.literals.starts.now self.now.targets.nodes.now self.now.targets.starts.now state.entry.sets → ⊥ }
    {
        if self.spent(&state) {
            order.note(&state.sets[..self.literals.len()]);
            return None;
        }
        self.settle(&mut state);
        let Some(i) = self.choose(&state, order) else {
            if check::<V>(self.literals, self.targets, &state.picks) {
                return Some(state.picks);
            }
            return None;
        };
        // Targets that are chosen already come first: so the literals are turned into few.
        let chosen = self.chosen(&state);
        let n = self.targets.len();
        for k in 0..2 * n {
            let Some(j) = turn(&chosen, n, k) else {
                continue;
            };
            if state.sets[i].test(j) {
                if let Some(picks) = self.search::<V>(self.take(&state, i, j), order) {
                    return Some(picks);
                }
            }
        }
        None
    }

    // What is left once literal `i` takes the target `j`.
    pub(super) fn take(&self, state: &State<N>, i: usize, j: usize) -> State<N>
        requires literal { i < length self.now.literals.starts.now }
        requires target { j < length self.now.targets.starts.now }
        ensures taken { Taken self.now.fronts.now self.now.slots.now (length self.now.literals.starts.now) (length self.now.targets.starts.now) state.now.sets i j result.sets }
        ensures picked { Picked state.now.sets (length self.now.literals.starts.now) (length self.now.targets.starts.now) state.now.picks → Picked result.sets (length self.now.literals.starts.now) (length self.now.targets.starts.now) result.picks }
        ensures fewer { pick state.now.picks i ≡ None → undone result.picks < undone state.now.picks }
        ensures clear { (gone : List ℕ) → left state.now.sets i j ≡ 1 → Clear gone state.now.sets (length self.now.literals.starts.now) (length self.now.targets.starts.now) state.now.picks → Clear gone result.sets (length self.now.literals.starts.now) (length self.now.targets.starts.now) result.picks }
    {
        let mut sets = state.sets;
        narrow(&mut sets[i], j);
        let mut queue = BitSet::<W>::new();
        self.enqueue(i, &mut queue);
        self.prune(&mut sets, queue);
        let mut picks = state.picks;
        picks[i] = Some(j as u16);
        State { sets, picks }
    }
}
