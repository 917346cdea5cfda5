// Tidying: drops the literals that the others make needless.
ghost use Rattle.std.specs.Prelude.{◌≡◌, ◌≢◌, ℕ, List, ◌<◌, ◌≤◌, None, length, All, MatchOption};
ghost use Rattle.bounded.specs.Elems.{elems};
ghost use Rattle.clauses.specs.Clauses.{literals_at};
ghost use Rattle.subsume.specs.Bits.{bit_at};
ghost use Rattle.subsume.specs.Choices.{Picked, pick, picked};
ghost use Rattle.subsume.specs.FirstChoices.{ChoosesOutside};
ghost use Rattle.subsume.specs.Retracting.{Retracts};
ghost use Rattle.subsume.specs.Solving.{SparedOutside};
ghost use Rattle.term.specs.Words.{Word};
ghost use Rattle.term.specs.Matched.{Below};
ghost use Rattle.reduction.specs.Tidyings.{Inside, Standing, Turned, Passed, Taken, Leaves};

use bounded::Bounded;
use subsume::{BitSet, Order, Slots, State, Table, Targets, View};

// How many fronts help the search.
const FRONTS: usize = 192;

// What has been decided: where the literals begin that are kept, at which places of all they stand, and which of all are gone.
#[derive(Clone, Copy)]
pub(super) struct Decided {
    pub kept: Bounded<usize, 16>,
    pub held: BitSet<4>,
    pub gone: BitSet<4>,
}

// What came of the turn of a literal.
pub(super) enum Turn<const N: usize> {
    // It was dropped or kept, and the table is right for the next one.
    On,
    // It must be kept, and there is no room.
    Full,
    // It was dropped, since these choices take each literal of the table to one that is not gone.
    Shrunk([Option<u16>; N]),
}

impl Decided {
    // Choices that take each literal of the table to one that is not in `without`: those that are gone, and literal `i`. Or none,
    // where no substitution retracts the clause so: leaves the kept literals as they are, and what it makes. `whole` links the
    // clause with itself.
    fn choices_without<const N: usize, const V: usize, const W: usize>(
        &self,
        whole: &Table<'_, N, W>,
        table: &Table<'_, N, W>,
        start: &State<N>,
        order: &mut Order<N>,
        mapped: &BitSet<4>,
        i: usize,
        without: &BitSet<4>,
    ) -> Option<[Option<u16>; N]>
        requires literal { i < length table.now.targets.starts.now }
        requires same { table.now.literals.nodes.now ≡ table.now.targets.nodes.now }
        requires whole { (whole.now.literals ≡ whole.now.targets) × (whole.now.targets ≡ table.now.targets) }
        requires variables { Below V table.now.literals.nodes.now × (V ≤ 65536) }
        requires picked { Picked start.now.sets (length table.now.literals.starts.now) (length table.now.targets.starts.now) start.now.picks }
        requires none { (k : ℕ) → pick start.now.picks k ≡ None }
        requires spared { SparedOutside table.now.literals.nodes.now table.now.literals.starts.now table.now.targets.nodes.now table.now.targets.starts.now self.now.held.words self.now.gone.words start.now.sets }
        requires standing { Standing table.now.targets.nodes.now (literals_at table.now.targets.nodes.now table.now.targets.starts.now) mapped.now.words (literals_at table.now.literals.nodes.now table.now.literals.starts.now) i self.now }
        requires here { bit_at without.now.words i ≡ 1 }
        requires others { (j : ℕ) → j ≢ i → bit_at without.now.words j ≡ bit_at self.now.gone.words j }
        ensures { MatchOption result ((θ : ℕ → Word) → Retracts self.now.held.words without.now.words (literals_at table.now.targets.nodes.now table.now.targets.starts.now) θ → ⊥) (λ picks. ChoosesOutside without.now.words (literals_at table.now.literals.nodes.now table.now.literals.starts.now) (literals_at table.now.targets.nodes.now table.now.targets.starts.now) (picked picks)) }
    {
        let mut out = *without;
        if !whole.look_out(&self.held, &mut out, i) {
            return None;
        }
        // Only the part of this literal can fail, since others can stay as they are.
        order.first = table.part_at(i);
        table.choose_outside::<V>(start, &out, order)
    }

    // Decides on literal `i`: it is dropped where the literals that are left cover the clause without it.
    fn turn<const N: usize, const V: usize, const W: usize>(
        &mut self,
        whole: &Table<'_, N, W>,
        table: &Table<'_, N, W>,
        start: &mut State<N>,
        order: &mut Order<N>,
        mapped: &BitSet<4>,
        i: usize,
    ) -> Turn<N>
        requires literal { i < length table.now.targets.starts.now }
        requires same { table.now.literals.nodes.now ≡ table.now.targets.nodes.now }
        requires whole { (whole.now.literals ≡ whole.now.targets) × (whole.now.targets ≡ table.now.targets) }
        requires variables { Below V table.now.literals.nodes.now × (V ≤ 65536) }
        requires picked { Picked start.old.sets (length table.now.literals.starts.now) (length table.now.targets.starts.now) start.old.picks }
        requires none { (k : ℕ) → pick start.old.picks k ≡ None }
        requires spared { SparedOutside table.now.literals.nodes.now table.now.literals.starts.now table.now.targets.nodes.now table.now.targets.starts.now self.old.held.words self.old.gone.words start.old.sets }
        requires inside { Inside (length table.now.targets.nodes.now) self.old }
        requires standing { Standing table.now.targets.nodes.now (literals_at table.now.targets.nodes.now table.now.targets.starts.now) mapped.now.words (literals_at table.now.literals.nodes.now table.now.literals.starts.now) i self.old }
        ensures picked { Picked start.new.sets (length table.now.literals.starts.now) (length table.now.targets.starts.now) start.new.picks }
        ensures none { (k : ℕ) → pick start.new.picks k ≡ None }
        ensures spared { SparedOutside table.now.literals.nodes.now table.now.literals.starts.now table.now.targets.nodes.now table.now.targets.starts.now self.new.held.words self.new.gone.words start.new.sets }
        ensures inside { Inside (length table.now.targets.nodes.now) self.new }
        ensures turned { Turned table.now.targets.nodes.now (literals_at table.now.targets.nodes.now table.now.targets.starts.now) mapped.now.words (literals_at table.now.literals.nodes.now table.now.literals.starts.now) i result self.new }
    {
        if !mapped.test(i) {
            self.gone.include(i);
            return Turn::On;
        }
        table.strike_out(start, &self.gone);
        let mut without = self.gone;
        without.include(i);
        if let Some(picks) = self.choices_without::<N, V, W>(
            whole, table, start, order, mapped, i, &without,
        ) {
            self.gone = without;
            return Turn::Shrunk(picks);
        }
        self.held.include(i);
        table.hold(start, i);
        match self.kept.push(table.targets.starts[i]) {
            Ok(()) => Turn::On,
            Err(_) => Turn::Full,
        }
    }
}

// How a pass over the literals ends.
pub(super) enum Outcome<const N: usize> {
    // Each has had its turn.
    Whole,
    // More must be kept than there is room for.
    Full,
    // The literals before `next` have had their turn, and these choices were found at the last of them.
    Shrunk {
        next: usize,
        picks: [Option<u16>; N],
    },
}

// Gives each literal of a clause from `at` on its turn, until one is dropped by choices that are new. The clause is the targets
// of the table, and its literals are what it was last turned into, at the places in `mapped`. `whole` links the clause with
// itself.
fn pass<const N: usize, const V: usize, const W: usize>(
    whole: &Table<'_, N, W>,
    table: &Table<'_, N, W>,
    mapped: &BitSet<4>,
    at: usize,
    decided: &mut Decided,
) -> Outcome<N>
    requires same { table.now.literals.nodes.now ≡ table.now.targets.nodes.now }
    requires whole { (whole.now.literals ≡ whole.now.targets) × (whole.now.targets ≡ table.now.targets) }
    requires variables { Below V table.now.targets.nodes.now × (V ≤ 65536) }
    requires inside { Inside (length table.now.targets.nodes.now) decided.old }
    requires standing { Standing table.now.targets.nodes.now (literals_at table.now.targets.nodes.now table.now.targets.starts.now) mapped.now.words (literals_at table.now.literals.nodes.now table.now.literals.starts.now) at decided.old }
    ensures inside { Inside (length table.now.targets.nodes.now) decided.new }
    ensures passed { Passed table.now.targets.nodes.now (literals_at table.now.targets.nodes.now table.now.targets.starts.now) (literals_at table.now.literals.nodes.now table.now.literals.starts.now) at result decided.new }
{
    let mut state = table.start_outside(&decided.held, &decided.gone);
    let mut order = Order::new();
    for i in at..table.targets.len() {
        match decided.turn::<N, V, W>(whole, table, &mut state, &mut order, mapped, i) {
            Turn::On => {}
            Turn::Full => return Outcome::Full,
            Turn::Shrunk(picks) => return Outcome::Shrunk { next: i + 1, picks },
        }
    }
    Outcome::Whole
}

// The literals that the first `count` choices take: where they begin, and their places.
fn targets<const N: usize>(
    clause: View<'_>,
    picks: &[Option<u16>; N],
    count: usize,
) -> (Bounded<usize, N>, BitSet<4>)
    requires few { (length clause.starts.now ≤ N) × (count ≤ N) × (N ≤ 256) }
    requires chosen { (k : ℕ) → k < count → picked picks.now k < length clause.starts.now }
    ensures inside { All (λ s. s < length clause.entry.nodes.now) (elems result.0) }
    ensures taken { Taken (literals_at clause.entry.nodes.now clause.entry.starts.now) count (picked picks.now) result.1.words (literals_at clause.entry.nodes.now (elems result.0)) }
{
    let mut image = Bounded::new(0);
    let mut mapped = BitSet::<4>::new();
    for pick in &picks[..count] {
        let j = pick.unwrap_or(0) as usize;
        if !mapped.test(j) {
            mapped.include(j);
            let _ = image.push(clause.starts[j]);
        }
    }
    (image, mapped)
}

// Where the literals begin that tidying leaves of a clause; or none, where it leaves more than 16. Each literal from the first
// to the last is dropped where those still kept cover what is left of them without it.
pub fn tidied(clause: View<'_>) -> Option<Bounded<usize, 16>>
    requires few { length clause.starts.now ≤ 256 }
    requires small { length clause.nodes.now ≤ 4096 }
    requires variables { Below (length clause.nodes.now) clause.nodes.now }
    ensures { Leaves clause.entry.nodes.now (literals_at clause.entry.nodes.now clause.entry.starts.now) result }
{
    // What is small is tidied in less room, and so in less time.
    if clause.len() <= 16 && clause.nodes.len() <= 64 && clause.wanted_fronts() <= 8 {
        tidied_in::<16, 64, 64, 1, 8>(clause)
    } else if clause.len() <= 16 && clause.nodes.len() <= 64 {
        tidied_in::<16, 64, 64, 1, 65>(clause)
    } else if clause.len() <= 16 && clause.nodes.len() <= 256 {
        tidied_in::<16, 128, 256, 4, FRONTS>(clause)
    } else if clause.len() <= 64 && clause.nodes.len() <= 512 {
        tidied_in::<64, 256, 512, 8, FRONTS>(clause)
    } else if clause.nodes.len() <= 1024 {
        tidied_in::<256, 1024, 1024, 16, FRONTS>(clause)
    } else {
        tidied_in::<256, 1024, 4096, 64, FRONTS>(clause)
    }
}

// The same with room for N literals, K slots, V variables and nodes, W words of 64 bits for sets of words and of variables,
// and F fronts. Never inlined: else what is small would walk down the stack of what is large.
#[inline(never)]
fn tidied_in<const N: usize, const K: usize, const V: usize, const W: usize, const F: usize>(
    clause: View<'_>,
) -> Option<Bounded<usize, 16>>
    requires few { (length clause.starts.now ≤ N) × (N ≤ 256) }
    requires room { (K ≤ 65536) × (W ≤ 1024) × (0 < W) × (0 < F) × (F ≤ 256) }
    requires small { (length clause.nodes.now ≤ V) × (V ≤ 65535) }
    requires variables { Below V clause.nodes.now }
    ensures { Leaves clause.entry.nodes.now (literals_at clause.entry.nodes.now clause.entry.starts.now) result }
{
    let mut decided = Decided {
        kept: Bounded::new(0),
        held: BitSet::new(),
        gone: BitSet::new(),
    };
    let words = Targets::<V>::new(clause);
    let mut own = Slots::<N, K, F>::new();
    let whole = Table::<N, W>::link(clause, &words, &mut own, u32::MAX);
    // At first all literals are in hand, and that table will do.
    let all = all_of(clause.len());
    let (mut at, first) = match pass::<N, V, W>(&whole, &whole, &all, 0, &mut decided) {
        Outcome::Whole => return Some(decided.kept),
        Outcome::Full => return None,
        Outcome::Shrunk { next, picks } => (next, picks),
    };
    let (mut image, mut mapped) = targets::<N>(clause, &first, clause.len());
    let mut slots = Slots::<N, K, F>::new();
    loop {
        let view = View {
            nodes: clause.nodes,
            starts: image.as_slice(),
        };
        let table = Table::<N, W>::link(view, &words, &mut slots, u32::MAX);
        match pass::<N, V, W>(&whole, &table, &mapped, at, &mut decided) {
            Outcome::Whole => return Some(decided.kept),
            Outcome::Full => return None,
            Outcome::Shrunk { next, picks } => {
                (image, mapped) = targets::<N>(clause, &picks, image.len());
                at = next;
            }
        }
    }
}

// The places of the first `n` literals.
fn all_of(n: usize) -> BitSet<4>
    requires { n ≤ 256 }
    ensures { (j : ℕ) → j < n → bit_at result.words j ≡ 1 }
{
    let mut places = BitSet::<4>::new();
    for j in 0..n {
        places.include(j);
    }
    places
}
