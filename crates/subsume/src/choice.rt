// The first choice, in dictionary order, of a literal of the mount for each literal of the rule.
ghost use Rattle.std.specs.Prelude.{◌≡◌, ◌-◌, ◌<◌, ◌≤◌, false, [], ◌∷◌, ◌++◌, length, All, Decides, MatchOption};
ghost use Rattle.bounded.specs.Elems.{elems};
ghost use Rattle.term.specs.Matched.{Below};
ghost use Rattle.clauses.specs.Clauses.{Covers, literals_at};
ghost use Rattle.subsume.specs.Steps.{NoneFrom, FirstFrom, Begun};
ghost use Rattle.subsume.specs.FirstChoices.{Chooses, FirstChoice};

use super::check::check;
use super::front::{FRONTS, MOST};
use super::places::Targets;
use super::search::Order;
use super::slot::Slots;
use super::state::State;
use super::table::Table;
use super::view::View;
use bounded::Bounded;

impl<const N: usize, const W: usize> Table<'_, N, W> {
    // Whether a choice works.
    fn works<const V: usize>(&self, choice: &[u16]) -> bool
        requires variables { Below V self.now.literals.nodes.now × (V ≤ 65536) }
        requires whole { length choice.now ≡ length self.now.literals.starts.now }
        requires inside { All (λ j. j < length self.now.targets.starts.now) choice.now }
        ensures { Decides result (Chooses (literals_at self.now.literals.nodes.now self.now.literals.starts.now) (literals_at self.now.targets.nodes.now self.now.targets.starts.now) choice.now) }
    {
        let mut picks = [None; N];
        for (i, j) in choice.iter().enumerate() {
            picks[i] = Some(*j);
        }
        check::<V>(self.literals, self.targets, &picks)
    }

    // The next literal takes the target `j`.
    fn take_next(
        &self,
        state: &State<N>,
        choice: &Bounded<u16, N>,
        j: usize,
    ) -> (State<N>, Bounded<u16, N>)
        requires literal { length (elems choice.now) < length self.now.literals.starts.now }
        requires target { j < length self.now.targets.starts.now }
        requires begun { Begun self.now.literals.nodes.now self.now.literals.starts.now self.now.targets.nodes.now self.now.targets.starts.now (elems choice.now) state.now.sets state.now.picks }
        ensures begun { Begun self.now.literals.nodes.now self.now.literals.starts.now self.now.targets.nodes.now self.now.targets.starts.now (elems result.1) result.0.sets result.0.picks }
        ensures choice { elems result.1 ≡ elems choice.now ++ j ∷ [] }
        ensures fewer { length self.now.literals.starts.now - length (elems result.1) < length self.now.literals.starts.now - length (elems choice.now) }
    {
        let mut longer = *choice;
        let _ = longer.push(j as u16);
        (self.take(state, choice.len(), j), longer)
    }

    // Where no literal has taken a target.
    fn begin(&self) -> (State<N>, Bounded<u16, N>)
        ensures begun { Begun self.now.literals.nodes.now self.now.literals.starts.now self.now.targets.nodes.now self.now.targets.starts.now (elems result.1) result.0.sets result.0.picks }
        ensures choice { elems result.1 ≡ [] }
    {
        (self.start(), Bounded::new(0))
    }

    // Whether the next literal may take the target `j`. Where it says no, nothing that goes on so works. What is known are the
    // choices that a search found last: it need not find again what they say.
    fn may_take<const V: usize>(
        &self,
        state: &State<N>,
        choice: &Bounded<u16, N>,
        j: usize,
        known: &mut [Option<u16>; N],
    ) -> bool
        requires variables { Below V self.now.literals.nodes.now × (V ≤ 65536) }
        requires literal { length (elems choice.now) < length self.now.literals.starts.now }
        requires target { j < length self.now.targets.starts.now }
        requires begun { Begun self.now.literals.nodes.now self.now.literals.starts.now self.now.targets.nodes.now self.now.targets.starts.now (elems choice.now) state.now.sets state.now.picks }
        ensures { result ≡ false → NoneFrom (literals_at self.now.literals.nodes.now self.now.literals.starts.now) (literals_at self.now.targets.nodes.now self.now.targets.starts.now) (elems choice.now ++ j ∷ []) }
    {
        let i = choice.len();
        if !state.sets[i].test(j) {
            return false;
        }
        if known[i] == Some(j as u16) {
            return true;
        }
        match self.search::<V>(self.take(state, i, j), &mut Order::new()) {
            Some(picks) => {
                *known = picks;
                true
            }
            None => false,
        }
    }

    // The first choice that works, of those that begin with this one.
    fn first_from<const V: usize>(
        &self,
        state: State<N>,
        choice: Bounded<u16, N>,
        known: &mut [Option<u16>; N],
    ) -> Option<Bounded<u16, N>>
        requires variables { Below V self.now.literals.nodes.now × (V ≤ 65536) }
        requires begun { Begun self.now.literals.nodes.now self.now.literals.starts.now self.now.targets.nodes.now self.now.targets.starts.now (elems choice) state.sets state.picks }
        ensures { let rule = literals_at self.now.literals.nodes.now self.now.literals.starts.now in let mount = literals_at self.now.targets.nodes.now self.now.targets.starts.now in MatchOption result (NoneFrom rule mount (elems choice.entry)) (λ first. FirstFrom rule mount (elems choice.entry) (elems first)) }
    {
        if choice.len() == self.literals.len() {
            return self.works::<V>(choice.as_slice()).then_some(choice);
        }
        for j in 0..self.targets.len() {
            if self.may_take::<V>(&state, &choice, j, known) {
                let (next, longer) = self.take_next(&state, &choice, j);
                if let Some(first) = self.first_from::<V>(next, longer, known) {
                    return Some(first);
                }
            }
        }
        None
    }

    // The first of all choices that work.
    fn first<const V: usize>(&self) -> Option<Bounded<u16, N>>
        requires variables { Below V self.now.literals.nodes.now × (V ≤ 65536) }
        ensures { let rule = literals_at self.now.literals.nodes.now self.now.literals.starts.now in let mount = literals_at self.now.targets.nodes.now self.now.targets.starts.now in MatchOption result (NoneFrom rule mount []) (λ first. FirstFrom rule mount [] (elems first)) }
    {
        let (state, choice) = self.begin();
        // One search decides what would else take one for each target of the first literal.
        let Some(mut known) = self.search::<V>(state.copied(), &mut Order::new()) else {
            return None;
        };
        self.first_from::<V>(state, choice, &mut known)
    }
}

impl View<'_> {
    // The first choice, in dictionary order, of a literal of the other clause for each literal of this one; none where this
    // one does not cover the other. The sizes are as in `covers`.
    pub fn first_choice<const N: usize, const K: usize, const V: usize, const W: usize>(
        self,
        other: View<'_>,
    ) -> Option<Bounded<u16, N>>
        requires few { (length self.starts.now ≤ N) × (length other.starts.now ≤ N) × (N ≤ 256) × (K ≤ 65536) × (W ≤ 1024) × (0 < W) × (length other.nodes.now ≤ V) }
        requires variables { Below V self.nodes.now × (V ≤ 65535) }
        ensures { MatchOption result (Covers (literals_at self.entry.nodes.now self.entry.starts.now) (literals_at other.entry.nodes.now other.entry.starts.now) → ⊥) (λ choice. FirstChoice (literals_at self.entry.nodes.now self.entry.starts.now) (literals_at other.entry.nodes.now other.entry.starts.now) (elems choice)) }
    {
        // As in `covers`.
        if self.nodes.len() <= 64 && other.nodes.len() <= 64 {
            if self.wanted_fronts() <= 8 {
                self.first_by::<N, 64, V, 1, 8>(other)
            } else {
                self.first_by::<N, 64, V, 1, FRONTS>(other)
            }
        } else {
            self.first_by::<N, K, V, W, FRONTS>(other)
        }
    }

    // The same by one choice after the other, with sets of that size, and F fronts.
    #[inline(never)]
    fn first_by<const N: usize, const K: usize, const V: usize, const W: usize, const F: usize>(
        self,
        other: View<'_>,
    ) -> Option<Bounded<u16, N>>
        requires few { (length self.starts.now ≤ N) × (length other.starts.now ≤ N) × (N ≤ 256) × (K ≤ 65536) × (W ≤ 1024) × (0 < W) × (length other.nodes.now ≤ V) }
        requires fronts { (0 < F) × (F ≤ 256) }
        requires variables { Below V self.nodes.now × (V ≤ 65535) }
        ensures { MatchOption result (Covers (literals_at self.entry.nodes.now self.entry.starts.now) (literals_at other.entry.nodes.now other.entry.starts.now) → ⊥) (λ choice. FirstChoice (literals_at self.entry.nodes.now self.entry.starts.now) (literals_at other.entry.nodes.now other.entry.starts.now) (elems choice)) }
    {
        let targets = Targets::<V>::new(other);
        let mut slots = Slots::<N, K, F>::new();
        let table = Table::<N, W>::link(self, &targets, &mut slots, MOST);
        table.first::<V>()
    }
}
