// What columns are for: the targets with a marked label are found at once.
ghost use Rattle.std.specs.Prelude.{◌≡◌, ℕ, List, ◌<◌, ◌≤◌, length, IfSome};
ghost use Rattle.subsume.specs.Choices.{Given};
ghost use Rattle.subsume.specs.Columns.{Supported, SiftedWord};

use super::bits::{BitSet, both, either, part, with, without};
use super::column::Column;
use super::prune::given;

impl Column {
    // The column of labels; or none, where there are more targets, or greater labels.
    pub fn of(met: &BitSet<4>, labels: &[u16]) -> Option<Column>
        ensures { IfSome result (λ column. Supported met.now.words labels.now column) }
    {
        if labels.len() > 16 {
            return None;
        }
        let mut supports = [0; 64];
        let mut others = u64::MAX;
        for j in 0..labels.len() {
            let label = labels[j] as usize;
            if label >= 64 {
                return None;
            }
            supports[label] = with(supports[label], j);
            others = without(others, j);
        }
        let given = given::<1>(met, labels);
        Some(Column {
            supports,
            others,
            given: given.words[0],
        })
    }

    // The targets of a word that have a marked label.
    pub fn sift<const W: usize>(&self, word: u64, marks: &BitSet<W>) -> u64
        requires { 0 < W }
        ensures { (met labels : List ℕ) → Supported met labels self.now → SiftedWord labels word marks.now.words result }
    {
        let mut kept = self.others;
        let mut rest = marks.words[0];
        while rest != 0 {
            let (label, others) = part(rest);
            kept = either(kept, u64::from(self.supports[label]));
            rest = others;
        }
        both(word, kept)
    }

    // The labels of the targets in which the walk has not ended, as a set.
    pub fn labels<const W: usize>(&self) -> BitSet<W>
        requires { (0 < W) × (W ≤ 1024) }
        ensures { (met labels : List ℕ) → Supported met labels self.now → Given met labels (length labels) result.words }
    {
        let mut labels = BitSet::<W>::new();
        labels.words[0] = self.given;
        labels
    }
}
