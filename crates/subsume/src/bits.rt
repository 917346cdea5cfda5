// Sets of numbers, as bits in words of 64.
ghost use Rattle.std.specs.Prelude.{◌≡◌, ℕ, ◌*◌, ◌<◌, ◌≤◌, ⊤, min, max, length, map, sum, count_ones, Decides, ◌≢◌};
ghost use Rattle.std.specs.Int.{bit_at as bit};
ghost use Rattle.subsume.specs.Bits.{bit_at, First, FirstFrom, Popped, PoppedFrom, Only, Parted};

use std::alloc::AllocError;

// A set of numbers below 64 * W.
#[derive(Copy)]
pub struct BitSet<const W: usize> {
    pub words: [u64; W],
    ghost sized: { length words ≡ W },
    ghost few: { W ≤ 1024 },
}

// By hand, since `Clone` cannot be derived for a generic struct with a ghost field.
impl<const W: usize> Clone for BitSet<W> {
    ghost is_clone = { λ x y. y ≡ x };

    ghost is_infallible = { λ _. ⊤ };

    fn clone(&self) -> Result<BitSet<W>, AllocError> {
        Ok(*self)
    }
}

impl<const W: usize> BitSet<W> {
    // The empty set.
    pub fn new() -> BitSet<W>
        requires { W ≤ 1024 }
        ensures { (k : ℕ) → bit_at result.words k ≡ 0 }
    {
        BitSet { words: [0; W] }
    }

    // The set of all numbers below 64 * W.
    pub(super) fn full() -> BitSet<W>
        requires { W ≤ 1024 }
        ensures { (k : ℕ) → k < 64 * W → bit_at result.words k ≡ 1 }
    {
        BitSet {
            words: [u64::MAX; W],
        }
    }

    // Whether `k` is in the set.
    pub fn test(&self, k: usize) -> bool
        requires { k < 64 * W }
        ensures { Decides result (bit_at self.now.words k ≡ 1) }
    {
        (self.words[k / 64] >> (k % 64)) % 2 == 1
    }

    // Puts `k` into the set.
    pub fn include(&mut self, k: usize)
        requires { k < 64 * W }
        ensures here { bit_at self.new.words k ≡ 1 }
        ensures others { (l : ℕ) → (l ≢ k) → bit_at self.new.words l ≡ bit_at self.old.words l }
    {
        self.words[k / 64] |= 1u64 << (k % 64);
    }

    // Takes `k` out of the set.
    pub fn exclude(&mut self, k: usize)
        requires { k < 64 * W }
        ensures here { bit_at self.new.words k ≡ 0 }
        ensures others { (l : ℕ) → (l ≢ k) → bit_at self.new.words l ≡ bit_at self.old.words l }
    {
        self.words[k / 64] &= !(1u64 << (k % 64));
    }

    // Whether both have the same numbers.
    pub(super) fn is_same(&self, other: &BitSet<W>) -> bool
        ensures { Decides result (self.now.words ≡ other.now.words) }
    {
        self.words == other.words
    }

    // Keeps the numbers that another set has too.
    pub(super) fn keep(&mut self, other: &BitSet<W>)
        ensures { (k : ℕ) → bit_at self.new.words k ≡ min (bit_at self.old.words k) (bit_at other.now.words k) }
    {
        for w in 0..W {
            self.words[w] &= other.words[w];
        }
    }

    // Puts in the numbers of another set.
    pub(super) fn add(&mut self, other: &BitSet<W>)
        ensures { (k : ℕ) → bit_at self.new.words k ≡ max (bit_at self.old.words k) (bit_at other.now.words k) }
    {
        for w in 0..W {
            self.words[w] |= other.words[w];
        }
    }

    // The least number in the set.
    pub(super) fn first(&self) -> Option<usize>
        ensures { First self.now.words result }
    {
        self.first_from(0)
    }

    // The least number in the set from `from` on.
    fn first_from(&self, from: usize) -> Option<usize>
        ensures { FirstFrom self.now.words from result }
    {
        let w = from / 64;
        if w >= W {
            return None;
        }
        let rest = self.words[w] >> (from % 64);
        if rest != 0 {
            return Some(from + rest.trailing_zeros() as usize);
        }
        // By number: over a part of the words the proof would have to count from two starts.
        for v in w + 1..W {
            if self.words[v] != 0 {
                return Some(64 * v + self.words[v].trailing_zeros() as usize);
            }
        }
        None
    }

    // Whether no number is in the set.
    pub(super) fn is_empty(&self) -> bool
        ensures { Decides result (First self.now.words None) }
    {
        self.first().is_none()
    }

    // Takes the least number out of the set.
    pub(super) fn pop(&mut self) -> Option<usize>
        ensures { Popped self.old.words self.new.words result }
    {
        let k = self.first()?;
        self.exclude(k);
        Some(k)
    }

    // Takes out the least number from `from` on; where none is left there, the least.
    pub(super) fn pop_from(&mut self, from: usize) -> Option<usize>
        ensures { PoppedFrom self.old.words self.new.words from result }
    {
        match self.first_from(from) {
            Some(k) => {
                self.exclude(k);
                Some(k)
            }
            None => self.pop(),
        }
    }

    // The number in the set, where it has no other.
    pub(super) fn only(&self) -> Option<usize>
        ensures { Only self.now.words result }
    {
        let k = self.first()?;
        match self.first_from(k + 1) {
            None => Some(k),
            Some(_) => None,
        }
    }

    // How many numbers are in the set.
    pub(super) fn count(&self) -> u32
        ensures { result ≡ sum (map count_ones self.now.words) }
    {
        self.words.iter().map(|word| word.count_ones()).sum()
    }
}

// The least bit of a word that has some, and the word without it.
pub(super) fn part(word: u64) -> (usize, u64)
    requires { 0 < word }
    ensures { Parted word result.0 result.1 }
{
    let k = word.trailing_zeros() as usize;
    (k, word & (word - 1))
}

// The bits that both words have.
pub(super) fn both(word: u64, other: u64) -> u64
    ensures { (k : ℕ) → bit result k ≡ min (bit word k) (bit other k) }
{
    word & other
}

// The bits that either word has.
pub(super) fn either(word: u64, other: u64) -> u64
    ensures { (k : ℕ) → bit result k ≡ max (bit word k) (bit other k) }
{
    word | other
}

// A short word with one bit more.
pub(super) fn with(word: u16, k: usize) -> u16
    requires { k < 16 }
    ensures here { bit result k ≡ 1 }
    ensures others { (l : ℕ) → (l ≢ k) → bit result l ≡ bit word l }
{
    word | 1 << k
}

// A word without one bit.
pub(super) fn without(word: u64, k: usize) -> u64
    requires { k < 64 }
    ensures here { bit result k ≡ 0 }
    ensures others { (l : ℕ) → l < 64 → (l ≢ k) → bit result l ≡ bit word l }
{
    word & !(1 << k)
}
