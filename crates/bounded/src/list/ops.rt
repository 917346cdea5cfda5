// What can be done with a bounded list. Contracts speak of `elems`, the list of the elements in use.
ghost use Rattle.std.specs.Prelude.{◌≡◌, ◌≤◌, ⊤, [], length, take, nat_lt, slice_set};
ghost use Rattle.std.specs.List.{slice_get};
ghost use Rattle.bounded.specs.Elems.{elems, Pushed};

use super::{Bounded, Full};
use std::alloc::AllocError;

impl<T: Copy, const N: usize> Bounded<T, N> {
    // The empty list; `filler` stands in the places that are not in use.
    pub fn new(filler: T) -> Bounded<T, N>
        ensures { elems result ≡ [] }
    {
        Bounded {
            items: [filler; N],
            len: 0,
        }
    }

    pub fn len(&self) -> usize
        ensures value { result ≡ length (elems self.now) }
        ensures bound { result ≤ N }
    {
        self.as_slice().len()
    }

    // The part in use.
    pub fn as_slice(&self) -> &[T]
        ensures value { result.now ≡ elems self.now }
        ensures bound { length result.now ≤ N }
    {
        let all = &self.items[..];
        &all[0..self.len]
    }

    // The element at `i`, or none where the list ends before it.
    pub fn get(&self, i: usize) -> Option<T>
        ensures { result ≡ slice_get (elems self.now) i }
    {
        self.as_slice().get(i).copied()
    }

    // Puts `x` in the place of the element at `i`; false, and nothing changes, where there is none. A bool, since there is
    // nothing more to say.
    pub fn set(&mut self, i: usize, x: T) -> bool
        ensures value { result ≡ nat_lt i (length (elems self.old)) }
        ensures after { elems self.new ≡ slice_set (elems self.old) i x }
    {
        if i >= self.len {
            return false;
        }
        self.items[i] = x;
        true
    }

    // Puts `x` at the end, or refuses and changes nothing where the list is full.
    pub fn push(&mut self, x: T) -> Result<(), Full>
        ensures { Pushed N x (elems self.old) result (elems self.new) }
    {
        if self.len == N {
            return Err(Full);
        }
        self.items[self.len] = x;
        self.len += 1;
        Ok(())
    }

    // Keeps the first `n` elements, or all where there are no more.
    pub fn truncate(&mut self, n: usize)
        ensures { elems self.new ≡ take n (elems self.old) }
    {
        if n < self.len {
            self.len = n;
        }
    }
}

// By hand, since `Clone` cannot be derived for a generic struct with a ghost field.
impl<T: Copy, const N: usize> Clone for Bounded<T, N> {
    ghost is_clone = { λ x y. y ≡ x };

    ghost is_infallible = { λ _. ⊤ };

    fn clone(&self) -> Result<Bounded<T, N>, AllocError> {
        Ok(*self)
    }
}
