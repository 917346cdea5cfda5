// The list's type: an array, how much of it is in use, and the invariant that ties them.
ghost use Rattle.std.specs.Prelude.{◌≡◌, ◌≤◌, length};

mod ops;

// A push found no room.
#[derive(Clone, Copy, PartialEq, Debug)]
pub struct Full;

// An array with a length beside it and not a `Vec`, since the library has no heap; nor the toolchain's `ArrayVec`, which is
// never `Copy`. No `impl Model`: the type is `Copy`, so a
// view would need an inverse, and the view as `elems` forgets what stands in the places that are not in use.
#[derive(Copy)]
pub struct Bounded<T: Copy, const N: usize> {
    items: [T; N],
    len: usize,
    ghost within: { len ≤ N },
    ghost room: { length items ≡ N },
}
