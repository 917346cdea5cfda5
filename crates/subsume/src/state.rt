// Where the search stands: the targets that are left for each literal, and the choices that are made.
// `Picked` stands in contracts and not here: it speaks of the table's counts too, and with copies of them here each
// contract would have to say that they are the table's. With the table itself here, the borrow checker does not cover
// `settle` and `search`.
// Two arrays and not one of pairs, since pruning changes the targets that are left and knows of no choices.
ghost use Rattle.std.specs.Prelude.{◌≡◌, length};

use super::table::Candidates;

#[derive(Drop)]
pub struct State<const N: usize> {
    pub sets: Candidates<N>,
    pub picks: [Option<u16>; N],
    ghost rows: { length sets ≡ N },
    ghost sized: { length picks ≡ N },
}

impl<const N: usize> State<N> {
    // The same once more. No `Clone`: the toolchain's may fail, and this does not.
    pub(super) fn copied(&self) -> State<N>
        ensures sets { result.sets ≡ self.now.sets }
        ensures picks { result.picks ≡ self.now.picks }
    {
        State {
            sets: self.sets,
            picks: self.picks,
        }
    }
}
