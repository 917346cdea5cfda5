// Columns: for each label the targets that have it.
ghost use Rattle.std.specs.Prelude.{◌≡◌, length};

// How many fronts may have a column: the first of a clause.
pub const COLUMNS: usize = 8;

// At most 16 targets by their labels below 64: so a column is small, and soon copied.
#[derive(Clone, Copy)]
pub struct Column {
    // For each label the targets that have it.
    pub supports: [u16; 64],
    // What is no target.
    pub others: u64,
    // The labels of the targets in which the walk has not ended.
    pub given: u64,
    ghost sized: { length supports ≡ 64 },
}
