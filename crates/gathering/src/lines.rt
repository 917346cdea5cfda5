// The lines of a gathering.
ghost use Rattle.std.specs.Prelude.{◌≡◌, IfOk, string_bytes};
ghost use Rattle.entries.specs.Lines.{bad_line};

use std::alloc::{AllocError, Global};

// The line of a fault.
#[tactic(auto, unfolding(entries::specs::Lines::bad_line))]
pub fn bad_line(heap: Global, question: u8, byte: usize) -> Result<String, AllocError>
    ensures { IfOk result (λ s. string_bytes s ≡ bad_line question byte) }
{
    format!(in heap; "bad {question} at {byte}\n")
}
