// An entry of an input: a packed length, and that many bytes.
ghost use Rattle.std.specs.Prelude.{◌≡◌};
ghost use Rattle.entries.specs.Entries.{entry_at, Inside};

use number::NumberFault;

// Where the bytes of the entry at `at` begin and end, or the fault of its length.
#[tactic(auto, unfolding(crate::specs::Entries::entry_at))]
pub fn entry(input: &[u8], at: usize) -> Result<(usize, usize), NumberFault>
    ensures value { result ≡ entry_at input.now at }
    ensures inside { Inside input.now at result }
{
    let end = input.len();
    let (length, start) = number::read(input, at)?;
    let length = length as usize;
    if length <= end - start {
        Ok((start, start + length))
    } else {
        Err(NumberFault::Missing { end })
    }
}
