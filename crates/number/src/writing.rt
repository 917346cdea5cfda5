// Writes a packed number into a lent buffer.
ghost use Rattle.std.specs.Prelude.{◌≡◌, IfOk, Ok};
ghost use Rattle.number.specs.Forms.{form, OneForm};
ghost use Rattle.number.specs.Reads.{read_number};
ghost use Rattle.number.specs.Writes.{Wrote};

use super::{NoRoom, form_length};

// Writes the form of `value` at `at`, and answers the place after it.
pub fn write(out: &mut [u8], at: usize, value: u16) -> Result<usize, NoRoom>
    ensures wrote { Wrote (form value) at out.old result out.new }
    ensures back { IfOk result (λ to. read_number out.new at ≡ Ok (value, to)) }
    ensures one { OneForm }
{
    let length = form_length(value);
    if out.len().saturating_sub(at) < length {
        return Err(NoRoom);
    }
    let last = at + length - 1;
    let mut rest = value;
    for byte in &mut out[at..last] {
        *byte = 128 + (rest % 128) as u8;
        rest /= 128;
    }
    out[last] = rest as u8;
    Ok(last + 1)
}
