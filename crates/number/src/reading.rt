// Reads a packed number: one function, and one pattern, for each group.
ghost use Rattle.std.specs.Prelude.{◌≡◌, ◌+◌, ◌≤◌, length, IfOk};
ghost use Rattle.std.specs.List.{between};
ghost use Rattle.number.specs.Forms.{form};
ghost use Rattle.number.specs.Reads.{read_number, first, second, third, Exactly};

use super::NumberFault;

// The number that begins at `at`: its value, and the place after it. The readers above do the same, and
// no struct holds input and place: a caller goes on from the place that was answered, and a fault tells its byte in the whole
// input.
pub fn read(input: &[u8], at: usize) -> Result<(u16, usize), NumberFault>
    ensures value { result ≡ read_number input.now at }
    ensures exact { Exactly input.now at result }
    ensures again { IfOk result (λ p. between at p.1 input.now ≡ form p.0) }
{
    let end = input.len();
    if at > end {
        return Err(NumberFault::Missing { end });
    }
    read_first(&input[at..], at, end)
}

// Begins a number that stands at `at` of an input that ends at `end`.
fn read_first(input: &[u8], at: usize, end: usize) -> Result<(u16, usize), NumberFault>
    requires { at + length input.now ≤ end }
    ensures { result ≡ first input.now at end }
{
    match input {
        [] => Err(NumberFault::Missing { end }),
        [low, ..] if *low < 128 => Ok((*low as u16, at + 1)),
        [low, rest @ ..] => read_second(*low, rest, at, end),
    }
}

// Goes on after `low`, the first byte of a number of several.
fn read_second(low: u8, input: &[u8], at: usize, end: usize) -> Result<(u16, usize), NumberFault>
    requires { at + 1 + length input.now ≤ end }
    ensures { result ≡ second low input.now at end }
{
    match input {
        [] => Err(NumberFault::Missing { end }),
        [0, ..] => Err(NumberFault::Padded { first: at }),
        [middle, ..] if *middle < 128 => Ok((low as u16 % 128 + 128 * *middle as u16, at + 2)),
        [middle, rest @ ..] => read_third(low, *middle, rest, at, end),
    }
}

// Goes on after `low` and `middle`, the first two bytes of a number of three.
fn read_third(
    low: u8,
    middle: u8,
    input: &[u8],
    at: usize,
    end: usize,
) -> Result<(u16, usize), NumberFault>
    requires { at + 2 + length input.now ≤ end }
    ensures { result ≡ third low middle input.now at end }
{
    match input {
        [] => Err(NumberFault::Missing { end }),
        [0, ..] => Err(NumberFault::Padded { first: at }),
        [high @ 1..=3, ..] => Ok((
            low as u16 % 128 + 128 * (middle as u16 % 128) + 16384 * *high as u16,
            at + 3,
        )),
        [_, ..] => Err(NumberFault::TooLarge { first: at }),
    }
}
