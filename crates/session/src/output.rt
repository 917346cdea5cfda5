// Texts that go into a lent buffer, one after the other.
ghost use Rattle.std.specs.Prelude.{◌≡◌, ◌+◌, ◌*◌, ◌<◌, ◌≤◌, length, decimal, Ok};
ghost use Rattle.number.specs.Writes.{Wrote};
ghost use Rattle.listing.specs.Reduced.{hex, hex_digit};

// Puts a text at `at`, and answers the place after it.
pub fn put(out: &mut [u8], at: usize, text: &[u8]) -> usize
    requires { at + length text.now ≤ length out.old }
    ensures { Wrote text.now at out.old (Ok result) out.new }
{
    let to = at + text.len();
    out[at..to].copy_from_slice(text);
    to
}

// Puts a number in decimal.
pub fn put_number(out: &mut [u8], at: usize, number: usize) -> usize
    requires { at + length (decimal number) ≤ length out.old }
    ensures { Wrote (decimal number) at out.old (Ok result) out.new }
{
    let last = [b'0' + (number % 10) as u8];
    if number < 10 {
        return put(out, at, &last);
    }
    let to = put_number(out, at, number / 10);
    put(out, to, &last)
}

// Puts bytes in hexadecimal.
pub fn put_hex(out: &mut [u8], at: usize, bytes: &[u8]) -> usize
    requires { at + 2 * length bytes.now ≤ length out.old }
    ensures { Wrote (hex bytes.now) at out.old (Ok result) out.new }
{
    let mut to = at;
    for byte in bytes {
        to = put(out, to, &[hex_digit(*byte / 16), hex_digit(*byte % 16)]);
    }
    to
}

// A number below 16 as a hexadecimal digit.
fn hex_digit(d: u8) -> u8
    requires { d < 16 }
    ensures { result ≡ hex_digit d }
{
    if d < 10 { b'0' + d } else { b'a' + (d - 10) }
}
