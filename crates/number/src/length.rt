// How many bytes a number's form has.
ghost use Rattle.std.specs.Prelude.{◌≡◌};
ghost use Rattle.number.specs.Groups.{groups, Ruled, Fewest};

// The groups of a number, by its count of significant bits.
const GROUPS: [u8; 17] = [1, 1, 1, 1, 1, 1, 1, 1, 2, 2, 2, 2, 2, 2, 2, 3, 3];

pub fn form_length(value: u16) -> usize
    ensures table { result ≡ groups value }
    ensures rule { Ruled }
    ensures fewest { Fewest value result }
{
    let bits = 16 - value.leading_zeros();
    GROUPS[bits as usize] as usize
}
