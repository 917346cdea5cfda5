// Marks of literals: the same literal has the same mark, so most of those that differ need not be compared.
ghost use Rattle.std.specs.Prelude.{◌≡◌, ◌<◌};
ghost use Rattle.record.specs.Marks.{mark_of};

// How many bytes of a packed form its mark is made of: enough to tell most literals apart, and few, so that a long one costs little.
const FRONT: usize = 32;

// The mark of a literal by the front of its packed form.
pub(super) fn mark_of(form: &[u8]) -> usize
    ensures value { result ≡ mark_of form.now }
    ensures bound { result < 256 }
{
    let front = &form[..FRONT.min(form.len())];
    let mut mixed = 0;
    for byte in front {
        mixed = (mixed + *byte as usize) * 40503 % 65536;
    }
    mixed / 256
}
