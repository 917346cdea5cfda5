// Why a session was not held.
ghost use Rattle.std.specs.Prelude.{◌≡◌, Some, codes};
ghost use Rattle.session.specs.Answers.{no_buffer};

use std::error::Error;
use std::fmt;

// The buffer does not hold every text that a session can have.
#[derive(Clone, Copy, PartialEq, Debug)]
pub struct NoBuffer;

impl NoBuffer {
    // The number of the refusal.
    pub fn question(&self) -> u8
        ensures { result ≡ no_buffer }
    {
        13
    }
}

// What is wrong, in words.
impl fmt::Display for NoBuffer {
    ghost output = { λ _. Some (codes "the buffer has fewer than 61440 bytes") };

    fn fmt<W: fmt::Write>(&self, f: &mut fmt::Formatter<W>) -> fmt::Result {
        f.write_str("the buffer has fewer than 61440 bytes")
    }
}

impl Error for NoBuffer {}
