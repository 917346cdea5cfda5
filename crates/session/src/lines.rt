// The lines of a session.
ghost use Rattle.std.specs.Prelude.{◌+◌, ◌≤◌, length, Ok};
ghost use Rattle.number.specs.Writes.{Wrote};
ghost use Rattle.entries.specs.Lines.{bad_line};
ghost use Rattle.session.specs.Lines.{line_text, refused_line};

use super::output::{put, put_number};

// What became of an entry.
#[derive(Clone, Copy, PartialEq, Debug)]
pub enum Line {
    // Its record began the class.
    Begun,
    // The class admitted it.
    Taken,
    // The class refused it, with this number.
    Refused { number: u8 },
    // It could not be read: the question that was answered with no, and a byte.
    Bad { question: u8, byte: usize },
}

impl Line {
    // Puts the line at `at`, and answers the place after it.
    pub fn put(&self, out: &mut [u8], at: usize) -> usize
        requires { at + length (line_text self.now) ≤ length out.old }
        ensures { Wrote (line_text self.now) at out.old (Ok result) out.new }
    {
        match self {
            Line::Begun => put(out, at, b"begun\n"),
            Line::Taken => put(out, at, b"taken\n"),
            Line::Refused { number } => put_refused(out, at, *number),
            Line::Bad { question, byte } => put_bad(out, at, *question, *byte),
        }
    }
}

fn put_refused(out: &mut [u8], at: usize, number: u8) -> usize
    requires { at + length (refused_line number) ≤ length out.old }
    ensures { Wrote (refused_line number) at out.old (Ok result) out.new }
{
    let to = put(out, at, b"refused ");
    let to = put_number(out, to, number as usize);
    put(out, to, b"\n")
}

fn put_bad(out: &mut [u8], at: usize, question: u8, byte: usize) -> usize
    requires { at + length (bad_line question byte) ≤ length out.old }
    ensures { Wrote (bad_line question byte) at out.old (Ok result) out.new }
{
    let to = put(out, at, b"bad ");
    let to = put_number(out, to, question as usize);
    let to = put(out, to, b" at ");
    let to = put_number(out, to, byte);
    put(out, to, b"\n")
}
