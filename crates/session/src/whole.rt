// A session over a whole input.
ghost use Rattle.std.specs.Prelude.{◌≤◌, length};
ghost use Rattle.session.specs.Answers.{Answers, OneText, Fits, UnderLaw};
ghost use Rattle.session.specs.Goings.{Lined};

use super::NoBuffer;
use super::lines::Line;
use super::taking::Gatherer;
use entries::entry;

// How many bytes the buffer must have, and how many the input may have.
const BUFFER: usize = 61_440;

const INPUT: usize = 4_096;

// The question that an input of more bytes answers with no.
const TOO_LONG: u8 = 14;

// Takes the records of the entries of `input` into a class, puts a line for each entry and last the rule at the start of
// `out`, and answers how many bytes that are.
pub fn session(input: &[u8], out: &mut [u8]) -> Result<usize, NoBuffer>
    ensures answers { Answers input.now out.old result out.new }
    ensures one { OneText input.now }
    ensures fits { Fits input.now }
    ensures law { UnderLaw input.now }
{
    if out.len() < BUFFER {
        return Err(NoBuffer);
    }
    if input.len() > INPUT {
        let line = Line::Bad {
            question: TOO_LONG,
            byte: INPUT,
        };
        return Ok(line.put(out, 0));
    }
    let (gatherer, to) = put_lines(input, out);
    Ok(gatherer.put_rule(out, to))
}

// Puts a line for each entry at the start of `out`, and answers what is in hand at the end, and the place after the lines.
fn put_lines(input: &[u8], out: &mut [u8]) -> (Gatherer, usize)
    requires short { length input.now ≤ 4096 }
    requires room { 61440 ≤ length out.old }
    ensures { Lined input.now result.0.class out.old result.1 out.new }
{
    let mut gatherer = Gatherer::new();
    let mut to = 0;
    let mut at = 0;
    // no iterator: an entry tells the place after it, from which the loop goes on
    while at < input.len() {
        match entry(input, at) {
            Ok((start, end)) => {
                let line = gatherer.turn(&input[start..end], start);
                to = line.put(out, to);
                at = end;
            }
            Err(fault) => {
                let line = Line::Bad {
                    question: fault.question(),
                    byte: fault.byte(),
                };
                to = line.put(out, to);
                break;
            }
        }
    }
    (gatherer, to)
}
