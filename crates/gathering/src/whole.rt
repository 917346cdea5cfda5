// The gathering of a whole input.
ghost use Rattle.std.specs.Prelude.{IfOk, string_bytes};
ghost use Rattle.gathering.specs.Gathered.{gathered, Ruled};

use super::lines::bad_line;
use super::taking::Gatherer;
use entries::entry;
use std::alloc::{AllocError, Global};

// Gathers the place words of the entries of `input`: a line for each entry, and last the rule.
pub fn gather(heap: Global, input: &[u8]) -> Result<String, AllocError>
    ensures { IfOk result (λ s. Ruled (gathered input.now) (string_bytes s)) }
{
    let mut text = String::new(heap);
    let mut gatherer = Gatherer::new(heap);
    let mut at = 0;
    // no iterator: an entry tells the place after it, from which the loop goes on
    while at < input.len() {
        match entry(input, at) {
            Ok((start, end)) => {
                text.push_str(&gatherer.turn(&input[start..end], start)?)?;
                at = end;
            }
            Err(fault) => {
                text.push_str(&bad_line(heap, fault.question(), fault.byte())?)?;
                break;
            }
        }
    }
    text.push_str(&gatherer.rule_line()?)?;
    Ok(text)
}
