// The listing of packed numbers: a line for each, then the count of them or the fault.
ghost use Rattle.std.specs.Prelude.{◌≡◌, IfOk, string_bytes};
ghost use Rattle.listing.specs.Lines.{number_line, count_line, fault_line};
ghost use Rattle.listing.specs.Listed.{listed, Faithful};

use super::Listing;
use number::NumberFault;
use std::alloc::{AllocError, Global};

// Lists the packed numbers of `input` up to its end or the first fault.
pub fn list_numbers(heap: Global, input: &[u8]) -> Result<Listing<NumberFault>, AllocError>
    ensures value { IfOk result (λ l. (string_bytes l.text, l.fault) ≡ listed input.now) }
    ensures faithful { IfOk result (λ l. Faithful input.now (string_bytes l.text, l.fault)) }
{
    let mut text = String::new(heap);
    let mut at = 0;
    let mut count: usize = 0;
    // no iterator: the reader answers the place after what it read, from which the loop goes on
    while at < input.len() {
        match number::read(input, at) {
            Ok((value, next)) => {
                text.push_str(&number_line(heap, at, value)?)?;
                at = next;
                count += 1;
            }
            Err(fault) => {
                text.push_str(&fault_line(heap, &fault)?)?;
                return Ok(Listing {
                    text,
                    fault: Some(fault),
                });
            }
        }
    }
    text.push_str(&count_line(heap, count)?)?;
    Ok(Listing { text, fault: None })
}

// The line of a number: its place and its value.
#[tactic(auto, unfolding(crate::specs::Lines::number_line))]
fn number_line(heap: Global, at: usize, value: u16) -> Result<String, AllocError>
    ensures { IfOk result (λ s. string_bytes s ≡ number_line at value) }
{
    format!(in heap; "at {at}: {value}\n")
}

// The last line, where all was read.
#[tactic(auto, unfolding(crate::specs::Lines::count_line))]
fn count_line(heap: Global, count: usize) -> Result<String, AllocError>
    ensures { IfOk result (λ s. string_bytes s ≡ count_line count) }
{
    format!(in heap; "numbers read: {count}\n")
}

// The last line, where a fault was met.
#[tactic(auto, unfolding(crate::specs::Lines::fault_line))]
fn fault_line(heap: Global, fault: &NumberFault) -> Result<String, AllocError>
    ensures { IfOk result (λ s. string_bytes s ≡ fault_line fault.now) }
{
    let question = fault.question();
    let byte = fault.byte();
    format!(in heap; "fault {question} at byte {byte}: {fault}\n")
}
