// Records that are tidied or joined: legibly, and as bytes.
ghost use Rattle.std.specs.Prelude.{◌≡◌, ◌++◌, ◌<◌, IfOk, string_bytes};
ghost use Rattle.record.specs.Reads.{read_record, clause_form};
ghost use Rattle.record.specs.Records.{literals};
ghost use Rattle.listing.specs.Reduced.{hex, hex_digit, both_forms, TidiedFrom, JoinTold, JoinedFrom};

use super::Listing;
use super::faults::layered_line;
use super::records::show_record;
use class::Kind;
use record::{Record, RecordFault};
use std::alloc::{AllocError, Global};

// How many bytes a packed record can have.
const FORM: usize = 1539;

// A record legibly, and on the next line its packed form in hexadecimal.
fn show_both(heap: Global, record: &Record) -> Result<String, AllocError>
    ensures { IfOk result (λ s. string_bytes s ≡ both_forms (literals record.now)) }
{
    let shown = show_record(heap, record)?;
    let mut text = format!(in heap; "{shown}\n")?;
    push_form(&mut text, record)?;
    text.push_str("\n")?;
    Ok(text)
}

// The record whose packed form the input is, tidied.
pub fn list_tidied(heap: Global, input: &[u8]) -> Result<Listing<RecordFault>, AllocError>
    ensures { IfOk result (λ l. TidiedFrom (read_record input.now) (string_bytes l.text) l.fault) }
{
    let mut record = Record::new();
    if let Err(fault) = record.read(input) {
        return Ok(Listing {
            text: layered_line(heap, &fault)?,
            fault: Some(fault),
        });
    }
    record.tidy();
    Ok(Listing {
        text: show_both(heap, &record)?,
        fault: None,
    })
}

// The join of two records, or that it is refused.
fn tell_join(heap: Global, first: &Record, second: &Record) -> Result<String, AllocError>
    ensures { IfOk result (λ s. JoinTold (literals first.now) (literals second.now) (string_bytes s)) }
{
    let mut joined = *first;
    match joined.join(second) {
        Ok(()) => show_both(heap, &joined),
        Err(_) => format!(in heap; "refused 11\n"),
    }
}

// The join of the records whose packed forms the inputs are.
pub fn list_joined(
    heap: Global,
    first: &[u8],
    second: &[u8],
) -> Result<Listing<RecordFault>, AllocError>
    ensures { IfOk result (λ l. JoinedFrom (read_record first.now) (read_record second.now) (string_bytes l.text) l.fault) }
{
    let mut one = Record::new();
    if let Err(fault) = one.read(first) {
        let line = layered_line(heap, &fault)?;
        return Ok(Listing {
            text: format!(in heap; "first: {line}")?,
            fault: Some(fault),
        });
    }
    let mut other = Record::new();
    if let Err(fault) = other.read(second) {
        let line = layered_line(heap, &fault)?;
        return Ok(Listing {
            text: format!(in heap; "second: {line}")?,
            fault: Some(fault),
        });
    }
    Ok(Listing {
        text: tell_join(heap, &one, &other)?,
        fault: None,
    })
}

// Puts the packed form of a record at the end of the text, in hexadecimal. It always has room.
fn push_form(text: &mut String, record: &Record) -> Result<(), AllocError>
    ensures { IfOk result (λ _. string_bytes text.new ≡ string_bytes text.old ++ hex (clause_form (literals record.now))) }
{
    let mut form = [0; FORM];
    match record.write(&mut form) {
        Ok(end) => push_hex(text, &form[..end]),
        Err(_) => Ok(()),
    }
}

// Puts bytes at the end of the text, in hexadecimal.
fn push_hex(text: &mut String, bytes: &[u8]) -> Result<(), AllocError>
    ensures { IfOk result (λ _. string_bytes text.new ≡ string_bytes text.old ++ hex bytes.now) }
{
    for byte in bytes {
        text.push(hex_digit(*byte / 16))?;
        text.push(hex_digit(*byte % 16))?;
    }
    Ok(())
}

// A number below 16 as a hexadecimal digit.
fn hex_digit(d: u8) -> char
    requires { d < 16 }
    ensures { result ≡ hex_digit d }
{
    char::from(if d < 10 { b'0' + d } else { b'a' + (d - 10) })
}
