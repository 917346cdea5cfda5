// Records in legible form, as {p1(X0), -q2(a3)}, and the listing of one.
ghost use Rattle.std.specs.Prelude.{◌≡◌, refl, IfOk, string_bytes};
ghost use Rattle.record.specs.Faults.{told, sentence};
ghost use Rattle.record.specs.Reads.{read_record};
ghost use Rattle.record.specs.Records.{literals};
ghost use Rattle.listing.specs.RecordLines.{record_listed};
ghost use Rattle.listing.specs.Shown.{shown_clause};

use super::Listing;
use super::faults::{Layered, Origin};
use super::words::{divider, show_word};
use record::{Record, RecordFault};
use std::alloc::{AllocError, Global};
use term::WordAt;

// Lists the record whose packed form the input is.
#[tactic(auto, using(crate::proofs::Made::told_refused), unfolding(crate::specs::RecordLines::record_listed))]
pub fn list_record(heap: Global, input: &[u8]) -> Result<Listing<RecordFault>, AllocError>
    ensures { IfOk result (λ l. (string_bytes l.text, l.fault) ≡ record_listed (read_record input.now)) }
{
    let mut record = Record::new();
    match record.read(input) {
        Ok(()) => Listing::whole(show_record(heap, &record)?),
        Err(fault) => Listing::refused(heap, fault),
    }
}

// A record in legible form: the words of `show_word`, and so no `Display`.
pub fn show_record(heap: Global, clause: &Record) -> Result<String, AllocError>
    ensures { IfOk result (λ s. string_bytes s ≡ shown_clause (literals clause.now)) }
{
    let nodes = clause.nodes();
    let starts = clause.starts();
    let mut text = String::new(heap);
    text.push_str("{")?;
    for (k, &start) in starts.iter().enumerate() {
        text.push_str(divider("", k))?;
        show_word(&mut text, WordAt { nodes, start })?;
    }
    text.push_str("}")?;
    Ok(text)
}

impl Layered for RecordFault {
    ghost tells = { told };

    ghost says = { sentence };

    fn origin(&self) -> Origin {
        Origin {
            question: self.question(),
            byte: self.byte(),
            literal: self.literal(),
            layers: self.layers(),
        }
    }

    ghost shows = { λ fault. refl };
}
