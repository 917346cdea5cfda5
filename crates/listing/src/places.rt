// The listing of one place word: its legible form, or the fault.
ghost use Rattle.std.specs.Prelude.{◌≡◌, refl, IfOk, string_bytes};
ghost use Rattle.place.specs.Faults.{sentence};
ghost use Rattle.place.specs.Packing.{read_place};
ghost use Rattle.listing.specs.PlaceLines.{place_told, place_listed};

use super::Listing;
use super::faults::{Layered, Origin};
use super::words::show_place;
use place::{PlaceFault, PlaceWord};
use std::alloc::{AllocError, Global};

// Lists the place word whose packed form the input is. `list_record` is alike: what they share is in `Listing`, and a trait over
// both would be longer than what is left of each.
#[tactic(auto, using(crate::proofs::Made::told_refused), unfolding(crate::specs::PlaceLines::place_listed))]
pub fn list_place(heap: Global, input: &[u8]) -> Result<Listing<PlaceFault>, AllocError>
    ensures { IfOk result (λ l. (string_bytes l.text, l.fault) ≡ place_listed (read_place input.now)) }
{
    let mut place = PlaceWord::new();
    match place.read(input) {
        Ok(()) => Listing::whole(show_place(heap, &place)?),
        Err(fault) => Listing::refused(heap, fault),
    }
}

// As for `RecordFault`, but that no literal is ever in hand.
impl Layered for PlaceFault {
    ghost tells = { place_told };

    ghost says = { sentence };

    fn origin(&self) -> Origin {
        Origin {
            question: self.question(),
            byte: self.byte(),
            literal: None,
            layers: self.layers(),
        }
    }

    ghost shows = { λ fault. refl };
}
