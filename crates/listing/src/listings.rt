// The listing of one thing: its legible form, or the line of its fault.
ghost use Rattle.std.specs.Prelude.{◌≡◌, ◌++◌, IfOk, Some, None, codes, string_bytes};
ghost use Rattle.listing.specs.FaultLines.{layered_line};

use super::faults::{Layered, layered_line};
use std::alloc::{AllocError, Global};

// A text, and the fault that ended it, if one did.
#[derive(Drop)]
pub struct Listing<F> {
    pub text: String,
    pub fault: Option<F>,
}

// What `list_place` and `list_record` share.
impl<F: Layered> Listing<F> {
    // Of a thing that was read and is shown so. The text is taken over, so that it is not copied.
    pub(super) fn whole(mut shown: String) -> Result<Listing<F>, AllocError>
        ensures text { IfOk result (λ l. string_bytes l.text ≡ string_bytes shown ++ codes "\n") }
        ensures fault { IfOk result (λ l. l.fault ≡ None) }
    {
        shown.push_str("\n")?;
        Ok(Listing {
            text: shown,
            fault: None,
        })
    }

    // Of an input that holds no such thing.
    pub(super) fn refused(heap: Global, fault: F) -> Result<Listing<F>, AllocError>
        ensures text { IfOk result (λ l. string_bytes l.text ≡ layered_line (F.tells fault) (F.says fault)) }
        ensures fault { IfOk result (λ l. l.fault ≡ Some fault) }
    {
        Ok(Listing {
            text: layered_line(heap, &fault)?,
            fault: Some(fault),
        })
    }
}
