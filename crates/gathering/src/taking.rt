// One entry after the other: what its bytes lead to, and the rule at the end.
ghost use Rattle.std.specs.Prelude.{◌≡◌, ◌+◌, ◌<◌, List, [], ◌∷◌, length, IfOk, Some, None, string_bytes};
ghost use Rattle.place.specs.Packing.{read_place};
ghost use Rattle.place.specs.Places.{meaning};
ghost use Rattle.term.specs.Words.{Word};
ghost use Rattle.gathering.specs.Lines.{taken_line};
ghost use Rattle.gathering.specs.Gathered.{one_entry, Ruled};
ghost use Rattle.gathering.specs.States.{Gathers, Goes};

use super::lines::bad_line;
use class::Class;
use place::PlaceWord;
use std::alloc::{AllocError, Global};

// What is in hand between two entries: the class, once a place word was taken.
#[derive(Drop)]
pub struct Gatherer {
    heap: Global,
    class: Option<Class<PlaceWord>>,
}

impl Gatherer {
    pub fn new(heap: Global) -> Gatherer
        ensures { result.class ≡ None }
    {
        Gatherer { heap, class: None }
    }

    // Does the entry whose bytes begin at `start`, and answers its line.
    pub fn turn(&mut self, bytes: &[u8], start: usize) -> Result<String, AllocError>
        requires { start + length bytes.now < 18446744073709551616 }
        ensures { IfOk result (λ s. Goes self.old.class (λ ms. one_entry start ms (read_place bytes.now)) self.new.class (string_bytes s)) }
    {
        let mut place = PlaceWord::new();
        match place.read(bytes) {
            Ok(()) => self.take(place),
            Err(fault) => bad_line(self.heap, fault.question(), start + fault.byte()),
        }
    }

    // Takes a place word into the class, or begins one with it.
    fn take(&mut self, place: PlaceWord) -> Result<String, AllocError>
        ensures { IfOk result (λ s. Goes self.old.class (λ ms. (taken_line ms, meaning place ∷ ms)) self.new.class (string_bytes s)) }
    {
        match &mut self.class {
            None => {
                self.class = Some(Class::begin(place));
                format!(in self.heap; "begun\n")
            }
            Some(class) => admit(self.heap, class, &place),
        }
    }

    // The last line: the rule of the class, if there is one.
    pub fn rule_line(self) -> Result<String, AllocError>
        ensures { IfOk result (λ s. (ms : List Word) → Gathers ms self.class → Ruled ([], ms) (string_bytes s)) }
    {
        match self.class {
            None => format!(in self.heap; "no rule\n"),
            Some(class) => {
                let issued = class.issue();
                let rule = listing::show_place(self.heap, issued.rule())?;
                format!(in self.heap; "rule {rule}\n")
            }
        }
    }
}

// Takes one place word more into a class.
fn admit(
    heap: Global,
    class: &mut Class<PlaceWord>,
    place: &PlaceWord,
) -> Result<String, AllocError>
    ensures { IfOk result (λ s. Goes (Some class.old) (λ ms. (taken_line ms, meaning place.now ∷ ms)) (Some class.new) (string_bytes s)) }
{
    match class.admit(place) {
        Ok(()) => format!(in heap; "taken\n"),
        Err(refusal) => format!(in heap; "refused {}\n", refusal.number),
    }
}
