// One entry after the other: what its record leads to, and the rule at the end.
ghost use Rattle.std.specs.Prelude.{◌≡◌, ◌+◌, ◌*◌, ◌<◌, ◌≤◌, length, Some, None, Ok};
ghost use Rattle.number.specs.Writes.{Wrote};
ghost use Rattle.listing.specs.Reduced.{hex};
ghost use Rattle.record.specs.Reads.{read_record, clause_form};
ghost use Rattle.record.specs.Records.{literals};
ghost use Rattle.session.specs.Goings.{Goes};
ghost use Rattle.session.specs.Lines.{rule_line};
ghost use Rattle.session.specs.Sessions.{Takes, Turn};

use super::lines::Line;
use super::output::{put, put_hex};
use class::Class;
use record::Record;

// How many bytes a packed record can have.
const FORM: usize = 1539;

// What is in hand between two entries: the class, once a record was taken.
#[derive(Drop)]
pub struct Gatherer {
    class: Option<Class<Record>>,
}

impl Gatherer {
    pub fn new() -> Gatherer
        ensures { result.class ≡ None }
    {
        Gatherer { class: None }
    }

    // Does the entry whose bytes begin at `start`, and answers its line.
    pub fn turn(&mut self, bytes: &[u8], start: usize) -> Line
        requires { start + length bytes.now < 18446744073709551616 }
        ensures { Goes self.old.class (λ l m. Turn start (read_record bytes.now) l result m) self.new.class }
    {
        let mut record = Record::new();
        match record.read(bytes) {
            Ok(()) => self.take(record),
            Err(fault) => Line::Bad {
                question: fault.question(),
                byte: start + fault.byte(),
            },
        }
    }

    // Takes a record into the class, or begins one with it.
    fn take(&mut self, record: Record) -> Line
        ensures { Goes self.old.class (λ l m. Takes l «record» result m) self.new.class }
    {
        match &mut self.class {
            None => {
                self.class = Some(generaliser::begin(record));
                Line::Begun
            }
            Some(class) => admit(class, &record),
        }
    }

    // Puts the last line: the rule of the class, if there is one.
    pub fn put_rule(self, out: &mut [u8], at: usize) -> usize
        requires { at + length (rule_line self.class) ≤ length out.old }
        ensures { Wrote (rule_line self.class) at out.old (Ok result) out.new }
    {
        match self.class {
            None => put(out, at, b"no rule\n"),
            Some(class) => {
                let issued = class.issue();
                let to = put(out, at, b"rule ");
                let to = put_form(out, to, issued.rule());
                put(out, to, b"\n")
            }
        }
    }
}

// Takes one record more into a class, or is refused.
fn admit(class: &mut Class<Record>, record: &Record) -> Line
    ensures { Goes (Some class.old) (λ l m. Takes l «record».now result m) (Some class.new) }
{
    match class.admit(record) {
        Ok(()) => Line::Taken,
        Err(refusal) => Line::Refused {
            number: refusal.number,
        },
    }
}

// Puts the packed form of a record, in hexadecimal.
fn put_form(out: &mut [u8], at: usize, record: &Record) -> usize
    requires { at + 2 * length (clause_form (literals «record».now)) ≤ length out.old }
    ensures { Wrote (hex (clause_form (literals «record».now))) at out.old (Ok result) out.new }
{
    let mut form = [0; FORM];
    match record.write(&mut form) {
        Ok(end) => put_hex(out, at, &form[..end]),
        Err(_) => at,
    }
}
