// The packed form of records.
ghost use Rattle.std.specs.Prelude.{◌≡◌, ◌<◌, ◌≤◌, IfOk, Ok};
ghost use Rattle.number.specs.Writes.{Wrote};
ghost use Rattle.term.specs.Words.{nil, len};
ghost use Rattle.record.specs.Clauses.{variables};
ghost use Rattle.record.specs.Marks.{Marked};
ghost use Rattle.record.specs.Records.{literals};
ghost use Rattle.record.specs.Reads.{read_literal, Adds, read_literals, Builds, read_record, clause_form, Reads, Exactly};

use super::super::fault::{LiteralFault, RecordFault};
use super::super::literal::add_literal;
use super::Record;
use number::NoRoom;

// How many literals a record may have.
const LITERALS: u16 = 16;

impl Record {
    // Becomes the record whose packed form the input is. After a fault it stays as it was.
    pub fn read(&mut self, input: &[u8]) -> Result<(), RecordFault>
        ensures value { Reads (read_record input.now) self.old result self.new }
        ensures exact { Exactly input.now result self.new }
    {
        let (count, next) = number::read(input, 0)?;
        if count > LITERALS {
            return Err(RecordFault::Literals { first: 0 });
        }
        let mut record = Record::new();
        let end = read_literals(&mut record, input, next, count as usize)?;
        if end < input.len() {
            return Err(RecordFault::Left { first: end });
        }
        *self = record;
        Ok(())
    }

    // Writes its packed form at the start of `out`, and answers the form's length.
    pub fn write(&self, out: &mut [u8]) -> Result<usize, NoRoom>
        ensures wrote { Wrote (clause_form (literals self.now)) 0 out.old result out.new }
        ensures back { read_record (clause_form (literals self.now)) ≡ Ok (literals self.now) }
    {
        let count = self.starts.len() as u16;
        let end = word::write_nodes(out, number::form_length(count), self.nodes.as_slice())?;
        let _ = number::write(out, 0, count);
        Ok(end)
    }

    // Reads the literal that begins at `at` and puts it last; `seen` variables have stood before, and the marks of its
    // literals are set. Answers the place after it and the new `seen`; after a fault its literals are as they were.
    fn read_literal(
        &mut self,
        marks: &mut [bool; 256],
        input: &[u8],
        at: usize,
        seen: u16,
    ) -> Result<(usize, u16), LiteralFault>
        requires room { len (literals self.old) < 16 }
        requires counted { seen ≡ variables (literals self.old) }
        requires marked { Marked (literals self.old) marks.old }
        ensures value { Adds (read_literal (literals self.old) input.now at) (literals self.old) result (literals self.new) }
        ensures marked { IfOk result (λ _. Marked (literals self.new) marks.new) }
    {
        let start = self.nodes.len();
        let starts = self.starts.as_slice();
        let answer = add_literal(&mut self.nodes, starts, marks, input, at, seen);
        if answer.is_ok() {
            let _ = self.starts.push(start);
        } else {
            self.nodes.truncate(start);
        }
        answer
    }
}

// Reads `count` literals that begin at `at` into a record that has none, and answers the place after the last. The record is
// lent, since it is large.
fn read_literals(
    out: &mut Record,
    input: &[u8],
    mut at: usize,
    count: usize,
) -> Result<usize, RecordFault>
    requires none { literals out.old ≡ nil }
    requires few { count ≤ 16 }
    ensures { Builds (read_literals count nil input.now at) result out.new }
{
    let mut marks = [false; 256];
    let mut seen = 0;
    for k in 0..count {
        let (next, stood) = out
            .read_literal(&mut marks, input, at, seen)
            .map_err(|fault| fault.in_literal(k))?;
        at = next;
        seen = stood;
    }
    Ok(at)
}
