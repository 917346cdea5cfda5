// The fault of a read as numbers.
ghost use Rattle.record.specs.Reads.{read_record};
ghost use Rattle.cehmoli.specs.Faults.{Tells, ReadAnswer};

use super::inputs::read;
use record::RecordFault;
use word::Layer;

// The question that was answered with no, 0 if none was; the byte; the literal in hand, if there is one; and what was
// being read.
#[repr(C)]
#[derive(Clone, Copy, PartialEq, Debug)]
pub struct Fault {
    pub question: u8,
    pub byte: usize,
    pub has_literal: bool,
    pub literal: usize,
    pub in_number: bool,
    pub in_word: bool,
    pub in_literal: bool,
    pub in_record: bool,
}

// What a fault tells.
fn tell(fault: &RecordFault) -> Fault
    ensures { Tells fault.now result }
{
    let layers = fault.layers();
    let literal = fault.literal();
    Fault {
        question: fault.question(),
        byte: fault.byte(),
        has_literal: literal.is_some(),
        literal: literal.unwrap_or(0),
        in_number: layers.contains(&Layer::Number),
        in_word: layers.contains(&Layer::Word),
        in_literal: layers.contains(&Layer::Literal),
        in_record: layers.contains(&Layer::Record),
    }
}

// Whether the input is the packed form of a record, and if not, why.
#[unsafe(no_mangle)]
pub extern "C" fn cehmoli_read(input: &[u8]) -> Fault
    ensures { ReadAnswer (read_record input.now) result }
{
    match read(input) {
        Ok(_) => Fault {
            question: 0,
            byte: 0,
            has_literal: false,
            literal: 0,
            in_number: false,
            in_word: false,
            in_literal: false,
            in_record: false,
        },
        Err(fault) => tell(&fault),
    }
}
