// Why a rule covers a mount, in words: which word meets each variable, and which literal each literal becomes.
ghost use Rattle.std.specs.Prelude.{◌≡◌, ◌<◌, ◌++◌, length, All, IfOk, string_bytes};
ghost use Rattle.record.specs.Reads.{read_record};
ghost use Rattle.record.specs.Records.{literals, clause};
ghost use Rattle.subsume.specs.FirstChoices.{Chooses};
ghost use Rattle.term.specs.Words.{sizes};
ghost use Rattle.witness.specs.Witness.{Witness};
ghost use Rattle.listing.specs.Explained.{lines, variable_line, literal_line, Told, Explained, ExplainedFrom};

use super::Listing;
use super::faults::layered_line;
use super::records::show_record;
use super::words::show_word;
use record::{Record, RecordFault};
use std::alloc::{AllocError, Global};
use term::WordAt;
use witness::{first_choice, witness};

// A line for each variable of the rule: the word of the mount that meets it, and the node where that word begins.
fn push_variables(text: &mut String, mount: &Record, list: &[u16]) -> Result<(), AllocError>
    requires { All (λ q. q < sizes (literals mount.now)) list.now }
    ensures { IfOk result (λ _. string_bytes text.new ≡ string_bytes text.old ++ lines (variable_line (literals mount.now) list.now) (length list.now)) }
{
    let nodes = mount.nodes();
    for (x, node) in list.iter().enumerate() {
        let start = *node as usize;
        write!(text, "X{x} is ")?;
        show_word(text, WordAt { nodes, start })?;
        write!(text, " at node {start}\n")?;
    }
    Ok(())
}

// A line for each literal of the rule: the literal of the mount that it becomes.
fn push_literals(
    text: &mut String,
    rule: &Record,
    mount: &Record,
    choice: &[u16],
) -> Result<(), AllocError>
    requires { Chooses (clause rule.now) (clause mount.now) choice.now }
    ensures { IfOk result (λ _. string_bytes text.new ≡ string_bytes text.old ++ lines (literal_line (literals rule.now) (literals mount.now) choice.now) (length choice.now)) }
{
    let literals = rule.view();
    let targets = mount.view();
    for (i, j) in choice.iter().enumerate() {
        show_word(text, literals.literal(i))?;
        text.push_str(" becomes ")?;
        show_word(text, targets.literal(*j as usize))?;
        text.push_str("\n")?;
    }
    Ok(())
}

// Why the rule covers the mount, where this list is a witness.
fn tell_why(heap: Global, rule: &Record, mount: &Record, list: &[u16]) -> Result<String, AllocError>
    requires { Witness (literals rule.now) (literals mount.now) list.now }
    ensures { IfOk result (λ s. Told (literals rule.now) (literals mount.now) (string_bytes s)) }
{
    let Some(choice) = first_choice(rule, mount) else {
        return format!(in heap; "not covered\n");
    };
    let mut text = format!(in heap; "covered\n")?;
    push_variables(&mut text, mount, list)?;
    push_literals(&mut text, rule, mount, choice.as_slice())?;
    Ok(text)
}

// Whether the rule covers the mount, and why. A record has at most 256 variables, so the list is never too short.
fn tell(heap: Global, rule: &Record, mount: &Record) -> Result<String, AllocError>
    ensures { IfOk result (λ s. Told (literals rule.now) (literals mount.now) (string_bytes s)) }
{
    let mut list = [0; 256];
    match witness(rule, mount, &mut list) {
        Ok(Some(count)) => tell_why(heap, rule, mount, &list[..count]),
        Ok(None) => format!(in heap; "not covered\n"),
        Err(_) => format!(in heap; "not covered\n"),
    }
}

// Both, and why the rule covers the mount.
pub fn explain(heap: Global, rule: &Record, mount: &Record) -> Result<String, AllocError>
    ensures { IfOk result (λ s. Explained (literals rule.now) (literals mount.now) (string_bytes s)) }
{
    let rule_text = show_record(heap, rule)?;
    let mount_text = show_record(heap, mount)?;
    let told = tell(heap, rule, mount)?;
    format!(in heap; "rule {rule_text}\nmount {mount_text}\n{told}")
}

// The same of two records whose packed forms the inputs are.
pub fn list_covering(
    heap: Global,
    rule: &[u8],
    mount: &[u8],
) -> Result<Listing<RecordFault>, AllocError>
    ensures { IfOk result (λ l. ExplainedFrom (read_record rule.now) (read_record mount.now) (string_bytes l.text) l.fault) }
{
    let mut first = Record::new();
    if let Err(fault) = first.read(rule) {
        let line = layered_line(heap, &fault)?;
        return Ok(Listing {
            text: format!(in heap; "rule: {line}")?,
            fault: Some(fault),
        });
    }
    let mut second = Record::new();
    if let Err(fault) = second.read(mount) {
        let line = layered_line(heap, &fault)?;
        return Ok(Listing {
            text: format!(in heap; "mount: {line}")?,
            fault: Some(fault),
        });
    }
    Ok(Listing {
        text: explain(heap, &first, &second)?,
        fault: None,
    })
}
