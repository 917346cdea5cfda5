// The line of a fault that has layers.
ghost use Rattle.std.specs.Prelude.{◌≡◌, ℕ, ◌++◌, List, Some, Option, IfOk, string_bytes};
ghost use Rattle.word.specs.declared.fault.Layer.{Layer as AnyLayer};
ghost use Rattle.listing.specs.FaultLines.{layer_names, literal_part, layered_line};

use super::words::divider;
use std::alloc::{AllocError, Global};
use std::fmt::Display;
use word::Layer;

// Where a fault arose: its question, its byte, the literal in hand, and what was being read.
#[derive(Clone, Copy)]
pub(super) struct Origin {
    pub question: u8,
    pub byte: usize,
    pub literal: Option<usize>,
    pub layers: &'static [Layer],
}

// A fault that has layers, and prints what is wrong.
pub(super) trait Layered: Display + Drop {
    // Its question, its byte, the literal in hand, and its layers.
    ghost tells: { Self → ℕ × ℕ × Option ℕ × List AnyLayer };

    // What is wrong, in words.
    ghost says: { Self → List ℕ };

    fn origin(&self) -> Origin
        ensures { (result.question, result.byte, result.literal, result.layers.now) ≡ tells self.now };

    // That is what it prints.
    ghost shows: { (fault : Self) → Self.output fault ≡ Some (says fault) };
}

// The line of a fault: its question, its byte, the literal in hand, its layers, and what is wrong.
#[tactic(auto, unfolding(crate::specs::FaultLines::layered_line))]
pub(super) fn layered_line<F: Layered>(heap: Global, fault: &F) -> Result<String, AllocError>
    ensures { IfOk result (λ s. string_bytes s ≡ layered_line (F.tells fault.now) (F.says fault.now)) }
{
    let origin = fault.origin();
    let question = origin.question;
    let byte = origin.byte;
    let mut text = format!(in heap; "fault {question} at byte {byte}")?;
    push_literal(&mut text, origin.literal)?;
    text.push_str(" in ")?;
    push_layers(&mut text, origin.layers)?;
    write!(text, ": {fault}\n")?;
    Ok(text)
}

// Puts the literal in hand, if there is one, at the end of the text.
fn push_literal(text: &mut String, literal: Option<usize>) -> Result<(), AllocError>
    ensures { IfOk result (λ _. string_bytes text.new ≡ string_bytes text.old ++ literal_part literal) }
{
    match literal {
        None => Ok(()),
        Some(k) => write!(text, " of literal {k}"),
    }
}

// Puts the layers of a fault, from where it arose upward, at the end of the text.
fn push_layers(text: &mut String, layers: &[Layer]) -> Result<(), AllocError>
    ensures { IfOk result (λ _. string_bytes text.new ≡ string_bytes text.old ++ layer_names layers.now) }
{
    for (k, layer) in layers.iter().enumerate() {
        text.push_str(divider("", k))?;
        write!(text, "{layer}")?;
    }
    Ok(())
}
