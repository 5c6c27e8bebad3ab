//! The lines of refusals: what is refused, the number and the name of the refusal, and its fields.

ghost use Rattle.std.specs.Prelude.{◌≡◌, IfOk, codes};
ghost use Rattle.design_judge.specs.Refusals.{design_line as the_design_line, line_head as the_line_head, stimulus_line as the_stimulus_line};

use crate::DesignFault;
use crate::fields::{push_design_fields, push_stimulus_fields};
use crate::stimulus_fault::{stimulus_name, stimulus_number};
use std::alloc::Global;
use stim_text::StimFault;
use text_core::NoMemory;

/// The beginning of a line, up to the fields.
fn line_head(alloc: Global, what: &[u8], number: u8, name: &str) -> Result<Vec<u8>, NoMemory>
    ensures { IfOk result (λ head. head.items ≡ the_line_head what.now number name.now) }
{
    let digits = format!(in alloc; "{number}")?;
    let mut head = what.to_vec(alloc)?;
    head.extend_from_slice(b" fault ")?;
    head.extend_from_slice(digits.as_bytes())?;
    head.extend_from_slice(b" ")?;
    head.extend_from_slice(name.as_bytes())?;
    Ok(head)
}

/// The line of a source that is refused: `design fault`, the number and the name of the refusal, and its fields, apart by one
/// blank, and a line feed. Fails only where memory runs out; want of memory has no line.
pub fn design_line(alloc: Global, fault: &DesignFault) -> Result<Vec<u8>, NoMemory>
    ensures { IfOk result (λ line. line.items ≡ the_design_line fault.now) }
{
    let mut line = line_head(alloc, b"design", fault.number(), fault.name())?;
    push_design_fields(alloc, &mut line, fault)?;
    line.extend_from_slice(b"\n")?;
    Ok(line)
}

/// The line of a stimulus that is refused: `stimulus fault`, the number and the name of the refusal, and its fields, apart by one
/// blank, and a line feed. Fails only where memory runs out; want of memory has no line.
pub fn stimulus_line(alloc: Global, fault: StimFault) -> Result<Vec<u8>, NoMemory>
    ensures { IfOk result (λ line. line.items ≡ the_stimulus_line fault) }
{
    let mut line = line_head(
        alloc,
        b"stimulus",
        stimulus_number(fault),
        stimulus_name(fault),
    )?;
    push_stimulus_fields(alloc, &mut line, fault)?;
    line.extend_from_slice(b"\n")?;
    Ok(line)
}
