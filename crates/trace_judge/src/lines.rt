//! The lines of refusals: what is refused, the number and the name of the refusal, and its fields.

ghost use Rattle.std.specs.Prelude.{◌≡◌, IfOk};
ghost use Rattle.trace_judge.specs.Refusals.{line_head as the_line_head, table_line as the_table_line, trace_line as the_trace_line};

use crate::TraceFault;
use crate::fields::{push_table_fields, push_trace_fields};
use crate::refusals::{table_name, table_number};
use std::alloc::Global;
use symtab_json::TableFault;
use text_core::NoMemory;

/// The beginning of a line, up to the fields.
fn line_head(alloc: Global, what: &str, number: u8, name: &str) -> Result<Vec<u8>, NoMemory>
    ensures { IfOk result (λ head. head.items ≡ the_line_head what.now number name.now) }
{
    let digits = format!(in alloc; "{number}")?;
    let mut head = what.as_bytes().to_vec(alloc)?;
    head.extend_from_slice(b" fault ")?;
    head.extend_from_slice(digits.as_bytes())?;
    head.extend_from_slice(b" ")?;
    head.extend_from_slice(name.as_bytes())?;
    Ok(head)
}

/// The line of a symbol file that is refused: `table fault`, the number and the name of the refusal, and its fields, apart by one
/// blank, and a line feed. Fails only where memory runs out; want of memory has no line.
pub fn table_line(alloc: Global, fault: TableFault) -> Result<Vec<u8>, NoMemory>
    ensures { IfOk result (λ line. line.items ≡ the_table_line fault) }
{
    let mut line = line_head(alloc, "table", table_number(fault), table_name(fault))?;
    push_table_fields(alloc, &mut line, fault)?;
    line.extend_from_slice(b"\n")?;
    Ok(line)
}

/// The line of a value change dump file that is refused: `vcd fault` where it is not read, or `bind fault` where it is not bound, the
/// number and the name of the refusal, and its fields, apart by one blank, and a line feed. Fails only where memory runs out; want of
/// memory has no line.
pub fn trace_line(alloc: Global, fault: &TraceFault) -> Result<Vec<u8>, NoMemory>
    ensures { IfOk result (λ line. line.items ≡ the_trace_line fault.now) }
{
    let mut line = line_head(alloc, fault.word(), fault.number(), fault.name())?;
    push_trace_fields(alloc, &mut line, fault)?;
    line.extend_from_slice(b"\n")?;
    Ok(line)
}
