//! The header and the rows of a stimulus. A row is judged whole before any of its values is taken.

ghost use Rattle.std.specs.Prelude.{◌≡◌, ◌≤◌, ◌*◌, IsTrue, IfOk, length};
ghost use Rattle.std.specs.List.{list_all, zip};
ghost use Rattle.std.specs.Str.Lines.{lines};
ghost use Rattle.design_core.specs.Ports.{has_width};
ghost use Rattle.stim_text.specs.Fields.{fields};
ghost use Rattle.stim_text.specs.Rows.{Gives, after, are_names, are_numbers, values_from, row_of, rows_from};
ghost use Rattle.stim_text.specs.Stimulus.{rows_in};

use crate::StimFault;
use crate::fields::{is_number, next_field, value_of};
use crate::lines::next_line;
use bv_core::Bv;
use std::alloc::Global;
use text_core::Text;

/// Whether the fields of a line are the names of the inputs, in order.
pub(crate) fn is_header(inputs: &[(Text, u8)], line: &[u8]) -> bool
    ensures { result ≡ are_names inputs.now (fields line.now) }
{
    let mut rest = line;
    for (name, _) in inputs {
        let Some((field, others)) = next_field(rest) else {
            return false;
        };
        if name.bytes() != field {
            return false;
        }
        rest = others;
    }
    next_field(rest).is_none()
}

/// Whether the fields of a line are numbers, one for each input.
fn is_row(inputs: &[(Text, u8)], line: &[u8]) -> bool
    ensures { result ≡ are_numbers inputs.now (fields line.now) }
{
    let mut rest = line;
    for _input in inputs {
        let Some((field, others)) = next_field(rest) else {
            return false;
        };
        if !is_number(field) {
            return false;
        }
        rest = others;
    }
    next_field(rest).is_none()
}

/// Adds the values of inputs and the fields of a line, one beside the other.
#[tactic(auto, using(crate::proofs::RowLemmas::row_steps))]
fn push_values(
    values: &mut Vec<Bv>,
    inputs: &[(Text, u8)],
    row: u64,
    line: &[u8],
) -> Result<(), StimFault>
    requires { IsTrue (list_all has_width inputs.now) }
    ensures { Gives (λ _. values.new.items) result (after values.old.items (values_from row 0 (zip inputs.now (fields line.now)))) }
{
    let mut column: u64 = 0;
    let mut rest = line;
    for (_, width) in inputs {
        let Some((field, others)) = next_field(rest) else {
            break;
        };
        values.push(value_of(*width, field).ok_or(StimFault::DoesNotFit { row, column })?)?;
        column += 1;
        rest = others;
    }
    Ok(())
}

/// Adds the values of a line that is the row of this number.
fn push_row(
    values: &mut Vec<Bv>,
    inputs: &[(Text, u8)],
    row: u64,
    line: &[u8],
) -> Result<(), StimFault>
    requires { IsTrue (list_all has_width inputs.now) }
    ensures { Gives (λ _. values.new.items) result (after values.old.items (row_of row inputs.now line.now)) }
{
    if !is_row(inputs, line) {
        return Err(StimFault::BadRow { row });
    }
    push_values(values, inputs, row, line)
}

/// The values of the lines that are rows, one row behind the other. Takes memory at once for as many values as
/// room says.
pub(crate) fn read_rows(
    alloc: Global,
    inputs: &[(Text, u8)],
    text: &[u8],
    room: usize,
) -> Result<Vec<Bv>, StimFault>
    requires widths { IsTrue (list_all has_width inputs.now) }
    requires few { length (lines text.now) ≤ 1000000 }
    ensures rows { Gives (λ values. rows_in (length inputs.now) (length (lines text.now)) values.items) result (rows_from 0 inputs.now (lines text.now)) }
    ensures len { IfOk result (λ values. length values.items ≡ length (lines text.now) * length inputs.now) }
{
    let mut values = Vec::with_capacity(alloc, room)?;
    let mut row: u64 = 0;
    let mut rest = text;
    while let Some((line, others)) = next_line(rest) {
        push_row(&mut values, inputs, row, line)?;
        row += 1;
        rest = others;
    }
    Ok(values)
}
