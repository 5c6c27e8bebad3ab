//! Reading a stimulus. Limits are judged before rows, so that a text that is too large costs no memory.

ghost use Rattle.std.specs.Prelude.{◌≡◌, ◌+◌, ◌*◌, ◌/◌, min, length, IfOk};
ghost use Rattle.stim_text.specs.Rows.{Gives, are_few, rows_of};
ghost use Rattle.stim_text.specs.Stimulus.{IsStimulus};

use crate::lines::{count_lines, next_line};
use crate::rows::{is_header, read_rows};
use crate::{Stim, StimFault};
use design_core::Ports;
use std::alloc::Global;

const MOST_BYTES: usize = 64 * 1024 * 1024;

const MOST_ROWS: u64 = 1_000_000;

const MOST_VALUES: u64 = 16_000_000;

/// Whether a stimulus for these ports may have so many rows.
fn are_few(ports: &Ports, rows: u64) -> bool
    ensures { result ≡ are_few ports.now rows }
{
    let columns = ports.inputs.items().len() as u64 + u64::from(ports.registers);
    rows <= MOST_ROWS && rows.saturating_mul(columns) <= MOST_VALUES
}

/// How many values a text can have: at most one for each input and row, and each takes a digit and the gap or line
/// end behind it.
fn room_for(ports: &Ports, rows: u64, text: &[u8]) -> usize
    ensures { result ≡ min (rows * length ports.now.inputs) (length text.now / 2 + 1) }
{
    let values = (rows as usize).saturating_mul(ports.inputs.items().len());
    values.min(text.len() / 2 + 1)
}

/// Reads a stimulus for these ports: a line with the names of the inputs, and then a row for each cycle, which has
/// one number for each input, below 2 to the power of its width. A number is decimal digits, or `0x` and hexadecimal
/// digits; blanks and tabs separate them.
///
/// Refuses a text of more than 64 MiB first, then a wrong header, then too many rows, and then the first faulty row;
/// in that row it is `BadRow` before `DoesNotFit`, and `DoesNotFit` has the first column whose number does not fit.
///
/// Takes time linear in the text and the ports. The values take 32 bytes each, and no more than 16 bytes for each
/// byte of the text; the only other memory is a copy of the ports.
pub fn read_stim(alloc: Global, text: &[u8], ports: &Ports) -> Result<Stim, StimFault>
    ensures rows { Gives (λ stim. stim.rows) result (rows_of ports.now text.now) }
    ensures ports { IfOk result (λ stim. stim.ports ≡ ports.now) }
    ensures kept { IfOk result IsStimulus }
{
    if text.len() > MOST_BYTES {
        return Err(StimFault::TooLong);
    }
    let inputs = ports.inputs.items();
    let Some((header, rows)) = next_line(text) else {
        return Err(StimFault::HeaderMismatch);
    };
    if !is_header(inputs, header) {
        return Err(StimFault::HeaderMismatch);
    }
    let count = count_lines(rows);
    if !are_few(ports, count) {
        return Err(StimFault::TooLong);
    }
    let values = read_rows(alloc, inputs, rows, room_for(ports, count, rows))?;
    Ok(Stim::new(ports.copy(alloc)?, count, values))
}
