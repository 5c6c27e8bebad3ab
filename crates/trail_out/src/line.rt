//! The line of a statement that an instance executes.

ghost use Rattle.std.specs.Prelude.{◌≡◌, ◌<◌, ◌++◌, All, IsSome, OnOk, codes, length};
ghost use Rattle.std.specs.Fmt.{decimal};
ghost use Rattle.std.specs.List.{flat_map};
ghost use Rattle.world_core.specs.World.{place_text, shown_text};
ghost use Rattle.trace_core.specs.Known.{known};
ghost use Rattle.trace_world.specs.TraceWorld.{found_by};
ghost use Rattle.trail_out.specs.Texts.{sample_shown, cell_shown, variable_text, cell_text, cells_text, line_text};
ghost use Rattle.trail_out.specs.Written.{samples_at, RefStands, CellStands};

use bv_core::{Binding, Ref, Sample, push_shown};
use itoa::Buffer;
use places::{file_of, line_in};
use symtab::{Cells, GenVariable, Slot};
use text_core::{NoMemory, Text};
use trace_core::Trace;

/// Adds a blank, and a generator variable with its number.
fn push_variable(text: &mut Vec<u8>, variable: &GenVariable) -> Result<(), NoMemory>
    ensures { OnOk result (text.new.items ≡ text.old.items ++ variable_text variable.now) }
{
    text.push(b' ')?;
    text.extend_from_slice(variable.name.bytes())?;
    text.push(b'=')?;
    text.extend_from_slice(Buffer::new().format(variable.value).as_bytes())?;
    Ok(())
}

/// Adds generator variables, in order.
fn push_variables(text: &mut Vec<u8>, variables: &[GenVariable]) -> Result<(), NoMemory>
    ensures { OnOk result (text.new.items ≡ text.old.items ++ flat_map variable_text variables.now) }
{
    for variable in variables {
        push_variable(text, variable)?;
    }
    Ok(())
}

/// Where the value that is found stands: at the cursor of the trace, or as a literal.
pub(crate) fn sample_of<T: Trace>(trace: &T, at: Ref) -> Sample
    requires placed { IsSome (T.cursor trace.now) }
    requires stands { RefStands (T.samples trace.now).nodes at }
    ensures { known result ≡ found_by (samples_at (T.samples trace.now) (T.cursor trace.now)) at }
{
    match at {
        Ref::Node(id, _) => trace.value(id),
        Ref::Const(value) => Sample::Known(value),
    }
}

/// Adds a value, or that it is not known.
fn push_sample(text: &mut Vec<u8>, sample: Sample) -> Result<(), NoMemory>
    ensures { OnOk result (text.new.items ≡ text.old.items ++ shown_text (sample_shown sample)) }
{
    match sample {
        Sample::Known(value) => push_shown(text, value)?,
        Sample::Unknown => text.extend_from_slice(b"x")?,
    }
    Ok(())
}

/// Adds what is shown of a name that stands for this, in the cycle at which the trace stands.
fn push_value<T: Trace>(text: &mut Vec<u8>, trace: &T, cell: Binding) -> Result<(), NoMemory>
    requires placed { IsSome (T.cursor trace.now) }
    requires stands { CellStands (T.samples trace.now).nodes cell }
    ensures { OnOk result (text.new.items ≡ text.old.items ++ shown_text (cell_shown (samples_at (T.samples trace.now) (T.cursor trace.now)) cell)) }
{
    match cell {
        Binding::Value(at) => push_sample(text, sample_of(trace, at))?,
        Binding::Unset => text.extend_from_slice(b"unset")?,
        Binding::Removed => text.extend_from_slice(b"removed")?,
    }
    Ok(())
}

/// Adds a blank, and a name with what is shown of it.
fn push_cell<T: Trace>(
    text: &mut Vec<u8>,
    trace: &T,
    name: &Text,
    cell: Binding,
) -> Result<(), NoMemory>
    requires placed { IsSome (T.cursor trace.now) }
    requires stands { CellStands (T.samples trace.now).nodes cell }
    ensures { OnOk result (text.new.items ≡ text.old.items ++ cell_text (samples_at (T.samples trace.now) (T.cursor trace.now)) name.now cell) }
{
    text.push(b' ')?;
    text.extend_from_slice(name.bytes())?;
    text.push(b'=')?;
    push_value(text, trace, cell)?;
    Ok(())
}

/// Adds names with what is shown of them, in order.
fn push_cells<T: Trace>(
    text: &mut Vec<u8>,
    trace: &T,
    names: &[Text],
    cells: &Cells,
) -> Result<(), NoMemory>
    requires placed { IsSome (T.cursor trace.now) }
    requires long { length names.now ≡ length cells.now }
    requires stand { All (CellStands (T.samples trace.now).nodes) cells.now }
    ensures { OnOk result (text.new.items ≡ text.old.items ++ cells_text (samples_at (T.samples trace.now) (T.cursor trace.now)) names.now cells.now) }
{
    for (place, name) in names.iter().enumerate() {
        push_cell(text, trace, name, cells.at(place))?;
    }
    Ok(())
}

/// Adds a place as it is told in one word: the line alone in file 0, and FILE:LINE in another.
fn push_place(text: &mut Vec<u8>, place: u32) -> Result<(), NoMemory>
    ensures { OnOk result (text.new.items ≡ text.old.items ++ place_text place) }
{
    let (file, line) = (file_of(place), line_in(place));
    if file != 0 {
        text.extend_from_slice(Buffer::new().format(file).as_bytes())?;
        text.push(b':')?;
    }
    text.extend_from_slice(Buffer::new().format(line).as_bytes())?;
    Ok(())
}

/// Adds the cycle and the place, with a blank behind each.
fn push_head(text: &mut Vec<u8>, cycle: u64, place: u32) -> Result<(), NoMemory>
    ensures { OnOk result (text.new.items ≡ text.old.items ++ (decimal cycle ++ codes " " ++ place_text place ++ codes " ")) }
{
    text.extend_from_slice(Buffer::new().format(cycle).as_bytes())?;
    text.push(b' ')?;
    push_place(text, place)?;
    text.push(b' ')?;
    Ok(())
}

/// A line of a trail: the cycle, the statement, and the path of the instance that executes it.
#[derive(Clone, Copy)]
pub(crate) struct Line<'l> {
    pub cycle: u64,
    pub slot: &'l Slot,
    pub path: &'l Text,
}

/// Adds a line with these cells, in the cycle at which the trace stands.
pub(crate) fn push_line<T: Trace>(
    text: &mut Vec<u8>,
    trace: &T,
    line: &Line,
    cells: &Cells,
) -> Result<(), NoMemory>
    requires placed { IsSome (T.cursor trace.now) }
    requires long { length line.now.slot.now.names ≡ length cells.now }
    requires stand { All (CellStands (T.samples trace.now).nodes) cells.now }
    ensures { OnOk result (text.new.items ≡ text.old.items ++ line_text line.now.cycle line.now.slot.now line.now.path.now
        (samples_at (T.samples trace.now) (T.cursor trace.now)) cells.now) }
{
    push_head(text, line.cycle, line.slot.line)?;
    text.extend_from_slice(line.path.bytes())?;
    push_variables(text, line.slot.gens.items())?;
    push_cells(text, trace, line.slot.names.items(), cells)?;
    text.push(b'\n')?;
    Ok(())
}
