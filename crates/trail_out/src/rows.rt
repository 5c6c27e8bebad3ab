//! The lines of a table's rows, cycle after cycle, through a text that waits until it is long.

ghost use Rattle.std.specs.Prelude.{◌≡◌, ◌<◌, ◌≤◌, ◌++◌, ℕ, [], All, IsSome, IsErrOf, OnErr, OnOk, Some, if◌then◌else◌, length};
ghost use Rattle.std.specs.List.{flat_map};
ghost use Rattle.list_core.specs.Lists.{from};
ghost use Rattle.io_edge.specs.Faults.{Rose};
ghost use Rattle.io_edge.specs.Taken.{Appends, AppendsFront};
ghost use Rattle.symtab.specs.Shape.{IsTable};
ghost use Rattle.world_core.specs.World.{trail_text};
ghost use Rattle.trace_core.specs.Known.{known, is_one};
ghost use Rattle.trace_world.specs.TraceWorld.{is_on, trace_world};
ghost use Rattle.trail_out.specs.Texts.{line_text, path_at, rows_text, slot_text, table_text};
ghost use Rattle.io_edge.specs.Waiting.{Passes};
ghost use Rattle.trail_out.specs.Written.{samples_at, RowStands, SlotStands};

use crate::line::{Line, push_line, sample_of};
use bv_core::Sample;
use io_edge::{Sink, SinkEnd, put_long};
use std::alloc::Global;
use symtab::{Row, Slot, Table, TableParts};
use text_core::{NoMemory, Text};
use trace_core::Trace;

/// The rows that are written: a table, and the parts that it was made of.
#[derive(Clone, Copy)]
struct Rows<'t> {
    table: &'t Table,
    parts: &'t TableParts,
}

/// Whether a sample is known and is 1.
fn is_one(sample: Sample) -> bool
    ensures { result ≡ is_one (known sample) }
{
    match sample {
        Sample::Known(value) => value.value() == 1,
        Sample::Unknown => false,
    }
}

/// Adds the line of a row, where its enable is 1.
fn push_row<T: Trace>(text: &mut Vec<u8>, trace: &T, line: &Line, row: &Row) -> Result<(), NoMemory>
    requires placed { IsSome (T.cursor trace.now) }
    requires stands { RowStands (T.samples trace.now).nodes line.now.slot.now.names row.now }
    ensures { OnOk result (text.new.items ≡ text.old.items ++
        (if is_on (samples_at (T.samples trace.now) (T.cursor trace.now))
        (Some row.now.on) then line_text line.now.cycle line.now.slot.now line.now.path.now
        (samples_at (T.samples trace.now) (T.cursor trace.now)) row.now.cells else [])) }
{
    if !is_one(sample_of(trace, row.on)) {
        return Ok(());
    }
    push_line(text, trace, line, &row.cells)?;
    Ok(())
}

/// The path of an instance.
fn path_of(parts: &TableParts, instance: u32) -> &Text
    requires { instance < length parts.now.instances }
    ensures { result.now ≡ path_at parts.now instance }
{
    &parts.instances.items()[instance as usize].path
}

/// Adds the lines of a slot's rows, which stand for these instances.
fn push_rows<T: Trace>(
    text: &mut Vec<u8>,
    trace: &T,
    cycle: u64,
    parts: &TableParts,
    slot: &Slot,
    instances: &[u32],
) -> Result<(), NoMemory>
    requires placed { IsSome (T.cursor trace.now) }
    requires within { All (λ instance. instance < length parts.now.instances) instances.now }
    requires stands { SlotStands (T.samples trace.now).nodes (length instances.now) slot.now }
    ensures { OnOk result (text.new.items ≡ text.old.items ++ rows_text cycle
        (samples_at (T.samples trace.now) (T.cursor trace.now)) parts.now slot.now instances.now slot.now.rows) }
{
    for (place, row) in slot.rows.items().iter().enumerate() {
        let path = path_of(parts, instances[place]);
        push_row(text, trace, &Line { cycle, slot, path }, row)?;
    }
    Ok(())
}

/// Writes the lines of a slot, in the cycle at which the trace stands.
fn write_slot<T: Trace, S: Sink>(
    text: &mut Vec<u8>,
    trace: &T,
    cycle: u64,
    rows: &Rows,
    k: u32,
    out: &mut S,
) -> Result<(), SinkEnd>
    requires placed { IsSome (T.cursor trace.now) }
    requires parts { rows.now.parts.now ≡ rows.now.table.now }
    requires table { IsTable rows.now.table.now }
    requires slot { k < length rows.now.table.now.slots }
    requires nodes { length rows.now.table.now.nodes ≤ (T.samples trace.now).nodes }
    ensures ok { OnOk result (Passes (S.taken out.old) (S.taken out.new) text.old.items text.new.items
        (slot_text cycle (samples_at (T.samples trace.now) (T.cursor trace.now)) rows.now.table.now k)) }
    ensures front { OnErr result (AppendsFront (S.taken out.old) (S.taken out.new)
        (text.old.items ++ slot_text cycle (samples_at (T.samples trace.now) (T.cursor trace.now)) rows.now.table.now k)) }
    ensures failed { IsErrOf result SinkEnd.Failed → Rose (S.fault_count out.old) (S.fault_count out.new) }
    ensures later { S.fault_count out.old ≤ S.fault_count out.new }
{
    let slot = rows.table.slot(k);
    let instances = rows.table.instances_of(k);
    push_rows(text, trace, cycle, rows.parts, slot, instances)?;
    put_long(text, out)?;
    Ok(())
}

/// Writes the lines of all slots, in the cycle at which the trace stands.
fn write_cycle<T: Trace, S: Sink>(
    text: &mut Vec<u8>,
    trace: &T,
    cycle: u64,
    rows: &Rows,
    out: &mut S,
) -> Result<(), SinkEnd>
    requires placed { IsSome (T.cursor trace.now) }
    requires parts { rows.now.parts.now ≡ rows.now.table.now }
    requires table { IsTable rows.now.table.now }
    requires nodes { length rows.now.table.now.nodes ≤ (T.samples trace.now).nodes }
    ensures ok { OnOk result (Passes (S.taken out.old) (S.taken out.new) text.old.items text.new.items
        (flat_map (slot_text cycle (samples_at (T.samples trace.now) (T.cursor trace.now)) rows.now.table.now)
        (from 0 (length rows.now.table.now.slots)))) }
    ensures front { OnErr result (AppendsFront (S.taken out.old) (S.taken out.new)
        (text.old.items ++ flat_map (slot_text cycle (samples_at (T.samples trace.now) (T.cursor trace.now)) rows.now.table.now)
        (from 0 (length rows.now.table.now.slots)))) }
    ensures failed { IsErrOf result SinkEnd.Failed → Rose (S.fault_count out.old) (S.fault_count out.new) }
    ensures later { S.fault_count out.old ≤ S.fault_count out.new }
{
    for k in 0..rows.table.slots() {
        write_slot(text, trace, cycle, rows, k, out)?;
    }
    Ok(())
}

/// Writes the lines of all slots, cycle after cycle.
fn write_cycles<T: Trace, S: Sink>(
    text: &mut Vec<u8>,
    trace: &mut T,
    rows: &Rows,
    out: &mut S,
) -> Result<(), SinkEnd>
    requires parts { rows.now.parts.now ≡ rows.now.table.now }
    requires table { IsTable rows.now.table.now }
    requires nodes { length rows.now.table.now.nodes ≤ (T.samples trace.old).nodes }
    ensures ok { OnOk result (Passes (S.taken out.old) (S.taken out.new) text.old.items text.new.items (table_text (T.samples trace.old) rows.now.table.now)) }
    ensures front { OnErr result (AppendsFront (S.taken out.old) (S.taken out.new) (text.old.items ++ table_text (T.samples trace.old) rows.now.table.now)) }
    ensures failed { IsErrOf result SinkEnd.Failed → Rose (S.fault_count out.old) (S.fault_count out.new) }
    ensures later { S.fault_count out.old ≤ S.fault_count out.new }
{
    for cycle in 0..trace.cycles() {
        trace.seek(cycle);
        write_cycle(text, trace, cycle, rows, out)?;
    }
    Ok(())
}

/// Writes the trail that a table and a trace tell, which has the nodes of the table: for each cycle and each slot, in order, a
/// line for each instance whose enable is 1, in preorder. `Failed` only where the sink failed; it has then a front of the trail.
pub fn write_trail<T: Trace, S: Sink>(
    alloc: Global,
    table: &Table,
    trace: &mut T,
    out: &mut S,
) -> Result<(), SinkEnd>
    requires nodes { length table.now.nodes ≤ (T.samples trace.old).nodes }
    ensures ok { OnOk result (Appends (S.taken out.old) (S.taken out.new) (trail_text (trace_world table.now (T.samples trace.old)))) }
    ensures front { OnErr result (AppendsFront (S.taken out.old) (S.taken out.new) (trail_text (trace_world table.now (T.samples trace.old)))) }
    ensures failed { IsErrOf result SinkEnd.Failed → Rose (S.fault_count out.old) (S.fault_count out.new) }
    ensures later { S.fault_count out.old ≤ S.fault_count out.new }
{
    let mut text = Vec::new(alloc);
    let rows = Rows {
        table,
        parts: table.parts(),
    };
    write_cycles(&mut text, trace, &rows, out)?;
    out.put(&text)?;
    Ok(())
}
