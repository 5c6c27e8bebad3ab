//! What a table and a trace show at a slot, in the cycle at which the trace stands: which instances are threads, and what each name
//! in scope has there.

ghost use Rattle.std.specs.Prelude.{◌≡◌, ◌<◌, ◌^◌, true, All, Contains, IfOk, Some, length, option_map, slice_get};
ghost use Rattle.symtab.specs.Lookups.{instances_of, row_of};
ghost use Rattle.trace_core.specs.Known.{known};
ghost use Rattle.trace_world.specs.TraceWorld.{found_by};
ghost use Rattle.trace_world.specs.Fitting.{FitsTable};
ghost use Rattle.site_core.specs.Sampled.{cycle_samples, IsSet, is_thread};
ghost use Rattle.slot_sched.specs.Waiting.{any_steps};
ghost use Rattle.dbg_core.specs.Shown.{IsAmong, IsCellAmong, slot_threads, cell_shown, cells_shown};

use bv_core::{Binding, Ref, Sample};
use machine_core::Shown;
use site_core::is_thread;
use std::alloc::Global;
use symtab::{Cells, Table};
use text_core::{NoMemory, Text};
use trace_core::Trace;

/// What is found here: a node's sample, or a literal.
fn found<T: Trace>(trace: &T, at: Ref) -> Sample
    requires set { IsSet (T.samples trace.now) (T.cursor trace.now) }
    requires among { IsAmong (T.samples trace.now).nodes at }
    ensures { known result ≡ found_by (cycle_samples (T.samples trace.now) (T.cursor trace.now)) at }
{
    match at {
        Ref::Node(node, _) => trace.value(node),
        Ref::Const(value) => Sample::Known(value),
    }
}

/// Whether this instance is a thread of a slot.
pub(crate) fn has_thread<T: Trace>(table: &Table, trace: &T, slot: u32, instance: u32) -> bool
    requires fits { FitsTable table.now (T.samples trace.now) }
    requires set { IsSet (T.samples trace.now) (T.cursor trace.now) }
    requires slot { slot < length table.now.slots }
    ensures value { result ≡ any_steps table.now (cycle_samples (T.samples trace.now) (T.cursor trace.now)) slot (Some instance) }
    ensures there { result ≡ true → Contains (instances_of table.now slot) instance }
{
    for other in table.instances_of(slot) {
        if *other == instance && is_thread(table, trace, slot, *other) {
            return true;
        }
    }
    false
}

/// How many instances are threads of a slot: fewer than 2^32, as a table has no more instances.
pub(crate) fn thread_count<T: Trace>(table: &Table, trace: &T, slot: u32) -> u32
    requires fits { FitsTable table.now (T.samples trace.now) }
    requires set { IsSet (T.samples trace.now) (T.cursor trace.now) }
    requires slot { slot < length table.now.slots }
    requires few { length (instances_of table.now slot) < 2 ^ 32 }
    ensures { result ≡ length (slot_threads table.now (cycle_samples (T.samples trace.now) (T.cursor trace.now)) slot) }
{
    let mut count = 0;
    for instance in table.instances_of(slot) {
        if is_thread(table, trace, slot, *instance) {
            count += 1;
        }
    }
    count
}

/// The instances that are threads of a slot, in preorder.
pub(crate) fn threads_of<T: Trace>(
    alloc: Global,
    table: &Table,
    trace: &T,
    slot: u32,
) -> Result<Vec<u32>, NoMemory>
    requires fits { FitsTable table.now (T.samples trace.now) }
    requires set { IsSet (T.samples trace.now) (T.cursor trace.now) }
    requires slot { slot < length table.now.slots }
    ensures threads { IfOk result (λ threads. threads.items ≡ slot_threads table.now (cycle_samples (T.samples trace.now) (T.cursor trace.now)) slot) }
    ensures within { IfOk result (λ threads. All (λ i. i < length table.now.instances) threads.items) }
{
    let mut threads = Vec::new(alloc);
    for instance in table.instances_of(slot) {
        if is_thread(table, trace, slot, *instance) {
            threads.push(*instance)?;
        }
    }
    Ok(threads)
}

/// What is shown of a name that stands for this.
fn shown_of<T: Trace>(trace: &T, cell: Binding) -> Shown
    requires set { IsSet (T.samples trace.now) (T.cursor trace.now) }
    requires among { IsCellAmong (T.samples trace.now).nodes cell }
    ensures { result ≡ cell_shown (cycle_samples (T.samples trace.now) (T.cursor trace.now)) cell }
{
    match cell {
        Binding::Value(at) => match found(trace, at) {
            Sample::Known(value) => Shown::Value(value),
            Sample::Unknown => Shown::Unknown,
        },
        Binding::Unset => Shown::Unset,
        Binding::Removed => Shown::Removed,
    }
}

/// A name, with what is shown of it where it stands for this.
fn named<T: Trace>(
    alloc: Global,
    trace: &T,
    name: &Text,
    cell: Binding,
) -> Result<(Text, Shown), NoMemory>
    requires set { IsSet (T.samples trace.now) (T.cursor trace.now) }
    requires among { IsCellAmong (T.samples trace.now).nodes cell }
    ensures { IfOk result (λ pair. pair ≡ (name.now, cell_shown (cycle_samples (T.samples trace.now) (T.cursor trace.now)) cell)) }
{
    let name = Text::new(alloc, name.bytes())?;
    Ok((name, shown_of(trace, cell)))
}

/// Names, with what is shown of each where they stand for these.
pub(crate) fn values_of<T: Trace>(
    alloc: Global,
    trace: &T,
    names: &[Text],
    cells: &Cells,
) -> Result<Vec<(Text, Shown)>, NoMemory>
    requires set { IsSet (T.samples trace.now) (T.cursor trace.now) }
    requires long { length names.now ≡ length cells.now }
    requires among { All (IsCellAmong (T.samples trace.now).nodes) cells.now }
    ensures { IfOk result (λ values. values.items ≡ cells_shown (cycle_samples (T.samples trace.now) (T.cursor trace.now)) names.now cells.now) }
{
    let mut values = Vec::new(alloc);
    for (place, name) in names.iter().enumerate() {
        let value = named(alloc, trace, name, cells.at(place))?;
        values.push(value)?;
    }
    Ok(values)
}

/// The place of an instance among those of a slot.
fn place_of(instances: &[u32], instance: u32) -> usize
    requires { Contains instances.now instance }
    ensures { slice_get instances.now result ≡ Some instance }
{
    let mut place = 0;
    while instances[place] != instance {
        place += 1;
    }
    place
}

/// What the names of a slot stand for, for an instance that has it, in their order.
pub(crate) fn cells_of(table: &Table, slot: u32, instance: u32) -> &Cells
    requires { Contains (instances_of table.now slot) instance }
    ensures { option_map (λ row. row.cells) (row_of table.now slot instance) ≡ Some result.now }
{
    let _parts = table.parts();
    let place = place_of(table.instances_of(slot), instance);
    &table.slot(slot).rows.items()[place].cells
}
