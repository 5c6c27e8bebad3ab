//! What a table and a trace tell of a position: where it is told to be, what a stop there is, and its threads.

ghost use Rattle.std.specs.Prelude.{◌≡◌, ◌<◌, ◌≤◌, ◌+◌, ◌/◌, ◌%◌, ◌^◌, All, IfOk, length, map};
ghost use Rattle.trace_core.specs.Samples.{Samples};
ghost use Rattle.trace_world.specs.TraceWorld.{gen_of};
ghost use Rattle.trace_world.specs.Fitting.{FitsTable};
ghost use Rattle.machine_core.specs.Positions.{at_place};
ghost use Rattle.machine_core.specs.Machine.{note_at, gens_at};
ghost use Rattle.site_core.specs.Positions.{total_of};
ghost use Rattle.watch.specs.Watching.{watches, AreOf};
ghost use Rattle.dbg_core.specs.World.{world_of, path_at};

use crate::sampled::{thread_count, threads_of};
use listen::StopNote;
use machine_core::At;
use std::alloc::Global;
use symtab::{GenVariable, Table};
use text_core::{NoMemory, Text};
use trace_core::{Seek, Trace};
use watch::WatchList;

/// How many positions there are, fewer than 2^62.
pub(crate) fn total<T: Trace>(table: &Table, trace: &T) -> u64
    requires fits { FitsTable table.now (T.samples trace.now) }
    ensures value { result ≡ total_of table.now (T.samples trace.now) }
    ensures few { result < 2 ^ 62 }
{
    trace.cycles() * u64::from(table.slots())
}

/// The cycle and the slot of a position.
pub(crate) fn spot(table: &Table, p: u64) -> (u64, u32)
    requires { 0 < length table.now.slots }
    ensures cycle { result.0 ≡ p / length table.now.slots }
    ensures slot { result.1 ≡ p % length table.now.slots }
    ensures below { result.1 < length table.now.slots }
{
    let slots = u64::from(table.slots());
    (p / slots, (p % slots) as u32)
}

/// A place, as it is told.
pub(crate) fn at_place<T: Trace>(table: &Table, trace: &T, place: u64) -> At
    requires fits { FitsTable table.now (T.samples trace.now) }
    requires within { place ≤ total_of table.now (T.samples trace.now) + 1 }
    ensures { result ≡ at_place (world_of table.now (T.samples trace.now)) place }
{
    if place == 0 {
        return At::Start;
    }
    let p = place - 1;
    if p == total(table, trace) {
        return At::End;
    }
    let (cycle, slot) = spot(table, p);
    At::Position { cycle, slot }
}

/// What is told of a stop at a position.
pub(crate) fn note_at<T: Trace>(table: &Table, trace: &mut T, watch: &WatchList, p: u64) -> StopNote
    requires fits { FitsTable table.now (T.samples trace.old) }
    requires own { AreOf table.now watch.now }
    requires within { p < total_of table.now (T.samples trace.old) }
    ensures kept { T.samples trace.new ≡ T.samples trace.old }
    ensures note { result ≡ note_at (world_of table.now (T.samples trace.old)) (watches watch.now) p }
{
    let _parts = table.parts();
    let (cycle, slot) = spot(table, p);
    let watches = watch.matching_at(table, trace, cycle, slot);
    trace.seek(cycle);
    StopNote {
        cycle,
        slot,
        line: table.slot(slot).line,
        threads: thread_count(table, trace, slot),
        watches,
    }
}

/// The instances that are threads of a slot in a cycle, in preorder; none of a slot or in a cycle that there is not.
pub(crate) fn threads_in<T: Trace>(
    alloc: Global,
    table: &Table,
    trace: &mut T,
    cycle: u64,
    slot: u32,
) -> Result<Vec<u32>, NoMemory>
    requires fits { FitsTable table.now (T.samples trace.old) }
    ensures kept { T.samples trace.new ≡ T.samples trace.old }
    ensures threads { IfOk result (λ threads. threads.items ≡ (world_of table.now (T.samples trace.old)).threads cycle slot) }
    ensures within { IfOk result (λ threads. All (λ i. i < length table.now.instances) threads.items) }
{
    if slot >= table.slots() {
        return Ok(Vec::new(alloc));
    }
    match trace.seek(cycle) {
        Seek::OutOfRange => Ok(Vec::new(alloc)),
        Seek::At => threads_of(alloc, table, trace, slot),
    }
}

/// The path of an instance.
fn path_of(alloc: Global, table: &Table, instance: u32) -> Result<Text, NoMemory>
    requires { instance < length table.now.instances }
    ensures { IfOk result (λ path. path ≡ path_at table.now instance) }
{
    let parts = table.parts();
    Text::new(
        alloc,
        parts.instances.items()[instance as usize].path.bytes(),
    )
}

/// The paths of instances, in their order.
pub(crate) fn paths_of(
    alloc: Global,
    table: &Table,
    instances: &[u32],
) -> Result<Vec<Text>, NoMemory>
    requires { All (λ i. i < length table.now.instances) instances.now }
    ensures { IfOk result (λ paths. paths.items ≡ map (path_at table.now) instances.now) }
{
    let mut paths = Vec::new(alloc);
    for instance in instances {
        let path = path_of(alloc, table, *instance)?;
        paths.push(path)?;
    }
    Ok(paths)
}

/// A generator variable, with its number.
fn gen_of(alloc: Global, variable: &GenVariable) -> Result<(Text, i64), NoMemory>
    ensures { IfOk result (λ found. found ≡ gen_of variable.now) }
{
    let name = Text::new(alloc, variable.name.bytes())?;
    Ok((name, variable.value))
}

/// Generator variables, with their numbers, in their order.
fn gens_of(alloc: Global, variables: &[GenVariable]) -> Result<Vec<(Text, i64)>, NoMemory>
    ensures { IfOk result (λ gens. gens.items ≡ map gen_of variables.now) }
{
    let mut gens = Vec::new(alloc);
    for variable in variables {
        let found = gen_of(alloc, variable)?;
        gens.push(found)?;
    }
    Ok(gens)
}

/// The generator variables at a slot, with their numbers; none at a slot that there is not.
pub(crate) fn gens_at(alloc: Global, table: &Table, slot: u32) -> Result<Vec<(Text, i64)>, NoMemory>
    ensures { (s : Samples) → IfOk result (λ gens. gens.items ≡ gens_at (world_of table.now s) slot) }
{
    if slot >= table.slots() {
        return Ok(Vec::new(alloc));
    }
    gens_of(alloc, table.slot(slot).gens.items())
}
