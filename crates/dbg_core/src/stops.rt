//! What is asked of a session that stands at a position, idle: its threads, what names show in one of them, and what an expression
//! comes to there. None of it moves the session; the trace is set at the position's cycle.

ghost use Rattle.std.specs.Prelude.{◌≡◌, ◌<◌, ◌≤◌, ◌+◌, ◌/◌, ◌%◌, Contains, IfOk, Some, length};
ghost use Rattle.symtab.specs.Lookups.{instances_of};
ghost use Rattle.trace_world.specs.Fitting.{FitsTable};
ghost use Rattle.machine_core.specs.Reading.{Reader, IsReader};
ghost use Rattle.machine_core.specs.Machine.{way_going};
ghost use Rattle.site_core.specs.Positions.{total_of};
ghost use Rattle.site_core.specs.Sampled.{cycle_samples, IsSet};
ghost use Rattle.dbg_core.specs.World.{world_of};
ghost use Rattle.dbg_core.specs.Shown.{row_shown};
ghost use Rattle.dbg_core.specs.Answering.{busy, stand, thread_of, told_of, threads_body, values_body, eval_body};

use crate::eval::eval_in;
use crate::position::{at_place, gens_at, paths_of, spot, threads_in, total};
use crate::sampled::{cells_of, has_thread, values_of};
use machine_core::{At, Body, Going, Motion, Shown};
use std::alloc::Global;
use symtab::Table;
use text_core::{Listed, NoMemory, Text};
use trace_core::{Trace, Way};

/// Whether it runs, and in which direction.
pub(crate) fn going(way: Way) -> Going
    ensures { result ≡ way_going way }
{
    match way {
        Way::Forward => Going::Forward,
        Way::Backward => Going::Backward,
    }
}

/// What is refused while it runs.
pub(crate) fn busy(motion: Motion) -> Option<Body>
    ensures { result ≡ busy motion }
{
    match motion {
        Motion::Idle => None,
        Motion::Running(way, _) => Some(Body::Busy { mode: going(way) }),
    }
}

/// The position at which it stands, idle; or why it stands at none.
fn stand<T: Trace>(table: &Table, trace: &T, motion: Motion, place: u64) -> Result<u64, Body>
    requires fits { FitsTable table.now (T.samples trace.now) }
    requires within { place ≤ total_of table.now (T.samples trace.now) + 1 }
    ensures position { result ≡ stand (world_of table.now (T.samples trace.now)) motion place }
    ensures below { IfOk result (λ p. p < total_of table.now (T.samples trace.now)) }
{
    if let Some(refusal) = busy(motion) {
        return Err(refusal);
    }
    match at_place(table, trace, place) {
        At::Position { .. } => Ok(place - 1),
        at => Err(Body::NoStop { at }),
    }
}

/// The position at which it stands, and the instance of a path, if it is a thread there; or why it is none. The trace is then set.
fn thread_of<T: Trace>(
    table: &Table,
    trace: &mut T,
    motion: Motion,
    place: u64,
    path: &str,
) -> Result<(u64, u32), Body>
    requires fits { FitsTable table.now (T.samples trace.old) }
    requires within { place ≤ total_of table.now (T.samples trace.old) + 1 }
    ensures kept { T.samples trace.new ≡ T.samples trace.old }
    ensures thread { result ≡ thread_of (world_of table.now (T.samples trace.old)) motion place path.now }
    ensures below { IfOk result (λ at. at.0 < total_of table.now (T.samples trace.old)) }
    ensures set { IfOk result (λ at. T.cursor trace.new ≡ Some (at.0 / length table.now.slots)) }
    ensures there { IfOk result (λ at. Contains (instances_of table.now (at.0 % length table.now.slots)) at.1) }
{
    let p = stand(table, trace, motion, place)?;
    let Some(instance) = table.instance_named(path) else {
        return Err(Body::NoStop {
            at: at_place(table, trace, place),
        });
    };
    let (cycle, slot) = spot(table, p);
    trace.seek(cycle);
    if !has_thread(table, trace, slot, instance) {
        return Err(Body::NoStop {
            at: at_place(table, trace, place),
        });
    }
    Ok((p, instance))
}

/// The position, the generator variables and the line of its statement, and the paths of its threads.
fn threads_body<T: Trace>(
    alloc: Global,
    table: &Table,
    trace: &mut T,
    place: u64,
    p: u64,
) -> Result<Body, NoMemory>
    requires fits { FitsTable table.now (T.samples trace.old) }
    requires within { place ≤ total_of table.now (T.samples trace.old) + 1 }
    requires below { p < total_of table.now (T.samples trace.old) }
    ensures kept { T.samples trace.new ≡ T.samples trace.old }
    ensures body { IfOk result (λ body. body ≡ threads_body (world_of table.now (T.samples trace.old)) place p) }
{
    let at = at_place(table, trace, place);
    let (cycle, slot) = spot(table, p);
    let threads = threads_in(alloc, table, trace, cycle, slot)?;
    let paths = paths_of(alloc, table, &threads)?;
    let gens = gens_at(alloc, table, slot)?;
    Ok(Body::Threads {
        at,
        gens: Listed::new(gens),
        line: table.slot(slot).line,
        threads: Listed::new(paths),
    })
}

/// What is answered to a request for the threads.
pub(crate) fn threads_asked<T: Trace>(
    alloc: Global,
    table: &Table,
    trace: &mut T,
    motion: Motion,
    place: u64,
) -> Result<Body, NoMemory>
    requires fits { FitsTable table.now (T.samples trace.old) }
    requires within { place ≤ total_of table.now (T.samples trace.old) + 1 }
    ensures kept { T.samples trace.new ≡ T.samples trace.old }
    ensures body { IfOk result (λ body. body ≡ told_of (threads_body (world_of table.now (T.samples trace.old)) place)
        (stand (world_of table.now (T.samples trace.old)) motion place)) }
{
    match stand(table, trace, motion, place) {
        Ok(p) => threads_body(alloc, table, trace, place, p),
        Err(refusal) => Ok(refusal),
    }
}

/// The names in scope at a slot, with what is shown of each in a thread of it, in the cycle at which the trace stands.
pub(crate) fn values_in<T: Trace>(
    alloc: Global,
    table: &Table,
    trace: &T,
    slot: u32,
    instance: u32,
) -> Result<Vec<(Text, Shown)>, NoMemory>
    requires fits { FitsTable table.now (T.samples trace.now) }
    requires set { IsSet (T.samples trace.now) (T.cursor trace.now) }
    requires there { Contains (instances_of table.now slot) instance }
    ensures { IfOk result (λ values. values.items ≡ row_shown table.now (cycle_samples (T.samples trace.now) (T.cursor trace.now)) slot instance) }
{
    let _parts = table.parts();
    let cells = cells_of(table, slot, instance);
    values_of(alloc, trace, table.slot(slot).names.items(), cells)
}

/// What is answered to a request for the values of names.
pub(crate) fn values_asked<T: Trace>(
    alloc: Global,
    table: &Table,
    trace: &mut T,
    motion: Motion,
    place: u64,
    path: &str,
) -> Result<Body, NoMemory>
    requires fits { FitsTable table.now (T.samples trace.old) }
    requires within { place ≤ total_of table.now (T.samples trace.old) + 1 }
    ensures kept { T.samples trace.new ≡ T.samples trace.old }
    ensures body { IfOk result (λ body. body ≡ told_of (values_body (world_of table.now (T.samples trace.old)))
        (thread_of (world_of table.now (T.samples trace.old)) motion place path.now)) }
{
    match thread_of(table, trace, motion, place, path) {
        Ok((p, instance)) => {
            let (_, slot) = spot(table, p);
            let values = values_in(alloc, table, trace, slot, instance)?;
            Ok(Body::Values {
                values: Listed::new(values),
            })
        }
        Err(refusal) => Ok(refusal),
    }
}

/// What is answered to a request for the value of an expression.
pub(crate) fn eval_asked<T: Trace>(
    alloc: Global,
    table: &Table,
    trace: &mut T,
    motion: Motion,
    place: u64,
    path: &str,
    expr: &str,
) -> Result<Body, NoMemory>
    requires fits { FitsTable table.now (T.samples trace.old) }
    requires within { place ≤ total_of table.now (T.samples trace.old) + 1 }
    ensures kept { T.samples trace.new ≡ T.samples trace.old }
    ensures body { (read : Reader) → IsReader read → IfOk result (λ body. body
        ≡ told_of (eval_body (world_of table.now (T.samples trace.old)) (read expr.now))
        (thread_of (world_of table.now (T.samples trace.old)) motion place path.now)) }
{
    let _parts = table.parts();
    match thread_of(table, trace, motion, place, path) {
        Ok((p, instance)) => {
            let (_, slot) = spot(table, p);
            eval_in(alloc, table, trace, slot, instance, expr)
        }
        Err(refusal) => Ok(refusal),
    }
}
