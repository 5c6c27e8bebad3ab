//! What is told of a turn that was just made.

ghost use Rattle.std.specs.Prelude.{◌≡◌, ◌<◌, Some, IfOk};
ghost use Rattle.trace_world.specs.Fitting.{FitsTable};
ghost use Rattle.machine_core.specs.Journal.{notices_of, told_lines};
ghost use Rattle.machine_core.specs.Machine.{Machine};
ghost use Rattle.machine_core.specs.Journal.{watch_numbers};
ghost use Rattle.site_core.specs.Positions.{total_of};
ghost use Rattle.watch.specs.Watching.{watches, AreOf};
ghost use Rattle.dbg_core.specs.World.{world_of};

use crate::position::{gens_at, paths_of, threads_in};
use listen::StopNote;
use machine_core::{Notice, Turned};
use std::alloc::Global;
use symtab::Table;
use text_core::{Listed, NoMemory};
use trace_core::Trace;
use watch::WatchList;

/// The numbers of the watches that match at a slot in a cycle, rising; none at a slot or in a cycle that there is not.
pub(crate) fn watches_at<T: Trace>(
    alloc: Global,
    table: &Table,
    trace: &mut T,
    watch: &WatchList,
    cycle: u64,
    slot: u32,
) -> Result<Vec<u64>, NoMemory>
    requires fits { FitsTable table.now (T.samples trace.old) }
    requires own { AreOf table.now watch.now }
    ensures kept { T.samples trace.new ≡ T.samples trace.old }
    ensures numbers { IfOk result (λ numbers. (m : Machine) → m.watches ≡ watches watch.now
        → numbers.items ≡ watch_numbers (world_of table.now (T.samples trace.old)) m cycle slot) }
{
    let mut numbers = Vec::new(alloc);
    if slot >= table.slots() {
        return Ok(numbers);
    }
    if cycle >= trace.cycles() {
        return Ok(numbers);
    }
    for i in 0..watch.matching_at(table, trace, cycle, slot) {
        numbers.push(watch.nth_matching_at(table, trace, cycle, slot, i))?;
    }
    Ok(numbers)
}

/// A stop, with the generator variables at its statement, the paths of its threads, and the numbers of the watches that match there.
fn stopped<T: Trace>(
    alloc: Global,
    table: &Table,
    trace: &mut T,
    watch: &WatchList,
    note: StopNote,
) -> Result<Notice, NoMemory>
    requires fits { FitsTable table.now (T.samples trace.old) }
    requires own { AreOf table.now watch.now }
    ensures kept { T.samples trace.new ≡ T.samples trace.old }
    ensures lines { IfOk result (λ notice. (m : Machine) → m.watches ≡ watches watch.now
        → told_lines (Some notice) ≡ notices_of (world_of table.now (T.samples trace.old)) m (Turned.Stopped note)) }
{
    let threads = threads_in(alloc, table, trace, note.cycle, note.slot)?;
    let paths = paths_of(alloc, table, &threads)?;
    let gens = gens_at(alloc, table, note.slot)?;
    let watches = watches_at(alloc, table, trace, watch, note.cycle, note.slot)?;
    Ok(Notice::Stopped {
        note,
        gens: Listed::new(gens),
        paths: Listed::new(paths),
        watches: Listed::new(watches),
    })
}

/// What is told of a turn; nothing of one that only moved, or did nothing.
pub(crate) fn notice_of<T: Trace>(
    alloc: Global,
    table: &Table,
    trace: &mut T,
    watch: &WatchList,
    turned: Turned,
) -> Result<Option<Notice>, NoMemory>
    requires fits { FitsTable table.now (T.samples trace.old) }
    requires own { AreOf table.now watch.now }
    ensures kept { T.samples trace.new ≡ T.samples trace.old }
    ensures lines { IfOk result (λ notice. (m : Machine) → m.watches ≡ watches watch.now
        → told_lines notice ≡ notices_of (world_of table.now (T.samples trace.old)) m turned) }
{
    match turned {
        Turned::Idle | Turned::Moved => Ok(None),
        Turned::Stopped(note) => {
            let notice = stopped(alloc, table, trace, watch, note)?;
            Ok(Some(notice))
        }
        Turned::AtEnd => Ok(Some(Notice::Ended)),
        Turned::AtStart => Ok(Some(Notice::Start)),
    }
}
