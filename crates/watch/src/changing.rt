//! Whether what a watch looks at changed from the cycle before. A trace is set at that cycle only where the value here is known.

ghost use Rattle.std.specs.Prelude.{◌≡◌, ◌<◌, ◌==◌, ◌&&◌, All};
ghost use Rattle.std.specs.List.{list_any};
ghost use Rattle.cond_lang.specs.Bound.{known};
ghost use Rattle.trace_world.specs.Fitting.{FitsTable};
ghost use Rattle.machine_core.specs.Matching.{differ};
ghost use Rattle.site_core.specs.Sampled.{cycle_samples, IsSet};
ghost use Rattle.watch.specs.Changing.{seen_by, trap_changes, watch_stops, IsSeen, IsWatchReady};

use crate::watched::Watched;
use bv_core::Sample;
use site_core::{Trap, come_to, is_thread};
use symtab::Table;
use trace_core::Trace;

/// Its value in the cycle at which the trace stands, where its instance is a thread there; not known elsewhere.
fn seen<T: Trace>(trap: &Trap, table: &Table, trace: &T) -> Sample
    requires fits { FitsTable table.now (T.samples trace.now) }
    requires set { IsSet (T.samples trace.now) (T.cursor trace.now) }
    requires ready { IsSeen table.now (T.samples trace.now) trap.now }
    ensures { known result ≡ seen_by table.now (cycle_samples (T.samples trace.now) (T.cursor trace.now)) trap.now }
{
    match &trap.cond {
        Some(cond) if is_thread(table, trace, trap.slot, trap.instance) => come_to(trace, cond),
        _ => Sample::Unknown,
    }
}

/// The same in a cycle, at which the trace is set.
fn seen_in<T: Trace>(trap: &Trap, table: &Table, trace: &mut T, cycle: u64) -> Sample
    requires fits { FitsTable table.now (T.samples trace.old) }
    requires within { cycle < (T.samples trace.old).cycles }
    requires ready { IsSeen table.now (T.samples trace.old) trap.now }
    ensures kept { T.samples trace.new ≡ T.samples trace.old }
    ensures value { known result ≡ seen_by table.now ((T.samples trace.old).sample cycle) trap.now }
{
    trace.seek(cycle);
    seen(trap, table, trace)
}

/// Whether both are known and differ.
fn differ(before: Sample, here: Sample) -> bool
    ensures { result ≡ differ (known before) (known here) }
{
    let Sample::Known(before) = before else {
        return false;
    };
    let Sample::Known(here) = here else {
        return false;
    };
    before.value() != here.value()
}

/// Whether its value changed from the cycle before to this one.
#[tactic(auto, using(crate::proofs::Changes::changes_at, crate::proofs::Changes::differ_none))]
fn trap_changes<T: Trace>(trap: &Trap, table: &Table, trace: &mut T, cycle: u64) -> bool
    requires fits { FitsTable table.now (T.samples trace.old) }
    requires within { cycle < (T.samples trace.old).cycles }
    requires ready { IsSeen table.now (T.samples trace.old) trap.now }
    ensures kept { T.samples trace.new ≡ T.samples trace.old }
    ensures value { result ≡ trap_changes table.now (T.samples trace.old) cycle trap.now }
{
    if cycle == 0 {
        return false;
    }
    let here = seen_in(trap, table, trace, cycle);
    if let Sample::Unknown = here {
        return false;
    }
    let before = seen_in(trap, table, trace, cycle - 1);
    differ(before, here)
}

/// Whether one of these, at this slot, changed.
fn any_changes<T: Trace>(
    traps: &[Trap],
    table: &Table,
    trace: &mut T,
    cycle: u64,
    slot: u32,
) -> bool
    requires fits { FitsTable table.now (T.samples trace.old) }
    requires within { cycle < (T.samples trace.old).cycles }
    requires ready { All (IsSeen table.now (T.samples trace.old)) traps.now }
    ensures kept { T.samples trace.new ≡ T.samples trace.old }
    ensures value { result ≡ list_any (λ t. (t.slot == slot) && trap_changes table.now (T.samples trace.old) cycle t) traps.now }
{
    for trap in traps {
        if trap.slot == slot && trap_changes(trap, table, trace, cycle) {
            return true;
        }
    }
    false
}

impl Watched {
    /// Whether it matches at a slot in a cycle.
    pub(crate) fn matches<T: Trace>(
        &self,
        table: &Table,
        trace: &mut T,
        cycle: u64,
        slot: u32,
    ) -> bool
        requires fits { FitsTable table.now (T.samples trace.old) }
        requires within { cycle < (T.samples trace.old).cycles }
        requires ready { IsWatchReady table.now (T.samples trace.old) self.now }
        ensures kept { T.samples trace.new ≡ T.samples trace.old }
        ensures value { result ≡ watch_stops table.now (T.samples trace.old) cycle slot self.now }
    {
        any_changes(&self.traps, table, trace, cycle, slot)
    }
}
