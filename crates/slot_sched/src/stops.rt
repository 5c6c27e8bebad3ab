//! Whether an armed breakpoint stops at a slot. It may wait at very many, as where a generator makes a line's statement again and again; so
//! what waits at a slot is searched for among what stands slot after slot, and not gone through.

ghost use Rattle.std.specs.Prelude.{◌≡◌, ◌==◌, All, filter};
ghost use Rattle.std.specs.List.{list_any};
ghost use Rattle.trace_world.specs.Fitting.{FitsTable};
ghost use Rattle.site_core.specs.Sampled.{cycle_samples, IsSet};
ghost use Rattle.slot_sched.specs.Waiting.{IsReady, IsArmedReady, trap_stops, armed_stops};

use crate::armed::Armed;
use crate::sampled::test_holds;
use site_core::{Trap, is_thread};
use symtab::Table;
use trace_core::Trace;

/// Whether a breakpoint waits there at this slot, where its instance is a thread and its condition holds.
fn trap_stops<T: Trace>(trap: &Trap, table: &Table, trace: &T, slot: u32) -> bool
    requires fits { FitsTable table.now (T.samples trace.now) }
    requires set { IsSet (T.samples trace.now) (T.cursor trace.now) }
    requires ready { IsReady table.now (T.samples trace.now) trap.now }
    ensures { result ≡ trap_stops table.now (cycle_samples (T.samples trace.now) (T.cursor trace.now)) slot trap.now }
{
    trap.slot == slot
        && is_thread(table, trace, trap.slot, trap.instance)
        && test_holds(trace, &trap.cond)
}

/// Whether one of these stops at this slot.
fn any_trap<T: Trace>(traps: &[Trap], table: &Table, trace: &T, slot: u32) -> bool
    requires fits { FitsTable table.now (T.samples trace.now) }
    requires set { IsSet (T.samples trace.now) (T.cursor trace.now) }
    requires ready { All (IsReady table.now (T.samples trace.now)) traps.now }
    ensures { result ≡ list_any (trap_stops table.now (cycle_samples (T.samples trace.now) (T.cursor trace.now)) slot) traps.now }
{
    for trap in traps {
        if trap_stops(trap, table, trace, slot) {
            return true;
        }
    }
    false
}

impl Armed {
    /// Where it waits at this slot.
    fn at(&self, slot: u32) -> &[Trap]
        ensures { result.now ≡ filter (λ t. t.slot == slot) self.now.traps.items }
    {
        let from = self.traps.partition_point(|trap| trap.slot < slot);
        let rest = &self.traps[from..];
        let count = rest.partition_point(|trap| trap.slot <= slot);
        &rest[..count]
    }

    /// Whether it stops at this slot.
    pub(crate) fn stops<T: Trace>(&self, table: &Table, trace: &T, slot: u32) -> bool
        requires fits { FitsTable table.now (T.samples trace.now) }
        requires set { IsSet (T.samples trace.now) (T.cursor trace.now) }
        requires ready { IsArmedReady table.now (T.samples trace.now) self.now }
        ensures { result ≡ armed_stops table.now (cycle_samples (T.samples trace.now) (T.cursor trace.now)) slot self.now }
    {
        any_trap(self.at(slot), table, trace, slot)
    }
}
