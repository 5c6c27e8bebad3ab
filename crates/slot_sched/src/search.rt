//! The search for the nearest position where a breakpoint, or a step, stops. It goes from slot to slot that has something to offer, so
//! the positions between are not looked at, and the trace is not moved for them.

ghost use Rattle.std.specs.Prelude.{◌≡◌, ◌<◌, ◌≤◌, ◌+◌, ◌-◌, ◌*◌, ◌/◌, ◌≤ℤ◌, not, true, false, ℕ, pos, negsuc, length, find, None, Some, IfSome};
ghost use Rattle.std.specs.List.{list_any};
ghost use Rattle.list_core.specs.Lists.{from};
ghost use Rattle.symtab.specs.declared.parts.TableParts.{TableParts};
ghost use Rattle.world_core.specs.Seen.{seen};
ghost use Rattle.trace_world.specs.TraceWorld.{trace_world};
ghost use Rattle.trace_world.specs.Fitting.{FitsTable};
ghost use Rattle.bv_core.specs.declared.Sample.{Sample};
ghost use Rattle.trace_core.specs.Samples.{Samples};
ghost use Rattle.slot_sched.specs.Armed.{breakpoints, AreOf};
ghost use Rattle.machine_core.specs.Matching.{is_wanted};
ghost use Rattle.site_core.specs.Sampled.{cycle_samples, IsSet};
ghost use Rattle.slot_sched.specs.Waiting.{AreReady, any_stops, any_steps, slot_stops};
ghost use Rattle.slot_sched.specs.Spots.{IsSpot};
ghost use Rattle.slot_sched.specs.Scan.{searched, scanned, position_stops};
ghost use Rattle.site_core.specs.Positions.{total_of, down_from};
ghost use Rattle.symtab.specs.Lookups.{instances_of};

use crate::armed::Armed;
use crate::schedule::Schedule;
use crate::spans::span_at;
use crate::spot::Spot;
use machine_core::{Found, place_of, told};
use site_core::is_thread;
use symtab::Table;
use trace_core::{Scanned, Trace, Want, Way};

/// A search looks at so many positions.
const REACH: u64 = 64;

/// Sets a trace at a cycle, where it does not stand there already.
fn set_at<T: Trace>(trace: &mut T, stands: Option<u64>, cycle: u64)
    requires stands { IfSome stands (λ at. T.cursor trace.old ≡ Some at) }
    requires within { cycle < (T.samples trace.old).cycles }
    ensures kept { T.samples trace.new ≡ T.samples trace.old }
    ensures set { T.cursor trace.new ≡ Some cycle }
{
    if let Some(at) = stands {
        if at == cycle {
            return;
        }
    }
    trace.seek(cycle);
}

/// Whether one of these breakpoints stops at this slot.
fn any_stops<T: Trace>(armed: &[Armed], table: &Table, trace: &T, slot: u32) -> bool
    requires fits { FitsTable table.now (T.samples trace.now) }
    requires set { IsSet (T.samples trace.now) (T.cursor trace.now) }
    requires ready { AreReady table.now (T.samples trace.now) armed.now }
    ensures { result ≡ any_stops table.now (cycle_samples (T.samples trace.now) (T.cursor trace.now)) slot armed.now }
{
    for one in armed {
        if one.stops(table, trace, slot) {
            return true;
        }
    }
    false
}

/// Whether an instance is of a slot's variant. Its variant is looked at, and none of the other instances.
fn has_instance(table: &Table, slot: u32, instance: u32) -> bool
    requires slot { slot < length table.now.slots }
    ensures { result ≡ list_any (is_wanted (Some instance)) (instances_of table.now slot) }
{
    match table.parts().instances.items().get(instance as usize) {
        Some(found) => found.variant == table.slot(slot).variant,
        None => false,
    }
}

/// Whether a slot has an instance; the named one, if one was named.
fn any_wanted(table: &Table, slot: u32, named: Option<u32>) -> bool
    requires slot { slot < length table.now.slots }
    ensures { result ≡ list_any (is_wanted named) (instances_of table.now slot) }
{
    match named {
        Some(instance) => has_instance(table, slot, instance),
        None => !table.instances_of(slot).is_empty(),
    }
}

/// Whether a slot has a thread.
fn any_threads<T: Trace>(table: &Table, trace: &T, slot: u32) -> bool
    requires fits { FitsTable table.now (T.samples trace.now) }
    requires set { IsSet (T.samples trace.now) (T.cursor trace.now) }
    requires slot { slot < length table.now.slots }
    ensures { result ≡ any_steps table.now (cycle_samples (T.samples trace.now) (T.cursor trace.now)) slot None }
{
    for instance in table.instances_of(slot) {
        if is_thread(table, trace, slot, *instance) {
            return true;
        }
    }
    false
}

/// Whether a slot has a thread: of the named instance, if one was named.
fn any_steps<T: Trace>(table: &Table, trace: &T, slot: u32, named: Option<u32>) -> bool
    requires fits { FitsTable table.now (T.samples trace.now) }
    requires set { IsSet (T.samples trace.now) (T.cursor trace.now) }
    requires slot { slot < length table.now.slots }
    ensures { result ≡ any_steps table.now (cycle_samples (T.samples trace.now) (T.cursor trace.now)) slot named }
{
    match named {
        Some(instance) => {
            has_instance(table, slot, instance) && is_thread(table, trace, slot, instance)
        }
        None => any_threads(table, trace, slot),
    }
}

impl Schedule {
    /// The breakpoints that may wait at this slot.
    fn waiting(&self, slot: u32) -> &[Armed]
        ensures stops { (parts : TableParts) (samples : ℕ → Sample)
            → any_stops parts samples slot result.now ≡ any_stops parts samples slot self.now.armed.items }
        ensures ready { (parts : TableParts) (s : Samples) → AreReady parts s self.now.armed.items → AreReady parts s result.now }
    {
        let span = span_at(&self.spans, slot);
        let to = self.armed.len().min(span.to as usize);
        let from = to.min(span.from as usize);
        &self.armed[from..to]
    }

    /// How many slots, from this one on, cannot have what is searched for, whatever the trace shows: no breakpoint waits there, or none of their
    /// instances is wanted.
    fn passed_up(&self, table: &Table, slot: u32, want: Want) -> u32
        requires slot { slot < length table.now.slots }
        ensures within { slot + result ≤ length table.now.slots }
        ensures none { (k : ℕ) (samples : ℕ → Sample) → slot ≤ k → k < slot + result → slot_stops table.now samples k self.now.armed.items want ≡ false }
    {
        match want {
            Want::Breakpoints => {
                let span = span_at(&self.spans, slot);
                span.passed(span.ahead).min(table.slots() - slot)
            }
            Want::Step(named) => { if any_wanted(table, slot, named) { 0 } else { 1 } }
        }
    }

    /// How many slots, from this one back, cannot have it.
    fn passed_down(&self, table: &Table, slot: u32, want: Want) -> u32
        requires slot { slot < length table.now.slots }
        ensures within { result ≤ slot + 1 }
        ensures none { (k : ℕ) (samples : ℕ → Sample) → k ≤ slot → slot < k + result → slot_stops table.now samples k self.now.armed.items want ≡ false }
    {
        match want {
            Want::Breakpoints => {
                let span = span_at(&self.spans, slot);
                span.passed(span.behind).min(slot.saturating_add(1))
            }
            Want::Step(named) => { if any_wanted(table, slot, named) { 0 } else { 1 } }
        }
    }

    /// Whether a slot has what is searched for, in the cycle at which the trace stands.
    fn slot_stops<T: Trace>(&self, table: &Table, trace: &T, slot: u32, want: Want) -> bool
        requires fits { FitsTable table.now (T.samples trace.now) }
        requires set { IsSet (T.samples trace.now) (T.cursor trace.now) }
        requires ready { AreReady table.now (T.samples trace.now) self.now.armed.items }
        requires slot { slot < length table.now.slots }
        ensures { result ≡ slot_stops table.now (cycle_samples (T.samples trace.now) (T.cursor trace.now)) slot self.now.armed.items want }
    {
        match want {
            Want::Breakpoints => any_stops(self.waiting(slot), table, trace, slot),
            Want::Step(named) => any_steps(table, trace, slot, named),
        }
    }

    /// Whether a position has what is searched for. The trace is set at its cycle, unless it stands there.
    fn position_stops<T: Trace>(
        &self,
        table: &Table,
        trace: &mut T,
        stands: &mut Option<u64>,
        spot: Spot,
        want: Want,
    ) -> bool
        requires fits { FitsTable table.now (T.samples trace.old) }
        requires ready { AreReady table.now (T.samples trace.old) self.now.armed.items }
        requires stands { IfSome stands.old (λ at. T.cursor trace.old ≡ Some at) }
        requires spot { IsSpot (length table.now.slots) spot }
        requires within { spot.position < total_of table.now (T.samples trace.old) }
        ensures kept { T.samples trace.new ≡ T.samples trace.old }
        ensures set { IfSome stands.new (λ at. T.cursor trace.new ≡ Some at) }
        ensures value { result ≡ position_stops table.now (T.samples trace.old) self.now.armed.items want spot.position }
    {
        set_at(trace, *stands, spot.cycle);
        *stands = Some(spot.cycle);
        self.slot_stops(table, trace, spot.slot, want)
    }

    /// How many positions from this one on are known not to have what is searched for, in its cycle; 0 where it has that. A cycle is sought only
    /// where the position is looked at.
    fn look_up<T: Trace>(
        &self,
        table: &Table,
        trace: &mut T,
        stands: &mut Option<u64>,
        spot: Spot,
        want: Want,
    ) -> u32
        requires fits { FitsTable table.now (T.samples trace.old) }
        requires ready { AreReady table.now (T.samples trace.old) self.now.armed.items }
        requires stands { IfSome stands.old (λ at. T.cursor trace.old ≡ Some at) }
        requires spot { IsSpot (length table.now.slots) spot }
        requires within { spot.position < total_of table.now (T.samples trace.old) }
        ensures kept { T.samples trace.new ≡ T.samples trace.old }
        ensures set { IfSome stands.new (λ at. T.cursor trace.new ≡ Some at) }
        ensures cycle { spot.slot + result ≤ length table.now.slots }
        ensures here { result ≡ 0 → position_stops table.now (T.samples trace.old) self.now.armed.items want spot.position ≡ true }
        ensures none { (p : ℕ) → spot.position ≤ p → p < spot.position + result
            → position_stops table.now (T.samples trace.old) self.now.armed.items want p ≡ false }
    {
        let passed = self.passed_up(table, spot.slot, want);
        if 0 < passed {
            return passed;
        }
        if self.position_stops(table, trace, stands, spot, want) {
            0
        } else {
            1
        }
    }

    /// How many positions from this one back are known not to have it, in its cycle; 0 where it has it.
    fn look_down<T: Trace>(
        &self,
        table: &Table,
        trace: &mut T,
        stands: &mut Option<u64>,
        spot: Spot,
        want: Want,
    ) -> u32
        requires fits { FitsTable table.now (T.samples trace.old) }
        requires ready { AreReady table.now (T.samples trace.old) self.now.armed.items }
        requires stands { IfSome stands.old (λ at. T.cursor trace.old ≡ Some at) }
        requires spot { IsSpot (length table.now.slots) spot }
        requires within { spot.position < total_of table.now (T.samples trace.old) }
        ensures kept { T.samples trace.new ≡ T.samples trace.old }
        ensures set { IfSome stands.new (λ at. T.cursor trace.new ≡ Some at) }
        ensures cycle { result ≤ spot.slot + 1 }
        ensures here { result ≡ 0 → position_stops table.now (T.samples trace.old) self.now.armed.items want spot.position ≡ true }
        ensures none { (p : ℕ) → p ≤ spot.position → spot.position < p + result
            → position_stops table.now (T.samples trace.old) self.now.armed.items want p ≡ false }
    {
        let passed = self.passed_down(table, spot.slot, want);
        if 0 < passed {
            return passed;
        }
        if self.position_stops(table, trace, stands, spot, want) {
            0
        } else {
            1
        }
    }

    /// The nearest position that has what is searched for, from the first up to the end: of those whose slot can have it, which are gone to without
    /// a look at those between. A cycle is sought once.
    fn forward<T: Trace>(
        &self,
        table: &Table,
        trace: &mut T,
        first: u64,
        end: u64,
        want: Want,
    ) -> Option<u64>
        requires fits { FitsTable table.now (T.samples trace.old) }
        requires ready { AreReady table.now (T.samples trace.old) self.now.armed.items }
        requires within { end ≤ total_of table.now (T.samples trace.old) }
        ensures kept { T.samples trace.new ≡ T.samples trace.old }
        ensures value { result ≡ find (position_stops table.now (T.samples trace.old) self.now.armed.items want) (from first (end - first)) }
        ensures below { IfSome result (λ p. p < end) }
    {
        if end <= first {
            return None;
        }
        let slots = table.slots();
        let mut stands = None;
        let mut spot = Spot::of(first, slots);
        while spot.position < end {
            let passed = self.look_up(table, trace, &mut stands, spot, want);
            if passed == 0 {
                return Some(spot.position);
            }
            spot = spot.up(passed - 1, slots).next(slots);
        }
        None
    }

    /// The nearest position below this one that has what is searched for, down to the lowest, in the same way. A cycle is sought once.
    fn backward<T: Trace>(
        &self,
        table: &Table,
        trace: &mut T,
        below: u64,
        lowest: u64,
        want: Want,
    ) -> Option<u64>
        requires fits { FitsTable table.now (T.samples trace.old) }
        requires ready { AreReady table.now (T.samples trace.old) self.now.armed.items }
        requires within { below ≤ total_of table.now (T.samples trace.old) }
        ensures kept { T.samples trace.new ≡ T.samples trace.old }
        ensures value { result ≡ find (position_stops table.now (T.samples trace.old) self.now.armed.items want) (down_from below (below - lowest)) }
        ensures below { IfSome result (λ p. p < below) }
    {
        if below <= lowest {
            return None;
        }
        let slots = table.slots();
        let mut stands = None;
        let mut spot = Spot::of(below, slots);
        while lowest < spot.position {
            let here = spot.previous(slots);
            let passed = self.look_down(table, trace, &mut stands, here, want);
            if passed == 0 {
                return Some(here.position);
            }
            spot = here.down(passed - 1, slots);
        }
        None
    }

    /// The nearest match from a place, which is 0 for the start and a position plus one otherwise; or whether the end or the
    /// start is reached. It looks at 64 positions at most, seeks a cycle of theirs at most once, and takes no memory.
    pub fn search<T: Trace>(
        &self,
        table: &Table,
        trace: &mut T,
        place: u64,
        way: Way,
        want: Want,
    ) -> Found
        requires fits { FitsTable table.now (T.samples trace.old) }
        requires own { AreOf table.now self.now }
        requires to { place ≤ total_of table.now (T.samples trace.old) + 1 }
        ensures kept { T.samples trace.new ≡ T.samples trace.old }
        ensures value { result ≡ searched (seen (trace_world table.now (T.samples trace.old))) (breakpoints self.now) want way place }
        ensures hit { (p : ℕ) → result ≡ Found.At p → p < total_of table.now (T.samples trace.old) }
    {
        let _parts = table.parts();
        let total = trace.cycles() * u64::from(table.slots());
        match way {
            Way::Forward => {
                let end = total.min(place + REACH);
                let nearest = self.forward(table, trace, place, end, want);
                Found::new(nearest, total.saturating_sub(place) < REACH)
            }
            Way::Backward => {
                let below = place.saturating_sub(1);
                let lowest = below.saturating_sub(REACH);
                let nearest = self.backward(table, trace, below, lowest, want);
                Found::new(nearest, below < REACH)
            }
        }
    }

    /// The nearest match from a position, where -1 is the start and the number of positions is the end; or whether the end or
    /// the start is reached. It looks at 64 positions at most, seeks a cycle of theirs at most once, and takes no memory.
    pub fn scan<T: Trace>(
        &self,
        table: &Table,
        trace: &mut T,
        at: i64,
        way: Way,
        want: Want,
    ) -> Scanned
        requires fits { FitsTable table.now (T.samples trace.old) }
        requires own { AreOf table.now self.now }
        requires from { negsuc 0 ≤ℤ at }
        requires to { at ≤ℤ pos (total_of table.now (T.samples trace.old)) }
        ensures kept { T.samples trace.new ≡ T.samples trace.old }
        ensures value { result ≡ scanned (seen (trace_world table.now (T.samples trace.old))) (breakpoints self.now) want way at }
    {
        told(self.search(table, trace, place_of(at), way, want))
    }
}
