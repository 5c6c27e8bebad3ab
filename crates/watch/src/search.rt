//! The search for the nearest position where a watch matches, among those that a turn looks at; and which watches match at a position.

ghost use Rattle.std.specs.Prelude.{◌≡◌, ◌<◌, ◌≤◌, ◌+◌, ◌-◌, ◌/◌, ◌%◌, ◌≤ℤ◌, ◌<ℤ◌, ℕ, pos, negsuc, length, find, map, slice_get, Some, IfSome};
ghost use Rattle.list_core.specs.Lists.{from};
ghost use Rattle.world_core.specs.Seen.{seen};
ghost use Rattle.trace_world.specs.TraceWorld.{trace_world};
ghost use Rattle.trace_world.specs.Fitting.{FitsTable};
ghost use Rattle.machine_core.specs.Matching.{watches_at};
ghost use Rattle.machine_core.specs.Search.{place_of};
ghost use Rattle.site_core.specs.Positions.{total_of, down_from};
ghost use Rattle.watch.specs.Changing.{watch_stops, position_changes, AreWatchReady};
ghost use Rattle.watch.specs.Watching.{watches, searched, scanned, matching_at, AreOf};

use crate::watch_list::WatchList;
use machine_core::{Found, place_of, told};
use symtab::Table;
use trace_core::{Scanned, Trace, Way};

/// A search looks at so many positions.
const REACH: u64 = 64;

/// The cycle and the slot of a position.
fn spot_of(table: &Table, p: u64) -> (u64, u32)
    requires { 0 < length table.now.slots }
    ensures cycle { result.0 ≡ p / length table.now.slots }
    ensures slot { result.1 ≡ p % length table.now.slots }
    ensures below { result.1 < length table.now.slots }
{
    let slots = u64::from(table.slots());
    (p / slots, (p % slots) as u32)
}

impl WatchList {
    /// Whether a watch matches at a position.
    fn changes<T: Trace>(&self, table: &Table, trace: &mut T, p: u64) -> bool
        requires fits { FitsTable table.now (T.samples trace.old) }
        requires ready { AreWatchReady table.now (T.samples trace.old) self.now.watched.items }
        requires within { p < total_of table.now (T.samples trace.old) }
        ensures kept { T.samples trace.new ≡ T.samples trace.old }
        ensures value { result ≡ position_changes table.now (T.samples trace.old) self.now.watched.items p }
    {
        let (cycle, slot) = spot_of(table, p);
        for watched in &self.watched {
            if watched.matches(table, trace, cycle, slot) {
                return true;
            }
        }
        false
    }

    /// The nearest position that matches, from the first up to the end.
    fn forward<T: Trace>(&self, table: &Table, trace: &mut T, first: u64, end: u64) -> Option<u64>
        requires fits { FitsTable table.now (T.samples trace.old) }
        requires ready { AreWatchReady table.now (T.samples trace.old) self.now.watched.items }
        requires within { end ≤ total_of table.now (T.samples trace.old) }
        ensures kept { T.samples trace.new ≡ T.samples trace.old }
        ensures value { result ≡ find (position_changes table.now (T.samples trace.old) self.now.watched.items) (from first (end - first)) }
        ensures below { IfSome result (λ p. p < end) }
    {
        for p in first..end {
            if self.changes(table, trace, p) {
                return Some(p);
            }
        }
        None
    }

    /// The nearest position below this one that matches, down to the lowest.
    fn backward<T: Trace>(
        &self,
        table: &Table,
        trace: &mut T,
        below: u64,
        lowest: u64,
    ) -> Option<u64>
        requires fits { FitsTable table.now (T.samples trace.old) }
        requires ready { AreWatchReady table.now (T.samples trace.old) self.now.watched.items }
        requires within { below ≤ total_of table.now (T.samples trace.old) }
        ensures kept { T.samples trace.new ≡ T.samples trace.old }
        ensures value { result ≡ find (position_changes table.now (T.samples trace.old) self.now.watched.items) (down_from below (below - lowest)) }
        ensures below { IfSome result (λ p. p < below) }
    {
        let mut p = below;
        while lowest < p {
            p -= 1;
            if self.changes(table, trace, p) {
                return Some(p);
            }
        }
        None
    }

    /// The nearest match from a place, which is 0 for the start and a position plus one otherwise; or whether the end or the start is
    /// reached. It looks at 64 positions at most, and takes no memory. Where no watch is armed it seeks no cycle.
    pub fn search<T: Trace>(&self, table: &Table, trace: &mut T, place: u64, way: Way) -> Found
        requires fits { FitsTable table.now (T.samples trace.old) }
        requires own { AreOf table.now self.now }
        requires to { place ≤ total_of table.now (T.samples trace.old) + 1 }
        ensures kept { T.samples trace.new ≡ T.samples trace.old }
        ensures value { result ≡ searched (seen (trace_world table.now (T.samples trace.old))) (watches self.now) way place }
        ensures hit { (p : ℕ) → result ≡ Found.At p → p < total_of table.now (T.samples trace.old) }
    {
        let _parts = table.parts();
        let total = trace.cycles() * u64::from(table.slots());
        match way {
            Way::Forward => {
                let end = total.min(place + REACH);
                let nearest = self.forward(table, trace, place, end);
                Found::new(nearest, total.saturating_sub(place) < REACH)
            }
            Way::Backward => {
                let below = place.saturating_sub(1);
                let lowest = below.saturating_sub(REACH);
                let nearest = self.backward(table, trace, below, lowest);
                Found::new(nearest, below < REACH)
            }
        }
    }

    /// The nearest match from a position, where -1 is the start and the number of positions is the end; or whether the end or the start
    /// is reached. It looks at 64 positions at most, and takes no memory.
    pub fn scan<T: Trace>(&self, table: &Table, trace: &mut T, at: i64, way: Way) -> Scanned
        requires fits { FitsTable table.now (T.samples trace.old) }
        requires own { AreOf table.now self.now }
        requires from { negsuc 0 ≤ℤ at }
        requires to { at ≤ℤ pos (total_of table.now (T.samples trace.old)) }
        ensures kept { T.samples trace.new ≡ T.samples trace.old }
        ensures value { result ≡ scanned (seen (trace_world table.now (T.samples trace.old))) (watches self.now) way at }
    {
        told(self.search(table, trace, place_of(at), way))
    }

    /// How many watches match at a slot in a cycle. Takes no memory.
    pub fn matching_at<T: Trace>(&self, table: &Table, trace: &mut T, cycle: u64, slot: u32) -> u32
        requires fits { FitsTable table.now (T.samples trace.old) }
        requires own { AreOf table.now self.now }
        requires cycle { cycle < (T.samples trace.old).cycles }
        requires slot { slot < length table.now.slots }
        ensures kept { T.samples trace.new ≡ T.samples trace.old }
        ensures value { result ≡ length (watches_at (seen (trace_world table.now (T.samples trace.old))) cycle slot (watches self.now)) }
    {
        let _parts = table.parts();
        let mut count = 0;
        for watched in &self.watched {
            if watched.matches(table, trace, cycle, slot) {
                count += 1;
            }
        }
        count
    }

    /// The number of one of the watches that match at a slot in a cycle, in rising order, counted from 0. Takes no memory.
    pub fn nth_matching_at<T: Trace>(
        &self,
        table: &Table,
        trace: &mut T,
        cycle: u64,
        slot: u32,
        i: u32,
    ) -> u64
        requires fits { FitsTable table.now (T.samples trace.old) }
        requires own { AreOf table.now self.now }
        requires cycle { cycle < (T.samples trace.old).cycles }
        requires slot { slot < length table.now.slots }
        requires there { i < length (watches_at (seen (trace_world table.now (T.samples trace.old))) cycle slot (watches self.now)) }
        ensures kept { T.samples trace.new ≡ T.samples trace.old }
        ensures value { slice_get (map (λ watch. watch.number)
            (watches_at (seen (trace_world table.now (T.samples trace.old))) cycle slot (watches self.now))) i ≡ Some result }
    {
        let _parts = table.parts();
        let mut left = i;
        for watched in &self.watched {
            if watched.matches(table, trace, cycle, slot) {
                if left == 0 {
                    return watched.number;
                }
                left -= 1;
            }
        }
        0
    }

    /// How many watches match at a position, from 0 to the last. Takes no memory.
    pub fn matching<T: Trace>(&self, table: &Table, trace: &mut T, at: i64) -> u32
        requires fits { FitsTable table.now (T.samples trace.old) }
        requires own { AreOf table.now self.now }
        requires from { pos 0 ≤ℤ at }
        requires to { at <ℤ pos (total_of table.now (T.samples trace.old)) }
        ensures kept { T.samples trace.new ≡ T.samples trace.old }
        ensures value { result ≡ length (matching_at (seen (trace_world table.now (T.samples trace.old))) (watches self.now) (place_of at - 1)) }
    {
        let (cycle, slot) = spot_of(table, place_of(at) - 1);
        self.matching_at(table, trace, cycle, slot)
    }

    /// The number of one of the watches that match at a position, from 0 to the last, in rising order, counted from 0. Takes no memory.
    pub fn nth_matching<T: Trace>(&self, table: &Table, trace: &mut T, at: i64, i: u32) -> u64
        requires fits { FitsTable table.now (T.samples trace.old) }
        requires own { AreOf table.now self.now }
        requires from { pos 0 ≤ℤ at }
        requires to { at <ℤ pos (total_of table.now (T.samples trace.old)) }
        requires there { i < length (matching_at (seen (trace_world table.now (T.samples trace.old))) (watches self.now) (place_of at - 1)) }
        ensures kept { T.samples trace.new ≡ T.samples trace.old }
        ensures value { slice_get (map (λ watch. watch.number)
            (matching_at (seen (trace_world table.now (T.samples trace.old))) (watches self.now) (place_of at - 1))) i ≡ Some result }
    {
        let (cycle, slot) = spot_of(table, place_of(at) - 1);
        self.nth_matching_at(table, trace, cycle, slot, i)
    }
}
