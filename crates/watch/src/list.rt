//! How watches are armed and disarmed. One is armed in two steps: what it waits for is prepared, and then put behind the others under the
//! next number. So whoever tells of it takes the memory for that between the two, and nothing that is armed is ever taken back.

ghost use Rattle.std.specs.Prelude.{◌≡◌, ◌≤◌, ◌<◌, ◌+◌, not, false, List, [], ◌∷◌, ◌++◌, length, filter, IfOk, OnOk, OnErr, IsSome, Some, ℕ};
ghost use Rattle.std.specs.List.{list_any};
ghost use Rattle.symtab.specs.declared.parts.TableParts.{TableParts};
ghost use Rattle.world_core.specs.Seen.{seen};
ghost use Rattle.trace_core.specs.Samples.{Samples};
ghost use Rattle.trace_world.specs.TraceWorld.{trace_world};
ghost use Rattle.machine_core.specs.Arming.{watch_limit, watch_on};
ghost use Rattle.machine_core.specs.Machine.{is_watch};
ghost use Rattle.machine_core.specs.Reading.{Reader, IsReader};
ghost use Rattle.watch.specs.Arm.{Arms, TellsNone, IsFor, IsArmable, as_watch};
ghost use Rattle.watch.specs.Watching.{watches, next_watch, is_number, AreOf, AreInOrder};

use crate::fault::WatchFault;
use crate::watch_list::WatchList;
use crate::watched::Watched;
use cond_lang::CondText;
use site_core::{Sited, Trap, sited_on};
use std::alloc::Global;
use symtab::Table;

/// So many watches are armed at most.
const MOST_WATCHED: usize = 256;

/// What is armed as a watch, but for its number.
#[derive(Drop)]
pub struct Unwatched {
    pub(crate) slots: Vec<u32>,
    pub(crate) instance: u32,
    pub(crate) text: CondText,
    pub(crate) traps: Vec<Trap>,
}

impl Unwatched {
    /// Its slots, rising. Takes no memory.
    pub fn slots(&self) -> &[u32]
        ensures { result.now ≡ self.now.slots.items }
    {
        &self.slots
    }

    /// What was found for a path and a text that were given.
    fn new(found: Sited) -> Unwatched
        requires instance { IsSome found.instance }
        requires text { IsSome found.text }
        ensures slots { result.slots.items ≡ found.slots.items }
        ensures instance { Some result.instance ≡ found.instance }
        ensures text { Some result.text ≡ found.text }
        ensures traps { result.traps.items ≡ found.traps.items }
    {
        Unwatched {
            slots: found.slots,
            instance: found.instance.unwrap(),
            text: found.text.unwrap(),
            traps: found.traps,
        }
    }
}

/// What is armed as a watch on a line, in an instance: an expression of any width. Or why nothing is, in the order in which `WatchList::arm`
/// refuses, but for the number of watches.
pub fn prepare_watch(
    alloc: Global,
    table: &Table,
    line: u64,
    path: &str,
    text: &[u8],
) -> Result<Unwatched, WatchFault>
    ensures told { (read : Reader) (s : Samples) (armed next : ℕ) → IsReader read
        → IsFor armed next result (watch_on read (seen (trace_world table.now s)) armed next line path.now text.now) }
    ensures armable { IfOk result (IsArmable table.now) }
{
    let found = sited_on(alloc, table, line, Some(path), Some(text), false)?;
    Ok(Unwatched::new(found))
}

impl WatchList {
    /// No watches. Takes no memory.
    pub fn new(alloc: Global) -> WatchList
        ensures watches { watches result ≡ [] }
        ensures next { next_watch result ≡ 1 }
        ensures own { (parts : TableParts) → AreOf parts result }
        ensures order { AreInOrder result }
    {
        WatchList {
            watched: Vec::new(alloc),
            given: 0,
            alloc,
        }
    }

    /// How many watches are armed. Takes no memory.
    pub fn len(&self) -> usize
        ensures { result ≡ length (watches self.now) }
    {
        self.watched.len()
    }

    /// That no watch more is armed, where so many are armed or the last number was given.
    fn limit(&self) -> Result<(), WatchFault>
        ensures tells { TellsNone result (watch_limit (length (watches self.now)) (next_watch self.now)) }
        ensures few { IfOk result (λ _. length self.now.watched.items < 256) }
    {
        if self.watched.len() >= MOST_WATCHED || self.given == u64::MAX {
            return Err(WatchFault::TooManyWatches {
                limit: MOST_WATCHED as u64,
            });
        }
        Ok(())
    }

    /// Arms under the next number what was prepared from this table. Gives that number, from 1 on, that of the one before and one.
    ///
    /// Refused where 256 watches are armed, or the number 2^64 - 1 was given. After a refusal all is as before, and so it is for want of
    /// memory.
    pub fn commit(&mut self, table: &Table, unwatched: Unwatched) -> Result<u64, WatchFault>
        requires armable { IsArmable table.now unwatched }
        ensures made { IfOk result (λ number. number ≡ next_watch self.old) }
        ensures watches { OnOk result (watches self.new ≡ watches self.old ++ as_watch (next_watch self.old) unwatched ∷ []) }
        ensures next { OnOk result (next_watch self.new ≡ next_watch self.old + 1) }
        ensures refused { TellsNone result (watch_limit (length (watches self.old)) (next_watch self.old)) }
        ensures kept { OnErr result (watches self.new ≡ watches self.old) }
        ensures same { OnErr result (next_watch self.new ≡ next_watch self.old) }
        ensures own { (parts : TableParts) → IsArmable parts unwatched → AreOf parts self.old → AreOf parts self.new }
        ensures order { AreInOrder self.old → AreInOrder self.new }
    {
        self.limit()?;
        let number = self.given + 1;
        self.watched.push(Watched {
            number,
            slots: unwatched.slots,
            instance: unwatched.instance,
            text: unwatched.text,
            traps: unwatched.traps,
        })?;
        self.given = number;
        Ok(number)
    }

    /// Arms a watch on a line, in an instance, of an expression. Gives its number, from 1 on, that of the one before and one.
    ///
    /// Refused, in this order: no statement is on the line; no instance of that path has one there; the text is no expression; a name of
    /// it has no value, or its widths do not fit, at a slot on the line that the instance has; 256 watches are armed, or the number
    /// 2^64 - 1 was given. After a refusal all is as before, and so it is for want of memory.
    pub fn arm(
        &mut self,
        table: &Table,
        line: u64,
        instance: &str,
        expr: &[u8],
    ) -> Result<u64, WatchFault>
        ensures armed { (read : Reader) (s : Samples) → IsReader read
            → Arms result (watch_on read (seen (trace_world table.now s)) (length (watches self.old))
            (next_watch self.old) line instance.now expr.now) (watches self.old) (watches self.new) }
        ensures next { OnOk result (next_watch self.new ≡ next_watch self.old + 1) }
        ensures kept { OnErr result (watches self.new ≡ watches self.old) }
        ensures same { OnErr result (next_watch self.new ≡ next_watch self.old) }
        ensures own { AreOf table.now self.old → AreOf table.now self.new }
        ensures order { AreInOrder self.old → AreInOrder self.new }
    {
        let unwatched = prepare_watch(self.alloc, table, line, instance, expr)?;
        self.commit(table, unwatched)
    }

    /// Whether a watch of this number is armed.
    fn has(&self, wp: u64) -> bool
        ensures { result ≡ list_any (is_number wp) self.now.watched.items }
    {
        for watched in &self.watched {
            if watched.number == wp {
                return true;
            }
        }
        false
    }

    /// Disarms the watch of this number. False exactly where no armed watch has it, and then all is as before. Takes no memory.
    pub fn disarm(&mut self, wp: u64) -> bool
        ensures told { result ≡ list_any (is_watch wp) (watches self.old) }
        ensures watches { watches self.new ≡ filter (λ watch. not (is_watch wp watch)) (watches self.old) }
        ensures kept { result ≡ false → watches self.new ≡ watches self.old }
        ensures next { next_watch self.new ≡ next_watch self.old }
        ensures own { (parts : TableParts) → AreOf parts self.old → AreOf parts self.new }
        ensures order { AreInOrder self.old → AreInOrder self.new }
    {
        let told = self.has(wp);
        self.watched.retain(|watched| watched.number != wp);
        told
    }
}
