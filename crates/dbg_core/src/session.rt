//! A session: a table, a trace, the breakpoints and the watches that are armed, and where it stands; and its turns.

ghost use Rattle.std.specs.Prelude.{◌≡◌, ◌<◌, ◌≤◌, ◌+◌, ◌-◌, ℕ, List, Option, IfOk, IsTrue, map, nat_eq, option_map};
ghost use Rattle.std.specs.List.{list_any};
ghost use Rattle.trace_world.specs.Fitting.{FitsTable};
ghost use Rattle.slot_sched.specs.Armed.{AreOf};
ghost use Rattle.watch.specs.Watching as watching;
ghost use Rattle.site_core.specs.Positions.{total_of};

use crate::listeners::Listeners;
use crate::notices::{notice_of, watches_at};
use crate::position::{at_place, note_at, threads_in, total};
use crate::stops::values_in;
use machine_core::{At, Found, Motion, Notice, Shown, Turned};
use slot_sched::Schedule;
use std::alloc::Global;
use symtab::Table;
use text_core::{NoMemory, Text};
use trace_core::{Trace, Want, Way};
use watch::WatchList;

/// A turn looks at so many positions.
const REACH: u64 = 64;

/// A session over a table and a trace. It stands at a position, at the start before all of them, or at the end behind them, and runs
/// or is idle. Its listeners are handed to the calls that tell them.
#[derive(Drop)]
pub struct Session<T: Trace> {
    pub(crate) table: Table,
    pub(crate) trace: T,
    pub(crate) schedule: Schedule,
    pub(crate) watch: WatchList,
    pub(crate) place: u64,
    pub(crate) motion: Motion,
    pub(crate) ordinal: u64,
    pub(crate) alloc: Global,
    pub ghost fits: { FitsTable table (T.samples trace) },
    pub ghost within: { place ≤ total_of table (T.samples trace) + 1 },
    pub ghost own: { ∥ AreOf table schedule ∥₁ },
    pub ghost own_watches: { ∥ watching.AreOf table watch ∥₁ },
}

impl<T: Trace> Session<T> {
    ghost use Rattle.listen.specs.Pairs.{Heard};
    ghost use Rattle.machine_core.specs.declared.turn.Motion.TheVariants.{Running};
    ghost use Rattle.machine_core.specs.Machine.{Turn, opening, stopped_at, edge_turn, moved_turn, turn_of, is_running, threads_of, values_of};
    ghost use Rattle.machine_core.specs.Journal.{Ran, notices_of, watch_numbers, until_idle, told_lines};
    ghost use Rattle.machine_core.specs.Laws.{found_by};
    ghost use Rattle.machine_core.specs.Positions.{cycle_at, slot_at};
    ghost use Rattle.dbg_core.specs.World.{world_of};
    ghost use Rattle.dbg_core.specs.Answering.{left_ahead};
    ghost use Rattle.dbg_core.specs.Alone.{heard_after};
    ghost use Rattle.dbg_core.specs.State.{machine_of};

    /// A session at the start, idle, with no breakpoint, over a table and a trace that fits it. Takes no memory.
    pub fn new(alloc: Global, table: Table, trace: T) -> Session<T>
        requires { FitsTable table (T.samples trace) }
        ensures table { result.table ≡ table }
        ensures samples { T.samples result.trace ≡ T.samples trace }
        ensures opening { (heard : List Heard) → machine_of result (map (λ h. Some h) heard) ≡ opening heard }
    {
        Session {
            table,
            trace,
            schedule: Schedule::new(alloc),
            watch: WatchList::new(alloc),
            place: 0,
            motion: Motion::Idle,
            ordinal: 0,
            alloc,
        }
    }

    /// Its table. Takes no memory.
    pub fn table(&self) -> &Table
        ensures { result.now ≡ self.now.table }
    {
        &self.table
    }

    /// Whether it runs. Takes no memory.
    pub fn running(&self) -> bool
        ensures { result ≡ is_running self.now.motion }
    {
        matches!(&self.motion, Motion::Running(_, _))
    }

    /// Stops at a position. Each listener is still to be told.
    fn stop(&mut self, p: u64) -> Turned
        requires { p < total_of self.old.table (T.samples self.old.trace) }
        ensures table { self.new.table ≡ self.old.table }
        ensures samples { T.samples self.new.trace ≡ T.samples self.old.trace }
        ensures turn { (heard : List (Option Heard)) → (let turn : Turn = record {
          after = machine_of self.new
              (heard_after result heard);
          turned = result;
        } in turn)
            ≡ stopped_at (world_of self.old.table (T.samples self.old.trace)) (machine_of self.old heard) p }
    {
        let note = note_at(&self.table, &mut self.trace, &self.watch, p);
        self.place = p + 1;
        self.motion = Motion::Idle;
        Turned::Stopped(note)
    }

    /// Stops at the end or the start.
    fn stop_at_edge(&mut self, way: Way) -> Turned
        ensures table { self.new.table ≡ self.old.table }
        ensures samples { T.samples self.new.trace ≡ T.samples self.old.trace }
        ensures turn { (heard : List (Option Heard)) → (let turn : Turn = record {
          after = machine_of self.new
              (heard_after result heard);
          turned = result;
        } in turn)
            ≡ edge_turn (world_of self.old.table (T.samples self.old.trace)) way (machine_of self.old heard) }
    {
        self.motion = Motion::Idle;
        match way {
            Way::Forward => {
                self.place = total(&self.table, &self.trace) + 1;
                Turned::AtEnd
            }
            Way::Backward => {
                self.place = 0;
                Turned::AtStart
            }
        }
    }

    /// Goes on by as many positions as a turn looks at.
    fn move_on(&mut self, way: Way) -> Turned
        requires { 64 ≤ left_ahead (total_of self.old.table (T.samples self.old.trace)) way self.old.place }
        ensures table { self.new.table ≡ self.old.table }
        ensures samples { T.samples self.new.trace ≡ T.samples self.old.trace }
        ensures turn { (heard : List (Option Heard)) → (let turn : Turn = record {
          after = machine_of self.new
              (heard_after result heard);
          turned = result;
        } in turn) ≡ moved_turn way (machine_of self.old heard) }
    {
        match way {
            Way::Forward => self.place += REACH,
            Way::Backward => self.place -= REACH,
        }
        Turned::Moved
    }

    /// What searches from where it stands find: the nearer of one for breakpoints and one for watches, or that of one for a step.
    fn look(&mut self, way: Way, want: Want) -> Found
        ensures table { self.new.table ≡ self.old.table }
        ensures samples { T.samples self.new.trace ≡ T.samples self.old.trace }
        ensures state { (heard : List (Option Heard)) → machine_of self.new heard ≡ machine_of self.old heard }
        ensures value { (heard : List (Option Heard)) → result
            ≡ found_by (world_of self.old.table (T.samples self.old.trace)) (machine_of self.old heard) way want }
        ensures hit { (p : ℕ) → result ≡ Found.At p → p < total_of self.old.table (T.samples self.old.trace) }
    {
        let found = self
            .schedule
            .search(&self.table, &mut self.trace, self.place, way, want);
        match want {
            Want::Breakpoints => {
                let watched = self
                    .watch
                    .search(&self.table, &mut self.trace, self.place, way);
                Found::nearer(way, watched, found)
            }
            Want::Step(_) => found,
        }
    }

    /// A turn of a session that runs. Of a stop each listener is still to be told.
    fn run(&mut self, way: Way, want: Want) -> Turned
        requires { self.old.motion ≡ Running way want }
        ensures table { self.new.table ≡ self.old.table }
        ensures samples { T.samples self.new.trace ≡ T.samples self.old.trace }
        ensures turn { (heard : List (Option Heard)) → (let turn : Turn = record {
          after = machine_of self.new
              (heard_after result heard);
          turned = result;
        } in turn)
            ≡ turn_of (world_of self.old.table (T.samples self.old.trace)) (machine_of self.old heard) }
    {
        match self.look(way, want) {
            Found::At(p) => self.stop(p),
            Found::Edge => self.stop_at_edge(way),
            Found::Nowhere => self.move_on(way),
        }
    }

    /// One turn that tells no listener: of a stop each that remains is still to be told, by its note. An idle session does nothing. Takes no
    /// memory.
    #[tactic(auto, unfolding(machine_core::specs::Machine::turn_of))]
    pub fn turn_alone(&mut self) -> Turned
        ensures table { self.new.table ≡ self.old.table }
        ensures samples { T.samples self.new.trace ≡ T.samples self.old.trace }
        ensures turn { (heard : List (Option Heard)) → (let turn : Turn = record {
          after = machine_of self.new
              (heard_after result heard);
          turned = result;
        } in turn)
            ≡ turn_of (world_of self.old.table (T.samples self.old.trace)) (machine_of self.old heard) }
    {
        match self.motion {
            Motion::Idle => Turned::Idle,
            Motion::Running(way, want) => self.run(way, want),
        }
    }

    /// One turn. An idle session does nothing. One that runs looks at the next 64 positions: it stops at the nearest that matches, and
    /// tells each listener that remains; else at the end or the start, if that comes before; else it stands 64 positions further. Takes
    /// no memory.
    pub fn turn(&mut self, listeners: &mut Listeners) -> Turned
        ensures table { self.new.table ≡ self.old.table }
        ensures samples { T.samples self.new.trace ≡ T.samples self.old.trace }
        ensures turn { (let turn : Turn = record {
          after = machine_of self.new
              (map (option_map (λ b. heard b)) listeners.new.boxes.items);
          turned = result;
        } in turn)
            ≡ turn_of (world_of self.old.table (T.samples self.old.trace))
            (machine_of self.old (map (option_map (λ b. heard b)) listeners.old.boxes.items)) }
    {
        let turned = self.turn_alone();
        match &turned {
            Turned::Stopped(note) => listeners.tell(note),
            Turned::Idle | Turned::Moved | Turned::AtEnd | Turned::AtStart => {}
        }
        turned
    }

    /// Turns until it is idle. Gives what the last of them did: all before it only moved. `Idle` where it did not run. Takes no memory.
    pub fn settle(&mut self, listeners: &mut Listeners) -> Turned
        ensures table { self.new.table ≡ self.old.table }
        ensures samples { T.samples self.new.trace ≡ T.samples self.old.trace }
        ensures ran { (let ran : Ran = record {
          after = machine_of self.new
              (map (option_map (λ b. heard b)) listeners.new.boxes.items);
          lines = notices_of (world_of self.old.table (T.samples self.old.trace))
              (machine_of self.new (map (option_map (λ b. heard b)) listeners.new.boxes.items)) result;
        } in ran)
            ≡ until_idle (world_of self.old.table (T.samples self.old.trace))
            (machine_of self.old (map (option_map (λ b. heard b)) listeners.old.boxes.items)) }
    {
        loop {
            let turned = self.turn(listeners);
            if turned != Turned::Moved {
                return turned;
            }
        }
    }

    /// The instances that are threads at the position, in preorder; none at the start or the end.
    pub fn threads(&mut self) -> Result<Vec<u32>, NoMemory>
        ensures table { self.new.table ≡ self.old.table }
        ensures samples { T.samples self.new.trace ≡ T.samples self.old.trace }
        ensures state { (heard : List (Option Heard)) → machine_of self.new heard ≡ machine_of self.old heard }
        ensures threads { IfOk result (λ threads. threads.items ≡ threads_of (world_of self.old.table (T.samples self.old.trace)) self.old.place) }
    {
        match at_place(&self.table, &self.trace, self.place) {
            At::Position { cycle, slot } => {
                threads_in(self.alloc, &self.table, &mut self.trace, cycle, slot)
            }
            At::Start | At::End => Ok(Vec::new(self.alloc)),
        }
    }

    /// The names in scope at the position, in order, with what is shown of each in an instance that is a thread there.
    pub fn values(&mut self, instance: u32) -> Result<Vec<(Text, Shown)>, NoMemory>
        requires { IsTrue (list_any (nat_eq instance) (threads_of (world_of self.old.table (T.samples self.old.trace)) self.old.place)) }
        ensures table { self.new.table ≡ self.old.table }
        ensures samples { T.samples self.new.trace ≡ T.samples self.old.trace }
        ensures state { (heard : List (Option Heard)) → machine_of self.new heard ≡ machine_of self.old heard }
        ensures values { IfOk result (λ values. values.items ≡ values_of (world_of self.old.table (T.samples self.old.trace)) self.old.place instance) }
    {
        match at_place(&self.table, &self.trace, self.place) {
            At::Position { cycle, slot } => {
                self.trace.seek(cycle);
                values_in(self.alloc, &self.table, &self.trace, slot, instance)
            }
            At::Start | At::End => Ok(Vec::new(self.alloc)),
        }
    }

    /// The numbers of the armed watches that match at the position, rising.
    pub fn watches(&mut self) -> Result<Vec<u64>, NoMemory>
        requires start { 0 < self.old.place }
        requires end { self.old.place ≤ total_of self.old.table (T.samples self.old.trace) }
        ensures table { self.new.table ≡ self.old.table }
        ensures samples { T.samples self.new.trace ≡ T.samples self.old.trace }
        ensures state { (heard : List (Option Heard)) → machine_of self.new heard ≡ machine_of self.old heard }
        ensures numbers { IfOk result (λ numbers. (heard : List (Option Heard))
            → numbers.items ≡ watch_numbers (world_of self.old.table (T.samples self.old.trace)) (machine_of self.old heard)
            (cycle_at (world_of self.old.table (T.samples self.old.trace)) (self.old.place - 1))
            (slot_at (world_of self.old.table (T.samples self.old.trace)) (self.old.place - 1))) }
    {
        match at_place(&self.table, &self.trace, self.place) {
            At::Position { cycle, slot } => {
                watches_at(
                    self.alloc,
                    &self.table,
                    &mut self.trace,
                    &self.watch,
                    cycle,
                    slot,
                )
            }
            At::Start | At::End => Ok(Vec::new(self.alloc)),
        }
    }

    /// What is told of a turn that was just made: of a stop the generator variables at its statement, the paths of its threads and the numbers of
    /// the watches that match; nothing
    /// of a turn that only moved, or did nothing.
    pub fn notice(&mut self, turned: Turned) -> Result<Option<Notice>, NoMemory>
        ensures table { self.new.table ≡ self.old.table }
        ensures samples { T.samples self.new.trace ≡ T.samples self.old.trace }
        ensures state { (heard : List (Option Heard)) → machine_of self.new heard ≡ machine_of self.old heard }
        ensures lines { IfOk result (λ notice. (heard : List (Option Heard))
            → told_lines notice ≡ notices_of (world_of self.old.table (T.samples self.old.trace)) (machine_of self.old heard) turned) }
    {
        notice_of(
            self.alloc,
            &self.table,
            &mut self.trace,
            &self.watch,
            turned,
        )
    }
}
