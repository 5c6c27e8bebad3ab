//! How breakpoints are armed and disarmed. Which of them may wait at a slot is brought up to date with each, where one waits. One is armed in two steps:
//! what it waits for is prepared, and then put behind the others under the next number. So whoever tells of it takes the memory for
//! that between the two, and nothing that is armed is ever taken back.

ghost use Rattle.std.specs.Prelude.{◌≡◌, ◌<◌, ◌+◌, ◌-◌, ◌/◌, not, true, false, List, [], ◌∷◌, ◌++◌, length, filter, slice_get, option_map, Some, IfOk, OnOk, OnErr};
ghost use Rattle.std.specs.List.{list_any};
ghost use Rattle.list_core.specs.Lists.{from};
ghost use Rattle.symtab.specs.declared.parts.TableParts.{TableParts};
ghost use Rattle.world_core.specs.Seen.{seen};
ghost use Rattle.trace_world.specs.TraceWorld.{trace_world};
ghost use Rattle.machine_core.specs.Machine.{has_number};
ghost use Rattle.machine_core.specs.Matching.{Breakpoint};
ghost use Rattle.machine_core.specs.Arming.{limit_refusal, breakpoint_on};
ghost use Rattle.machine_core.specs.Reading.{Reader, IsReader};
ghost use Rattle.trace_core.specs.Samples.{Samples};
ghost use Rattle.slot_sched.specs.Arm.{Arms, TellsNone, as_breakpoint, IsArmable};
ghost use Rattle.slot_sched.specs.Armed.{breakpoints, next_number, is_number, AreOf, AreInOrder, IsAsBefore};

use crate::arm::prepare;
use crate::armed::Armed;
use crate::fault::ArmFault;
use crate::schedule::Schedule;
use crate::spans::{grown, refill, vacate, widen_last};
use site_core::Sited;
use std::alloc::Global;
use symtab::Table;

/// So many breakpoints are armed at most.
const MOST_ARMED: usize = 1024;

impl Schedule {
    /// No breakpoints. Takes no memory.
    pub fn new(alloc: Global) -> Schedule
        ensures breakpoints { breakpoints result ≡ [] }
        ensures next { next_number result ≡ 1 }
        ensures own { (parts : TableParts) → AreOf parts result }
        ensures order { AreInOrder result }
    {
        Schedule {
            armed: Vec::new(alloc),
            given: 0,
            alloc,
            spans: Vec::new(alloc),
        }
    }

    /// The number of the breakpoint at this place, counted from 0: the numbers rise, in the order in which they were armed. None
    /// exactly where no more are armed. Takes no memory.
    pub fn armed(&self, i: usize) -> Option<u64>
        ensures { result ≡ option_map (λ b. b.number) (slice_get (breakpoints self.now) i) }
    {
        let armed = self.armed.get(i)?;
        Some(armed.number)
    }

    /// The slots of the breakpoint at this place, counted from 0, rising. None exactly where no more are armed. Takes no memory.
    pub fn slots(&self, i: usize) -> Option<&[u32]>
        ensures { option_map (λ s. s.now) result ≡ option_map (λ b. b.slots) (slice_get (breakpoints self.now) i) }
    {
        let armed = self.armed.get(i)?;
        Some(&armed.slots)
    }

    /// How many breakpoints are armed. Takes no memory.
    pub fn len(&self) -> usize
        ensures { result ≡ length (breakpoints self.now) }
    {
        self.armed.len()
    }

    /// That no breakpoint more is armed, where so many are armed or the last number was given.
    fn limit(&self) -> Result<(), ArmFault>
        ensures tells { TellsNone result (limit_refusal (length (breakpoints self.now)) (next_number self.now)) }
        ensures few { IfOk result (λ _. length self.now.armed.items < 1024) }
    {
        if self.armed.len() >= MOST_ARMED {
            return Err(ArmFault::TooMany {
                limit: MOST_ARMED as u64,
            });
        }
        if self.given == u64::MAX {
            return Err(ArmFault::TooMany { limit: u64::MAX });
        }
        Ok(())
    }

    /// Arms under the next number what was prepared from this table. Gives that number, from 1 on, that of the one before and one.
    ///
    /// Refused where 1,024 breakpoints are armed, or the number 2^64 - 1 was given. After a refusal all is as before, and so it is for want
    /// of memory.
    pub fn commit(&mut self, table: &Table, unarmed: Sited) -> Result<u64, ArmFault>
        requires armable { IsArmable table.now unarmed }
        ensures made { IfOk result (λ number. number ≡ next_number self.old) }
        ensures breakpoints { OnOk result (breakpoints self.new ≡ breakpoints self.old ++ as_breakpoint (next_number self.old) unarmed ∷ []) }
        ensures next { OnOk result (next_number self.new ≡ next_number self.old + 1) }
        ensures refused { TellsNone result (limit_refusal (length (breakpoints self.old)) (next_number self.old)) }
        ensures kept { OnErr result (IsAsBefore self.old self.new) }
        ensures own { (parts : TableParts) → IsArmable parts unarmed → AreOf parts self.old → AreOf parts self.new }
        ensures order { AreInOrder self.old → AreInOrder self.new }
    {
        self.limit()?;
        grown(&mut self.spans, table.slots())?;
        let number = self.given + 1;
        self.armed.push(Armed {
            number,
            slots: unarmed.slots,
            instance: unarmed.instance,
            text: unarmed.text,
            traps: unarmed.traps,
        })?;
        widen_last(&mut self.spans, &self.armed);
        self.given = number;
        Ok(number)
    }

    /// Arms a breakpoint on a line: in one instance alone, if a path is given; where a condition holds, if a text is given. Gives its
    /// number, from 1 on, that of the one before and one.
    ///
    /// Refused, in this order: no statement is on the line; no instance of that path has one there; the text is no condition; a
    /// name of it has no value, or its widths do not fit, at a slot of an instance that it would wait at; 1,024 breakpoints are armed,
    /// or the number 2^64 - 1 was given. After a refusal all is as before, and so it is for want of memory.
    pub fn arm(
        &mut self,
        table: &Table,
        line: u64,
        instance: Option<&str>,
        cond: Option<&[u8]>,
    ) -> Result<u64, ArmFault>
        ensures armed { (read : Reader) (s : Samples) → IsReader read
            → Arms result (breakpoint_on read (seen (trace_world table.now s)) (length (breakpoints self.old)) (next_number self.old) line
            (option_map (λ p. p.now) instance.entry) (option_map (λ t. t.now) cond.entry)) (breakpoints self.old) (breakpoints self.new) }
        ensures next { OnOk result (next_number self.new ≡ next_number self.old + 1) }
        ensures kept { OnErr result (IsAsBefore self.old self.new) }
        ensures own { AreOf table.now self.old → AreOf table.now self.new }
        ensures order { AreInOrder self.old → AreInOrder self.new }
    {
        let unarmed = prepare(self.alloc, table, line, instance, cond)?;
        self.commit(table, unarmed)
    }

    /// Whether a breakpoint of this number is armed.
    fn has(&self, bp: u64) -> bool
        ensures { result ≡ list_any (is_number bp) self.now.armed.items }
    {
        for armed in &self.armed {
            if armed.number == bp {
                return true;
            }
        }
        false
    }

    /// Disarms the breakpoint of this number. False exactly where no armed breakpoint has it, and then all is as before. Takes no
    /// memory.
    pub fn disarm(&mut self, bp: u64) -> bool
        ensures told { result ≡ list_any (has_number bp) (breakpoints self.old) }
        ensures breakpoints { breakpoints self.new ≡ filter (λ b. not (has_number bp b)) (breakpoints self.old) }
        ensures kept { result ≡ false → breakpoints self.new ≡ breakpoints self.old }
        ensures next { next_number self.new ≡ next_number self.old }
        ensures own { (parts : TableParts) → AreOf parts self.old → AreOf parts self.new }
        ensures order { AreInOrder self.old → AreInOrder self.new }
    {
        if !self.has(bp) {
            return false;
        }
        vacate(&mut self.spans, &self.armed);
        self.armed.retain(|armed| armed.number != bp);
        refill(&mut self.spans, &self.armed);
        true
    }
}
