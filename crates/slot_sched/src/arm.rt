//! What a breakpoint is armed for, and why it is refused: the first of the two steps in which one is armed. It changes nothing.

ghost use Rattle.std.specs.Prelude.{ℕ, IfOk, option_map};
ghost use Rattle.machine_core.specs.Arming.{breakpoint_on};
ghost use Rattle.machine_core.specs.Reading.{Reader, IsReader};
ghost use Rattle.world_core.specs.Seen.{seen};
ghost use Rattle.trace_core.specs.Samples.{Samples};
ghost use Rattle.trace_world.specs.TraceWorld.{trace_world};
ghost use Rattle.slot_sched.specs.Arm.{IsFor, IsArmable};

use crate::fault::ArmFault;
use site_core::{Sited, sited_on};
use std::alloc::Global;
use symtab::Table;

/// What is armed as a breakpoint, but for its number: its text is a condition, which is a bit. Or why nothing is, in the order in which
/// `Schedule::arm` refuses, but for the number of those that are armed.
pub fn prepare(
    alloc: Global,
    table: &Table,
    line: u64,
    path: Option<&str>,
    cond: Option<&[u8]>,
) -> Result<Sited, ArmFault>
    ensures told { (read : Reader) (s : Samples) (armed next : ℕ) → IsReader read
        → IsFor armed next result (breakpoint_on read (seen (trace_world table.now s)) armed next line (option_map (λ p. p.now) path.entry)
        (option_map (λ t. t.now) cond.entry)) }
    ensures armable { IfOk result (IsArmable table.now) }
{
    let found = sited_on(alloc, table, line, path, cond, true)?;
    Ok(found)
}
