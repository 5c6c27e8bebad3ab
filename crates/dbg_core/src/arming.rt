//! How a breakpoint or a watch is armed for a request, and what is answered. Its answer is made before it is armed, so nothing is armed for which
//! the answer finds no memory.

ghost use Rattle.std.specs.Prelude.{◌≡◌, Some, IfOk, OnErr, length, map, option_map};
ghost use Rattle.trace_core.specs.Samples.{Samples};
ghost use Rattle.machine_core.specs.Arming.{breakpoint_on, limit_refusal, watch_on, watch_limit, unless_refused};
ghost use Rattle.machine_core.specs.Reading.{Reader, IsReader};
ghost use Rattle.site_core.specs.Sites.{site_answer};
ghost use Rattle.slot_sched.specs.Arm.{answer_for, as_breakpoint, IsArmable};
ghost use Rattle.slot_sched.specs.Armed.{breakpoints, next_number, AreOf};
ghost use Rattle.dbg_core.specs.World.{world_of};
ghost use Rattle.watch.specs.Arm as watch_arm;
ghost use Rattle.watch.specs.Watching as watching;
ghost use Rattle.dbg_core.specs.Answering.{broken, watched};

use machine_core::Body;
use site_core::{SiteFault, Sited};
use slot_sched::{ArmFault, Schedule, prepare};
use std::alloc::Global;
use symtab::Table;
use text_core::{Listed, NoMemory};
use watch::{Unwatched, WatchFault, WatchList, prepare_watch};

/// What is answered where nothing was found to wait for.
fn unsited(fault: SiteFault) -> Result<Body, NoMemory>
    ensures { IfOk result (λ body. site_answer fault ≡ Some body) }
{
    match fault {
        SiteFault::NoSite { line } => Ok(Body::NoSite { line }),
        SiteFault::NoInstance { instance } => Ok(Body::NoInstance { instance }),
        SiteFault::BadCondAt { offset } => Ok(Body::BadCondAt { offset }),
        SiteFault::BadCondName { name } => Ok(Body::BadCondName { name }),
        SiteFault::CondRemoved { name, slot } => Ok(Body::CondRemoved { name, slot }),
        SiteFault::CondUnset { name, slot } => Ok(Body::CondUnset { name, slot }),
        SiteFault::NoMemory => Err(NoMemory),
    }
}

/// What is answered where no breakpoint was armed.
fn refusal(fault: ArmFault) -> Result<Body, NoMemory>
    ensures { IfOk result (λ body. answer_for fault ≡ Some body) }
{
    match fault {
        ArmFault::Site(fault) => unsited(fault),
        ArmFault::TooMany { limit } => Ok(Body::TooMany { limit }),
    }
}

/// Arms what was prepared. Gives what is answered, a refusal too. For want of memory all is as before.
fn commit_asked(
    alloc: Global,
    schedule: &mut Schedule,
    table: &Table,
    unarmed: Sited,
) -> Result<Body, NoMemory>
    requires armable { IsArmable table.now unarmed }
    ensures body { IfOk result (λ body. (breakpoints schedule.new, next_number schedule.new, body)
        ≡ broken (unless_refused (limit_refusal (length (breakpoints schedule.old)) (next_number schedule.old))
        (as_breakpoint (next_number schedule.old) unarmed)) (breakpoints schedule.old) (next_number schedule.old)) }
    ensures kept { OnErr result (breakpoints schedule.new ≡ breakpoints schedule.old) }
    ensures same { OnErr result (next_number schedule.new ≡ next_number schedule.old) }
    ensures own { AreOf table.now schedule.old → AreOf table.now schedule.new }
{
    let slots = Listed::new(unarmed.slots().to_vec(alloc)?);
    match schedule.commit(table, unarmed) {
        Ok(bp) => Ok(Body::Break { bp, slots }),
        Err(limit) => refusal(limit),
    }
}

/// Arms a breakpoint on a line: in one instance alone, if a path is given; where a condition holds, if a text is given. Gives what is
/// answered, a refusal too. For want of memory all is as before.
pub(crate) fn break_asked(
    alloc: Global,
    schedule: &mut Schedule,
    table: &Table,
    line: u64,
    path: Option<&str>,
    text: Option<&[u8]>,
) -> Result<Body, NoMemory>
    ensures body { (read : Reader) (s : Samples) → IsReader read
        → IfOk result (λ body. (breakpoints schedule.new, next_number schedule.new, body)
        ≡ broken (breakpoint_on read (world_of table.now s) (length (breakpoints schedule.old)) (next_number schedule.old) line
        (option_map (λ p. p.now) path.entry) (option_map (λ t. t.now) text.entry)) (breakpoints schedule.old) (next_number schedule.old)) }
    ensures kept { OnErr result (breakpoints schedule.new ≡ breakpoints schedule.old) }
    ensures same { OnErr result (next_number schedule.new ≡ next_number schedule.old) }
    ensures own { AreOf table.now schedule.old → AreOf table.now schedule.new }
{
    match prepare(alloc, table, line, path, text) {
        Ok(unarmed) => commit_asked(alloc, schedule, table, unarmed),
        Err(fault) => refusal(fault),
    }
}

/// The numbers of the breakpoints that are armed, rising.
pub(crate) fn numbers_of(alloc: Global, schedule: &Schedule) -> Result<Vec<u64>, NoMemory>
    ensures { IfOk result (λ numbers. numbers.items ≡ map (λ b. b.number) (breakpoints schedule.now)) }
{
    let mut numbers = Vec::new(alloc);
    for i in 0..schedule.len() {
        if let Some(number) = schedule.armed(i) {
            numbers.push(number)?;
        }
    }
    Ok(numbers)
}

/// What is answered where no watch was armed.
fn unwatched(fault: WatchFault) -> Result<Body, NoMemory>
    ensures { IfOk result (λ body. watch_arm.watch_answer fault ≡ Some body) }
{
    match fault {
        WatchFault::Site(fault) => unsited(fault),
        WatchFault::TooManyWatches { limit } => Ok(Body::TooManyWatches { limit }),
    }
}

/// Arms the watch that was prepared. Gives what is answered, a refusal too. For want of memory all is as before.
fn commit_watch(
    alloc: Global,
    list: &mut WatchList,
    table: &Table,
    found: Unwatched,
) -> Result<Body, NoMemory>
    requires armable { watch_arm.IsArmable table.now found }
    ensures body { IfOk result (λ body. (watching.watches list.new, watching.next_watch list.new, body)
        ≡ watched (unless_refused (watch_limit (length (watching.watches list.old)) (watching.next_watch list.old))
        (watch_arm.as_watch (watching.next_watch list.old) found)) (watching.watches list.old) (watching.next_watch list.old)) }
    ensures kept { OnErr result (watching.watches list.new ≡ watching.watches list.old) }
    ensures same { OnErr result (watching.next_watch list.new ≡ watching.next_watch list.old) }
    ensures own { watching.AreOf table.now list.old → watching.AreOf table.now list.new }
{
    let slots = Listed::new(found.slots().to_vec(alloc)?);
    match list.commit(table, found) {
        Ok(wp) => Ok(Body::Watch { slots, wp }),
        Err(limit) => unwatched(limit),
    }
}

/// Arms a watch on a line, in an instance, of an expression. Gives what is answered, a refusal too. For want of memory all is as before.
pub(crate) fn watch_asked(
    alloc: Global,
    list: &mut WatchList,
    table: &Table,
    line: u64,
    path: &str,
    text: &[u8],
) -> Result<Body, NoMemory>
    ensures body { (read : Reader) (s : Samples) → IsReader read
        → IfOk result (λ body. (watching.watches list.new, watching.next_watch list.new, body)
        ≡ watched (watch_on read (world_of table.now s) (length (watching.watches list.old)) (watching.next_watch list.old) line path.now text.now)
        (watching.watches list.old) (watching.next_watch list.old)) }
    ensures kept { OnErr result (watching.watches list.new ≡ watching.watches list.old) }
    ensures same { OnErr result (watching.next_watch list.new ≡ watching.next_watch list.old) }
    ensures own { watching.AreOf table.now list.old → watching.AreOf table.now list.new }
{
    match prepare_watch(alloc, table, line, path, text) {
        Ok(found) => commit_watch(alloc, list, table, found),
        Err(fault) => unwatched(fault),
    }
}
