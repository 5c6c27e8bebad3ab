//! The loop of a batch: a line, its request, what the session makes of it, the stop that it tells.

ghost use Rattle.std.specs.Prelude.{◌≡◌, ◌≤◌, IfOk, map, option_map, length};
ghost use Rattle.machine_core.specs.declared.turn.Motion.TheVariants.{Idle};
ghost use Rattle.machine_core.specs.Reading.{Reader, IsReader};
ghost use Rattle.dbg_core.specs.World.{world_of};
ghost use Rattle.dbg_core.specs.State.{machine_of};
ghost use Rattle.batch_run.specs.Texts.{requests_of};
ghost use Rattle.demo_run.specs.Stops.{batch_stops};
ghost use Rattle.demo_run.specs.Answers.{Counted};

use crate::tally::Counts;
use batch_run::{asked_in, left, next_line};
use dbg_core::{Listeners, Session};
use std::alloc::Global;
use text_core::NoMemory;
use trace_core::Trace;

/// Applies the requests of a batch, of at most 16 MiB, to an idle session, a line each, and counts the stops that it reaches: each
/// request is followed by turns until the session is idle, up to the first `bye` that is accepted.
pub(crate) fn count_batch<T: Trace + Drop>(
    alloc: Global,
    session: Session<T>,
    listeners: Listeners,
    requests: &[u8],
) -> Result<Counts, NoMemory>
    requires idle { session.motion ≡ Idle }
    requires short { length requests.now ≤ 16777216 }
    ensures { IfOk result (λ counts. (read : Reader) → IsReader read
        → Counted (batch_stops read (world_of session.table (T.samples session.trace)) (requests_of requests.now)
        (machine_of session (map (option_map (λ b. heard (b.vtable, b.value))) listeners.boxes.items))) counts) }
{
    let mut session = Box::new(alloc, session)?;
    let mut listeners = listeners;
    let mut counts = Counts::none();
    let mut rest = requests;
    while let Some((line, behind)) = next_line(rest) {
        let asked = asked_in(alloc, line)?;
        let answered = session.answer(&asked, &mut listeners)?;
        counts = counts.with(&answered);
        rest = left(&answered, behind);
    }
    Ok(counts)
}
