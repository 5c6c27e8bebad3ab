//! Writes the text that goes with what was judged.

ghost use Rattle.std.specs.Prelude.{◌≡◌, ◌≤◌, OnOk, OnErr, IsErrOf, length, map};
ghost use Rattle.io_edge.specs.Faults.{Rose};
ghost use Rattle.io_edge.specs.Taken.{Appends, AppendsFront};
ghost use Rattle.vcd_trace.specs.Kept.{samples_of};
ghost use Rattle.replay_run.specs.Judged.{TakesText, TakesTextFront, TakesWalk, TakesWalkFront};

use crate::judge::Judged;
use crate::walk::Walk;
use batch_run::write_batch;
use io_edge::{Sink, SinkEnd};
use listen::Listener;
use std::alloc::Global;
use trace_judge::{table_line, trace_line};

/// Writes a line.
fn write_line<S: Sink>(line: &[u8], out: &mut S) -> Result<(), SinkEnd>
    ensures ok { OnOk result (Appends (S.taken out.old) (S.taken out.new) line.now) }
    ensures front { OnErr result (AppendsFront (S.taken out.old) (S.taken out.new) line.now) }
    ensures failed { IsErrOf result SinkEnd.Failed → Rose (S.fault_count out.old) (S.fault_count out.new) }
    ensures later { S.fault_count out.old ≤ S.fault_count out.new }
{
    out.put(line)?;
    Ok(())
}

/// Writes what a session puts out.
fn write_walk<S: Sink>(
    alloc: Global,
    walk: Walk,
    listeners: Vec<Box<dyn Listener>>,
    out: &mut S,
) -> Result<(), SinkEnd>
    requires few { length listeners.items ≤ 65536 }
    ensures ok { OnOk result (TakesWalk (map (λ b. heard b) listeners.items) walk.table (samples_of walk.trace) walk.requests.items (S.taken out.old)
        (S.taken out.new)) }
    ensures front { OnErr result (TakesWalkFront (map (λ b. heard b) listeners.items) walk.table (samples_of walk.trace) walk.requests.items
        (S.taken out.old) (S.taken out.new)) }
    ensures failed { IsErrOf result SinkEnd.Failed → Rose (S.fault_count out.old) (S.fault_count out.new) }
    ensures later { S.fault_count out.old ≤ S.fault_count out.new }
{
    let Walk {
        table,
        trace,
        requests,
    } = walk;
    write_batch(alloc, table, trace, listeners, &requests, out)
}

/// Writes the text that goes with what was judged.
pub(crate) fn write<S: Sink>(
    alloc: Global,
    judged: Judged,
    listeners: Vec<Box<dyn Listener>>,
    out: &mut S,
) -> Result<(), SinkEnd>
    requires few { length listeners.items ≤ 65536 }
    ensures ok { OnOk result (TakesText (map (λ b. heard b) listeners.items) judged (S.taken out.old) (S.taken out.new)) }
    ensures front { OnErr result (TakesTextFront (map (λ b. heard b) listeners.items) judged (S.taken out.old) (S.taken out.new)) }
    ensures failed { IsErrOf result SinkEnd.Failed → Rose (S.fault_count out.old) (S.fault_count out.new) }
    ensures later { S.fault_count out.old ≤ S.fault_count out.new }
{
    match judged {
        Judged::NoTable(fault) => write_line(&table_line(alloc, fault)?, out),
        Judged::NoTrace(fault) => write_line(&trace_line(alloc, &fault)?, out),
        Judged::NoRequests => write_line(b"requests fault 1 TooLong\n", out),
        Judged::Walked(walk) => write_walk(alloc, walk, listeners, out),
    }
}
