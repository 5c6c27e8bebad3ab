//! A batch over a table and a trace, from the start of a session.

ghost use Rattle.std.specs.Prelude.{◌≤◌, OnOk, OnErr, IsErrOf, length, map};
ghost use Rattle.io_edge.specs.Faults.{Rose};
ghost use Rattle.trace_world.specs.TraceWorld.{trace_world};
ghost use Rattle.trace_world.specs.Fitting.{FitsTable};
ghost use Rattle.batch_run.specs.Batch.{TakesOutput, TakesOutputFront};

use crate::SinkEnd;
use crate::batch::run_batch;
use dbg_core::{Listeners, Session};
use io_edge::Sink;
use listen::Listener;
use std::alloc::Global;
use symtab::Table;
use trace_core::Trace;

/// Writes what a session over a table and a trace that fits it puts out for the lines of requests, with these listeners, at most 65,536:
/// a line for each request, each of which is followed by turns until the session is idle; a line for each stop, end and start; up to the
/// first `bye` that is accepted; and then a line for each listener that remains. Where it fails, the sink took a front of the text.
pub fn write_batch<T: Trace + Drop, S: Sink>(
    alloc: Global,
    table: Table,
    trace: T,
    listeners: Vec<Box<dyn Listener>>,
    requests: &[u8],
    out: &mut S,
) -> Result<(), SinkEnd>
    requires fits { FitsTable table (T.samples trace) }
    requires few { length listeners.items ≤ 65536 }
    ensures ok { OnOk result (TakesOutput (trace_world table (T.samples trace)) (map (λ b. heard b) listeners.items) requests.now (S.taken out.old)
        (S.taken out.new)) }
    ensures front { OnErr result (TakesOutputFront (trace_world table (T.samples trace)) (map (λ b. heard b) listeners.items) requests.now
        (S.taken out.old) (S.taken out.new)) }
    ensures failed { IsErrOf result SinkEnd.Failed → Rose (S.fault_count out.old) (S.fault_count out.new) }
    ensures later { S.fault_count out.old ≤ S.fault_count out.new }
{
    let listeners = Listeners::new(alloc, listeners)?;
    let session = Session::new(alloc, table, trace);
    run_batch(alloc, session, listeners, requests, out)
}
