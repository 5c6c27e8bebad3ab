//! What a session over a design's run counts: compiled, simulated, and walked.

ghost use Rattle.std.specs.Prelude.{◌≡◌, ◌≤◌, None, IfOk, length, map};
ghost use Rattle.design_core.specs.DesignView.{design_of};
ghost use Rattle.check_core.specs.Verdict.{verdict};
ghost use Rattle.place_core.specs.Orders.{TellsOrder};
ghost use Rattle.symtab.specs.declared.parts.TableParts.{TableParts};
ghost use Rattle.trace_world.specs.TraceWorld.{trace_world};
ghost use Rattle.trace_world.specs.Fitting.{FitsTable};
ghost use Rattle.trim_laws.specs.Runs.{HasInputs};
ghost use Rattle.demo_run.specs.Session.{TellsTrace, TellsSession};

use crate::count::count_batch;
use crate::line::Summary;
use dbg_core::{Listeners, Session};
use design_core::Design;
use design_net::{Compiled, compile};
use listen::Listener;
use place_core::Order;
use std::alloc::Global;
use stim_text::Stim;
use symtab::Table;
use text_core::NoMemory;
use trace_core::Trace;
use trail_net::trace_of;
use world_core::Mode;

/// What a session walks and is asked: the rows of a stimulus, and the lines of its requests.
#[derive(Drop)]
pub(crate) struct Script<'a> {
    pub(crate) stim: Stim,
    pub(crate) requests: &'a [u8],
}

/// How many instances a table has.
fn instances_of(table: &Table) -> u64
    ensures { result ≡ length table.now.instances }
{
    table.parts().instances.items().len() as u64
}

/// What a session over a table and a trace that fits it counts.
fn count_trace<T: Trace + Drop>(
    alloc: Global,
    table: Table,
    trace: T,
    listeners: Vec<Box<dyn Listener>>,
    requests: &[u8],
) -> Result<Summary, NoMemory>
    requires fits { FitsTable table (T.samples trace) }
    requires few { length listeners.items ≤ 65536 }
    requires short { length requests.now ≤ 16777216 }
    ensures { IfOk result (TellsTrace (trace_world table (T.samples trace)) (map (λ b. heard b) listeners.items) requests.now) }
{
    let instances = instances_of(&table);
    let slots = u64::from(table.slots());
    let listeners = Listeners::new(alloc, listeners)?;
    let session = Session::new(alloc, table, trace);
    let counts = count_batch(alloc, session, listeners, requests)?;
    Ok(Summary {
        instances,
        slots,
        counts,
    })
}

/// What a session over an accepted design's run over the rows of a stimulus for its inputs counts as it answers requests of at most
/// 16 MiB.
pub(crate) fn count_session(
    alloc: Global,
    design: &Design,
    order: &Order,
    mode: Mode,
    script: Script<'_>,
    listeners: Vec<Box<dyn Listener>>,
) -> Result<Summary, NoMemory>
    requires accepted { verdict (design_of design.now) ≡ None }
    requires order { TellsOrder (design_of design.now) order.now }
    requires inputs { HasInputs (design_of design.now) script.stim.ports }
    requires few { length listeners.items ≤ 65536 }
    requires short { length script.requests.now ≤ 16777216 }
    ensures { IfOk result (TellsSession (design_of design.now) (length order.now) mode script.entry.stim.rows
        (map (λ b. heard b) listeners.items) script.entry.requests.now) }
{
    let Script { stim, requests } = script;
    let Compiled { net, table } = compile(alloc, design, order, mode)?;
    let trace = trace_of(alloc, net, stim)?;
    count_trace(alloc, table, trace, listeners, requests)
}
