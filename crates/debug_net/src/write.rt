//! The output of a batch of requests over a design's run: compiled, simulated, and walked by a session.

ghost use Rattle.std.specs.Prelude.{◌≡◌, ◌≤◌, None, OnOk, OnErr, IsErrOf, length, map};
ghost use Rattle.io_edge.specs.Faults.{Rose};
ghost use Rattle.design_core.specs.DesignView.{design_of};
ghost use Rattle.check_core.specs.Verdict.{verdict};
ghost use Rattle.place_core.specs.Orders.{TellsOrder};
ghost use Rattle.net_core.specs.Nets.{NetParts};
ghost use Rattle.symtab.specs.declared.parts.TableParts.{TableParts};
ghost use Rattle.trim_core.specs.Trimmed.{IsTrimmed};
ghost use Rattle.trim_laws.specs.Runs.{HasInputs};
ghost use Rattle.debug_net.specs.Taken.{TakesSession, TakesSessionFront};

use crate::SinkEnd;
use batch_run::write_batch;
use design_core::Design;
use design_net::{Compiled, compile};
use io_edge::Sink;
use listen::Listener;
use lower_core::Mode;
use place_core::Order;
use std::alloc::Global;
use stim_text::Stim;
use trail_net::trace_of;

/// What a session walks and is asked: the rows of a stimulus, and the lines of its requests.
#[derive(Drop)]
pub struct Script<'a> {
    pub stim: Stim,
    pub requests: &'a [u8],
}

/// Writes what a session puts out over an accepted design's run over the rows of a stimulus for its inputs: a line for each request,
/// each of which is followed by turns until the session is idle; a line for each stop, end and start; up to the first `bye` that is
/// accepted; and then a line for each listener that remains. Where it fails, the sink took a front of the text.
pub fn write_session<S: Sink>(
    alloc: Global,
    design: &Design,
    order: &Order,
    mode: Mode,
    script: Script<'_>,
    listeners: Vec<Box<dyn Listener>>,
    out: &mut S,
) -> Result<(), SinkEnd>
    requires accepted { verdict (design_of design.now) ≡ None }
    requires order { TellsOrder (design_of design.now) order.now }
    requires inputs { HasInputs (design_of design.now) script.stim.ports }
    requires few { length listeners.items ≤ 65536 }
    ensures ok { OnOk result (TakesSession (design_of design.now) (length order.now) mode script.entry.stim.rows
        (map (λ b. heard b) listeners.items) script.entry.requests.now (S.taken out.old) (S.taken out.new)) }
    ensures front { OnErr result (TakesSessionFront (design_of design.now) (length order.now) mode script.entry.stim.rows
        (map (λ b. heard b) listeners.items) script.entry.requests.now (S.taken out.old) (S.taken out.new)) }
    ensures compiled { OnOk result ((net : NetParts) × (parts : TableParts) × IsTrimmed (design_of design.now) (length order.now) mode net parts) }
    ensures failed { IsErrOf result SinkEnd.Failed → Rose (S.fault_count out.old) (S.fault_count out.new) }
    ensures later { S.fault_count out.old ≤ S.fault_count out.new }
{
    let Script { stim, requests } = script;
    let Compiled { net, table } = compile(alloc, design, order, mode)?;
    let trace = trace_of(alloc, net, stim)?;
    write_batch(alloc, table, trace, listeners, requests, out)
}
