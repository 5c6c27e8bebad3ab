//! The trail of an accepted design: compiled, simulated, written.

ghost use Rattle.std.specs.Prelude.{◌≡◌, ◌≤◌, None, IfOk, OnOk, OnErr, IsErrOf, length};
ghost use Rattle.io_edge.specs.Faults.{Rose};
ghost use Rattle.design_core.specs.DesignView.{design_of};
ghost use Rattle.check_core.specs.Verdict.{verdict};
ghost use Rattle.place_core.specs.Orders.{TellsOrder};
ghost use Rattle.sim_hist.specs.Run.{InputsArePorts, new_trace};
ghost use Rattle.trim_laws.specs.Runs.{HasInputs};
ghost use Rattle.trail_net.specs.Taken.{TakesTrail, TakesTrailFront};

use crate::SinkEnd;
use design_core::Design;
use design_net::{Compiled, compile};
use io_edge::Sink;
use lower_core::Mode;
use net_core::Net;
use place_core::Order;
use sim_core::Simulator;
use sim_hist::SimTrace;
use std::alloc::Global;
use stim_text::Stim;
use text_core::NoMemory;

/// The trace of a net's run over the rows of a stimulus, with its cursor at the first cycle, if there is one.
pub fn trace_of(alloc: Global, net: Net, stim: Stim) -> Result<SimTrace, NoMemory>
    requires inputs { InputsArePorts net.nodes stim.ports }
    ensures ok { IfOk result (λ trace. trace ≡ new_trace net stim 0) }
{
    let simulator = Simulator::new(alloc, net)?;
    SimTrace::new(alloc, simulator, stim)
}

/// Writes the trail of an accepted design's run over the rows of a stimulus for its inputs: for each cycle and each executed
/// statement, in the order of slots, a line for each instance that executes it, in preorder. A name of which nothing was kept in
/// this mode is shown as removed.
pub fn write_trail<S: Sink>(
    alloc: Global,
    design: &Design,
    order: &Order,
    mode: Mode,
    stim: Stim,
    out: &mut S,
) -> Result<(), SinkEnd>
    requires accepted { verdict (design_of design.now) ≡ None }
    requires order { TellsOrder (design_of design.now) order.now }
    requires inputs { HasInputs (design_of design.now) stim.ports }
    ensures ok { OnOk result (TakesTrail (design_of design.now) (length order.now) mode stim.rows (S.taken out.old) (S.taken out.new)) }
    ensures front { OnErr result (TakesTrailFront (design_of design.now) (length order.now) mode stim.rows (S.taken out.old) (S.taken out.new)) }
    ensures failed { IsErrOf result SinkEnd.Failed → Rose (S.fault_count out.old) (S.fault_count out.new) }
    ensures later { S.fault_count out.old ≤ S.fault_count out.new }
{
    let Compiled { net, table } = compile(alloc, design, order, mode)?;
    let mut trace = trace_of(alloc, net, stim)?;
    trail_out::write_trail(alloc, &table, &mut trace, out)
}
