//! The waves of an accepted design: compiled, simulated, written.

ghost use Rattle.std.specs.Prelude.{◌≡◌, ◌≤◌, None, OnOk, OnErr, IsErrOf, length};
ghost use Rattle.io_edge.specs.Faults.{Rose};
ghost use Rattle.io_edge.specs.Taken.{Appends, AppendsFront};
ghost use Rattle.design_core.specs.DesignView.{design_of};
ghost use Rattle.check_core.specs.Verdict.{verdict};
ghost use Rattle.place_core.specs.Orders.{TellsOrder};
ghost use Rattle.net_core.specs.Nets.{NetParts};
ghost use Rattle.symtab.specs.declared.parts.TableParts.{TableParts};
ghost use Rattle.trim_core.specs.Trimmed.{IsTrimmed};
ghost use Rattle.trim_core.specs.KeptNet.{kept_net};
ghost use Rattle.verilog_net.specs.Printing.{HasPorts};
ghost use Rattle.vcd_write.specs.Run.{waves_text};

use crate::SinkEnd;
use design_core::Design;
use design_net::{Compiled, compile};
use io_edge::Sink;
use lower_core::Mode;
use place_core::Order;
use std::alloc::Global;
use stim_text::Stim;
use trail_net::trace_of;
use vcd_write::write_vcd;

/// Writes the waves of an accepted design's run over the rows of a stimulus for its ports, as a value change dump file: the net of
/// exactly the trees that this mode keeps, with a clock and the outputs. Where it fails, the sink took a front of the text.
pub fn write_waves<S: Sink>(
    alloc: Global,
    design: &Design,
    order: &Order,
    mode: Mode,
    stim: Stim,
    out: &mut S,
) -> Result<(), SinkEnd>
    requires accepted { verdict (design_of design.now) ≡ None }
    requires order { TellsOrder (design_of design.now) order.now }
    requires ports { HasPorts (design_of design.now) stim.ports }
    ensures ok { OnOk result (Appends (S.taken out.old) (S.taken out.new) (waves_text (kept_net (design_of design.now) (length order.now) mode) stim)) }
    ensures front { OnErr result (AppendsFront (S.taken out.old) (S.taken out.new)
        (waves_text (kept_net (design_of design.now) (length order.now) mode) stim)) }
    ensures compiled { OnOk result ((net : NetParts) × (parts : TableParts) × IsTrimmed (design_of design.now) (length order.now) mode net parts) }
    ensures failed { IsErrOf result SinkEnd.Failed → Rose (S.fault_count out.old) (S.fault_count out.new) }
    ensures later { S.fault_count out.old ≤ S.fault_count out.new }
{
    let Compiled { net, table: _table } = compile(alloc, design, order, mode)?;
    let mut trace = trace_of(alloc, net, stim)?;
    write_vcd(alloc, &mut trace, out)
}
