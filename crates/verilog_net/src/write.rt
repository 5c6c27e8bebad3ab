//! An accepted design as a module of Verilog: compiled, and printed with the ports of its top.

ghost use Rattle.std.specs.Prelude.{◌≡◌, ◌≤◌, None, OnOk, OnErr, IsErrOf, length};
ghost use Rattle.io_edge.specs.Faults.{Rose};
ghost use Rattle.io_edge.specs.Taken.{Appends, AppendsFront};
ghost use Rattle.design_core.specs.DesignView.{design_of};
ghost use Rattle.check_core.specs.Verdict.{verdict};
ghost use Rattle.place_core.specs.Orders.{TellsOrder};
ghost use Rattle.verilog_out.specs.Printed.{printed};
ghost use Rattle.trim_core.specs.KeptNet.{kept_net};
ghost use Rattle.verilog_net.specs.Printing.{HasPorts};

use design_core::{Design, Ports};
use design_net::compile;
use io_edge::{Sink, SinkEnd};
use lower_core::Mode;
use place_core::Order;
use std::alloc::Global;
use verilog_out::print_net;

/// Writes an accepted design as a Verilog module with the ports of its top: the net of exactly the trees that this mode keeps.
/// Where it fails, the sink took a front of the text.
pub fn write_verilog<S: Sink>(
    alloc: Global,
    design: &Design,
    order: &Order,
    mode: Mode,
    ports: &Ports,
    out: &mut S,
) -> Result<(), SinkEnd>
    requires accepted { verdict (design_of design.now) ≡ None }
    requires order { TellsOrder (design_of design.now) order.now }
    requires ports { HasPorts (design_of design.now) ports.now }
    ensures ok { OnOk result (Appends (S.taken out.old) (S.taken out.new) (printed (kept_net (design_of design.now) (length order.now) mode) ports.now)) }
    ensures front { OnErr result (AppendsFront (S.taken out.old) (S.taken out.new)
        (printed (kept_net (design_of design.now) (length order.now) mode) ports.now)) }
    ensures failed { IsErrOf result SinkEnd.Failed → Rose (S.fault_count out.old) (S.fault_count out.new) }
    ensures later { S.fault_count out.old ≤ S.fault_count out.new }
{
    let compiled = compile(alloc, design, order, mode)?;
    print_net(alloc, &compiled.net, ports, out)
}
