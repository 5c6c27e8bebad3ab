//! The lines of a module, through a text that waits until it is long.

ghost use Rattle.std.specs.Prelude.{◌≡◌, ◌<◌, ◌≤◌, ◌++◌, [], IsErrOf, OnErr, OnOk, codes, length};
ghost use Rattle.std.specs.List.{flat_map};
ghost use Rattle.io_edge.specs.Faults.{Rose};
ghost use Rattle.io_edge.specs.Taken.{Appends, AppendsFront};
ghost use Rattle.io_edge.specs.Waiting.{Passes};
ghost use Rattle.net_core.specs.Nets.{outputs_of, OutputsFit, IsNet, StandBeside};
ghost use Rattle.verilog_out.specs.Printed.{printed, FitsPorts};
ghost use Rattle.verilog_out.specs.Lines.{part_line, part_text, output_line, body_text};

use crate::head::push_front;
use crate::line::{push_line, push_output};
use crate::part::Part;
use bv_core::NodeId;
use design_core::Ports;
use io_edge::{Sink, SinkEnd, put_all, put_long};
use net_core::{Net, nexts_by_number};
use std::alloc::Global;
use text_core::Text;

/// Writes the line of a node in a part, where it has one.
fn write_line<S: Sink>(
    alloc: Global,
    text: &mut Vec<u8>,
    net: &Net,
    nexts: &[u64],
    part: Part,
    id: NodeId,
    out: &mut S,
) -> Result<(), SinkEnd>
    requires net { IsNet net.now }
    requires nexts { StandBeside (length net.now.nodes) net.now.nexts nexts.now }
    requires node { id.0 < length net.now.nodes }
    ensures ok { OnOk result (Passes (S.taken out.old) (S.taken out.new) text.old.items text.new.items (part_line net.now part id.0)) }
    ensures front { OnErr result (AppendsFront (S.taken out.old) (S.taken out.new) (text.old.items ++ part_line net.now part id.0)) }
    ensures failed { IsErrOf result SinkEnd.Failed → Rose (S.fault_count out.old) (S.fault_count out.new) }
    ensures later { S.fault_count out.old ≤ S.fault_count out.new }
{
    push_line(alloc, text, net, nexts, part, id)?;
    put_long(text, out)
}

/// Writes the lines of the nodes in a part, by their numbers.
fn write_part<S: Sink>(
    alloc: Global,
    text: &mut Vec<u8>,
    net: &Net,
    nexts: &[u64],
    part: Part,
    out: &mut S,
) -> Result<(), SinkEnd>
    requires net { IsNet net.now }
    requires nexts { StandBeside (length net.now.nodes) net.now.nexts nexts.now }
    ensures ok { OnOk result (Passes (S.taken out.old) (S.taken out.new) text.old.items text.new.items (part_text net.now part)) }
    ensures front { OnErr result (AppendsFront (S.taken out.old) (S.taken out.new) (text.old.items ++ part_text net.now part)) }
    ensures failed { IsErrOf result SinkEnd.Failed → Rose (S.fault_count out.old) (S.fault_count out.new) }
    ensures later { S.fault_count out.old ≤ S.fault_count out.new }
{
    for number in 0..net.count() {
        write_line(alloc, text, net, nexts, part, NodeId(number), out)?;
    }
    Ok(())
}

/// Writes the assignment of an output.
fn write_output<S: Sink>(
    alloc: Global,
    text: &mut Vec<u8>,
    net: &Net,
    output: &(Text, NodeId),
    out: &mut S,
) -> Result<(), SinkEnd>
    requires { output.now.1.0 < length net.now.nodes }
    ensures ok { OnOk result (Passes (S.taken out.old) (S.taken out.new) text.old.items text.new.items (output_line net.now.nodes output.now)) }
    ensures front { OnErr result (AppendsFront (S.taken out.old) (S.taken out.new) (text.old.items ++ output_line net.now.nodes output.now)) }
    ensures failed { IsErrOf result SinkEnd.Failed → Rose (S.fault_count out.old) (S.fault_count out.new) }
    ensures later { S.fault_count out.old ≤ S.fault_count out.new }
{
    push_output(alloc, text, net, &output.0, output.1)?;
    put_long(text, out)
}

/// Writes the assignments of the outputs, in order.
fn write_outputs<S: Sink>(
    alloc: Global,
    text: &mut Vec<u8>,
    net: &Net,
    outputs: &[(Text, NodeId)],
    out: &mut S,
) -> Result<(), SinkEnd>
    requires { OutputsFit net.now.nodes (outputs_of outputs.now) }
    ensures ok { OnOk result (Passes (S.taken out.old) (S.taken out.new) text.old.items text.new.items (flat_map (output_line net.now.nodes) outputs.now)) }
    ensures front { OnErr result (AppendsFront (S.taken out.old) (S.taken out.new) (text.old.items ++ flat_map (output_line net.now.nodes) outputs.now)) }
    ensures failed { IsErrOf result SinkEnd.Failed → Rose (S.fault_count out.old) (S.fault_count out.new) }
    ensures later { S.fault_count out.old ≤ S.fault_count out.new }
{
    for output in outputs {
        write_output(alloc, text, net, output, out)?;
    }
    Ok(())
}

/// Writes what stands in a module behind its ports.
fn write_body<S: Sink>(
    alloc: Global,
    text: &mut Vec<u8>,
    net: &Net,
    nexts: &[u64],
    out: &mut S,
) -> Result<(), SinkEnd>
    requires net { IsNet net.now }
    requires nexts { StandBeside (length net.now.nodes) net.now.nexts nexts.now }
    ensures ok { OnOk result (Passes (S.taken out.old) (S.taken out.new) text.old.items text.new.items (body_text net.now)) }
    ensures front { OnErr result (AppendsFront (S.taken out.old) (S.taken out.new) (text.old.items ++ body_text net.now)) }
    ensures failed { IsErrOf result SinkEnd.Failed → Rose (S.fault_count out.old) (S.fault_count out.new) }
    ensures later { S.fault_count out.old ≤ S.fault_count out.new }
{
    write_part(alloc, text, net, nexts, Part::Declarations, out)?;
    write_part(alloc, text, net, nexts, Part::Assignments, out)?;
    write_outputs(alloc, text, net, net.outputs(), out)?;
    write_part(alloc, text, net, nexts, Part::Steps, out)?;
    Ok(())
}

/// Hands what waits to the sink, with the last line behind it.
fn write_end<S: Sink>(text: &mut Vec<u8>, out: &mut S) -> Result<(), SinkEnd>
    ensures ok { OnOk result (Appends (S.taken out.old) (S.taken out.new) (text.old.items ++ codes "endmodule\n")) }
    ensures front { OnErr result (AppendsFront (S.taken out.old) (S.taken out.new) (text.old.items ++ codes "endmodule\n")) }
    ensures failed { IsErrOf result SinkEnd.Failed → Rose (S.fault_count out.old) (S.fault_count out.new) }
    ensures later { S.fault_count out.old ≤ S.fault_count out.new }
{
    text.extend_from_slice(b"endmodule\n")?;
    put_all(text, out)?;
    Ok(())
}

/// Writes a net as a Verilog module with these ports. Each input node of the net is an input port of its name and width,
/// no two ports have one name, and the outputs of the net are the output ports, in order, with names and widths. Where it
/// fails, the sink took a front of the text.
pub fn print_net<S: Sink>(
    alloc: Global,
    net: &Net,
    ports: &Ports,
    out: &mut S,
) -> Result<(), SinkEnd>
    requires { FitsPorts net.now ports.now }
    ensures ok { OnOk result (Appends (S.taken out.old) (S.taken out.new) (printed net.now ports.now)) }
    ensures front { OnErr result (AppendsFront (S.taken out.old) (S.taken out.new) (printed net.now ports.now)) }
    ensures failed { IsErrOf result SinkEnd.Failed → Rose (S.fault_count out.old) (S.fault_count out.new) }
    ensures later { S.fault_count out.old ≤ S.fault_count out.new }
{
    let nexts = nexts_by_number(alloc, net)?;
    let mut text = Vec::new(alloc);
    push_front(alloc, &mut text, ports)?;
    write_body(alloc, &mut text, net, &nexts, out)?;
    write_end(&mut text, out)?;
    Ok(())
}
