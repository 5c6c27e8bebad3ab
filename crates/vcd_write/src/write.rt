//! The whole file, through a text that waits until it is long.

ghost use Rattle.std.specs.Prelude.{◌≡◌, ◌<◌, ◌≤◌, ◌+◌, ◌^◌, ◌++◌, IfOk, IsErrOf, OnErr, OnOk, length};
ghost use Rattle.io_edge.specs.Faults.{Rose};
ghost use Rattle.io_edge.specs.Taken.{Appends, AppendsFront};
ghost use Rattle.io_edge.specs.Waiting.{Passes};
ghost use Rattle.net_core.specs.Nets.{IsNet};
ghost use Rattle.stim_text.specs.Stimulus.{IsStimulus};
ghost use Rattle.verilog_out.specs.Printed.{FitsPorts};
ghost use Rattle.vcd_write.specs.Run.{shown_of, row_of, waves_text};
ghost use Rattle.vcd_write.specs.Written.{AreNodes, start_text, cycle_text, cycles_text};

use crate::cycle::{push_cycle, push_first, shown};
use crate::head::push_front;
use crate::value::push_bit;
use bv_core::Bv;
use io_edge::{Sink, SinkEnd, put_all, put_long};
use sim_hist::SimTrace;
use std::alloc::Global;
use text_core::NoMemory;
use trace_core::Trace;

/// Adds what stands before the steps, and gives the values of the first cycle, where there is one.
fn push_start(
    alloc: Global,
    text: &mut Vec<u8>,
    trace: &mut SimTrace,
    nodes: &[u64],
) -> Result<Vec<Bv>, NoMemory>
    requires shown { nodes.now ≡ shown_of trace.old.net }
    requires nodes { AreNodes (length trace.old.net.nodes) nodes.now }
    requires numbers { length trace.old.net.nodes + length trace.old.net.outputs < 2 ^ 64 }
    ensures text { OnOk result (text.new.items ≡ text.old.items ++ start_text trace.old.net trace.old.stim) }
    ensures values { IfOk result (λ values. 0 < length trace.old.stim.rows → values.items ≡ row_of trace.old.net trace.old.stim 0) }
    ensures net { trace.new.net ≡ trace.old.net }
    ensures stim { trace.new.stim ≡ trace.old.stim }
    ensures few { length trace.old.stim.rows ≤ 1000000 }
{
    let net = trace.net();
    let ports = trace.ports();
    push_front(alloc, text, net, ports)?;
    push_bit(text, 0, 0)?;
    let values = push_first(alloc, text, trace, nodes)?;
    text.extend_from_slice(b"$end\n")?;
    Ok(values)
}

/// Writes the two steps of a cycle.
fn write_cycle<S: Sink>(
    alloc: Global,
    text: &mut Vec<u8>,
    trace: &mut SimTrace,
    nodes: &[u64],
    values: &mut Vec<Bv>,
    cycle: u64,
    out: &mut S,
) -> Result<(), SinkEnd>
    requires shown { nodes.now ≡ shown_of trace.old.net }
    requires nodes { AreNodes (length trace.old.net.nodes) nodes.now }
    requires values { values.old.items ≡ row_of trace.old.net trace.old.stim cycle }
    requires cycle { cycle < length trace.old.stim.rows }
    requires few { length trace.old.stim.rows ≤ 1000000 }
    ensures ok { OnOk result (Passes (S.taken out.old) (S.taken out.new) text.old.items text.new.items (cycle_text trace.old.net trace.old.stim cycle)) }
    ensures front { OnErr result (AppendsFront (S.taken out.old) (S.taken out.new) (text.old.items ++ cycle_text trace.old.net trace.old.stim cycle)) }
    ensures failed { IsErrOf result SinkEnd.Failed → Rose (S.fault_count out.old) (S.fault_count out.new) }
    ensures later { S.fault_count out.old ≤ S.fault_count out.new }
    ensures values { OnOk result (cycle + 1 < length trace.old.stim.rows → values.new.items ≡ row_of trace.old.net trace.old.stim (cycle + 1)) }
    ensures net { trace.new.net ≡ trace.old.net }
    ensures stim { trace.new.stim ≡ trace.old.stim }
{
    push_cycle(alloc, text, trace, nodes, values, cycle)?;
    put_long(text, out)?;
    Ok(())
}

/// Writes the steps, cycle after cycle.
fn write_cycles<S: Sink>(
    alloc: Global,
    text: &mut Vec<u8>,
    trace: &mut SimTrace,
    nodes: &[u64],
    values: &mut Vec<Bv>,
    out: &mut S,
) -> Result<(), SinkEnd>
    requires shown { nodes.now ≡ shown_of trace.old.net }
    requires nodes { AreNodes (length trace.old.net.nodes) nodes.now }
    requires values { 0 < length trace.old.stim.rows → values.old.items ≡ row_of trace.old.net trace.old.stim 0 }
    requires few { length trace.old.stim.rows ≤ 1000000 }
    ensures ok { OnOk result (Passes (S.taken out.old) (S.taken out.new) text.old.items text.new.items (cycles_text trace.old.net trace.old.stim)) }
    ensures front { OnErr result (AppendsFront (S.taken out.old) (S.taken out.new) (text.old.items ++ cycles_text trace.old.net trace.old.stim)) }
    ensures failed { IsErrOf result SinkEnd.Failed → Rose (S.fault_count out.old) (S.fault_count out.new) }
    ensures later { S.fault_count out.old ≤ S.fault_count out.new }
    ensures net { trace.new.net ≡ trace.old.net }
    ensures stim { trace.new.stim ≡ trace.old.stim }
{
    for cycle in 0..trace.cycles() {
        write_cycle(alloc, text, trace, nodes, values, cycle, out)?;
    }
    Ok(())
}

/// Writes the file, but for what waits at its end.
fn write_waves<S: Sink>(
    alloc: Global,
    text: &mut Vec<u8>,
    trace: &mut SimTrace,
    nodes: &[u64],
    out: &mut S,
) -> Result<(), SinkEnd>
    requires shown { nodes.now ≡ shown_of trace.old.net }
    requires nodes { AreNodes (length trace.old.net.nodes) nodes.now }
    requires numbers { length trace.old.net.nodes + length trace.old.net.outputs < 2 ^ 64 }
    ensures ok { OnOk result (Passes (S.taken out.old) (S.taken out.new) text.old.items text.new.items (waves_text trace.old.net trace.old.stim)) }
    ensures front { OnErr result (AppendsFront (S.taken out.old) (S.taken out.new) (text.old.items ++ waves_text trace.old.net trace.old.stim)) }
    ensures failed { IsErrOf result SinkEnd.Failed → Rose (S.fault_count out.old) (S.fault_count out.new) }
    ensures later { S.fault_count out.old ≤ S.fault_count out.new }
    ensures net { trace.new.net ≡ trace.old.net }
    ensures stim { trace.new.stim ≡ trace.old.stim }
{
    let mut values = push_start(alloc, text, trace, nodes)?;
    write_cycles(alloc, text, trace, nodes, &mut values, out)?;
    Ok(())
}

/// Writes the run of a net under a stimulus as a value change dump file, cycle after cycle: a clock `clk`, the nodes by their
/// numbers, and the outputs, in the scope of the module. It keeps the values of two cycles, and what waits for the sink, which is
/// the head, or 64 KiB and one cycle. Each input node of the net is an input port of its name and width, no two ports have one
/// name, and the outputs of the net are the output ports, in order, with names and widths. Where it fails, the sink took a front
/// of the text. The trace is of the same net and stimulus afterwards.
pub fn write_vcd<S: Sink>(alloc: Global, trace: &mut SimTrace, out: &mut S) -> Result<(), SinkEnd>
    requires { FitsPorts trace.old.net trace.old.stim.ports }
    ensures ok { OnOk result (Appends (S.taken out.old) (S.taken out.new) (waves_text trace.old.net trace.old.stim)) }
    ensures front { OnErr result (AppendsFront (S.taken out.old) (S.taken out.new) (waves_text trace.old.net trace.old.stim)) }
    ensures failed { IsErrOf result SinkEnd.Failed → Rose (S.fault_count out.old) (S.fault_count out.new) }
    ensures later { S.fault_count out.old ≤ S.fault_count out.new }
    ensures net { trace.new.net ≡ trace.old.net }
    ensures stim { trace.new.stim ≡ trace.old.stim }
{
    let nodes = shown(alloc, trace.net())?;
    let mut text = Vec::new(alloc);
    write_waves(alloc, &mut text, trace, &nodes, out)?;
    put_all(&text, out)?;
    Ok(())
}
