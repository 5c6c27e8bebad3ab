//! A simulator's trace sought back and forth, and a printed module with a sink that fails.

use crate::delay::{delay, ports};
use crate::missing::Missing;
use bv_core::{NodeId, Sample};
use io_edge::{MemSink, Sink, SinkEnd};
use sim_core::Simulator;
use sim_hist::SimTrace;
use std::alloc::Global;
use std::test::Fail;
use stim_text::read_stim;
use trace_core::{Seek, Trace};
use verilog_out::print_net;

/// The trace of the net under a stimulus.
fn traced(alloc: Global, rows: &[u8]) -> Result<SimTrace, Missing> {
    let ports = ports(alloc)?;
    let stim = read_stim(alloc, rows, &ports)?;
    let net = delay(alloc)?;
    let simulator = Simulator::new(alloc, net)?;
    Ok(SimTrace::new(alloc, simulator, stim)?)
}

/// A cycle, and the numbers of the input and of the register there.
type Seen = (u64, u128, u128);

/// Whether the input has its number in a cycle, and the register has its own even after a seek to no cycle.
fn has(trace: &mut SimTrace, seen: &Seen) -> bool {
    let (cycle, input, register) = *seen;
    if cycle >= trace.cycles() || trace.nodes() != 2 || trace.seek(cycle) != Seek::At {
        return false;
    }
    let before = trace.value(NodeId(0));
    let beyond = trace.seek(trace.cycles());
    let after = trace.value(NodeId(1));
    beyond == Seek::OutOfRange
        && matches!(before, Sample::Known(value) if value.value() == input)
        && matches!(after, Sample::Known(value) if value.value() == register)
}

/// A stimulus, how many cycles it has, and what is seen in cycles that are sought back and forth.
static TRACES: [(&[u8], u64, &[Seen]); 2] = [
    (
        b"x d\n1 7\n0 255\n2 5\n",
        3,
        &[
            (2, 5, 255),
            (0, 7, 14),
            (1, 255, 7),
            (1, 255, 7),
            (0, 7, 14),
            (2, 5, 255),
        ],
    ),
    (b"x d\n", 0, &[]),
];

#[test]
fn a_cursor_moves_back_and_forth_and_not_beyond(rt: HostRuntime) -> Result<(), Fail> {
    for (rows, cycles, seen) in &TRACES {
        let mut trace = traced(rt.alloc(), rows)?;
        assert!(rt; trace.cycles() == *cycles && trace.nodes() == 2);
        assert!(rt; trace.ports().inputs.items().len() == 2);
        assert!(rt; trace.seek(*cycles) == Seek::OutOfRange);
        for (i, seen) in seen.iter().enumerate() {
            assert!(rt; has(&mut trace, seen), "seek {i}");
        }
    }
    Ok(())
}

/// What is printed for the net.
const TEXT: &str = "module \\A (clk, \\x , \\d );
  input clk;
  input [7:0] \\x ;
  input [7:0] \\d ;
  reg [7:0] _1 = 8'h0e;
  always @(posedge clk) _1 <= \\d ;
endmodule
";

/// The puts that fail, how printing ends, and how many bytes the sink took then. The text is one put, of which one that
/// fails takes half.
static PRINTED: [(&[u64], Result<(), SinkEnd>, usize); 2] = [
    (&[], Ok(()), 147),
    (&[0], Err(SinkEnd::Failed), 73),
];

/// What a sink takes of the net where the puts of these numbers fail, and how printing ends.
fn printed(alloc: Global, failing: &[u64]) -> Result<(MemSink, Result<(), SinkEnd>), Missing> {
    let net = delay(alloc)?;
    let ports = ports(alloc)?;
    let mut sink = MemSink::new(alloc, 4096, failing.to_vec(alloc)?)?;
    let ended = print_net(alloc, &net, &ports, &mut sink);
    Ok((sink, ended))
}

#[test]
fn a_module_is_printed_or_a_front_of_it_where_the_sink_fails(rt: HostRuntime) -> Result<(), Fail> {
    for (failing, wanted, taken) in &PRINTED {
        let (sink, ended) = printed(rt.alloc(), failing)?;
        assert!(rt; ended == *wanted && sink.faults() == failing.len() as u64);
        assert!(rt; TEXT.as_bytes().starts_with(sink.bytes()) && sink.bytes().len() == *taken);
    }
    Ok(())
}
