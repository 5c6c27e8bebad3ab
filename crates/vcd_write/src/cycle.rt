//! The values of a run, cycle by cycle.

ghost use Rattle.std.specs.Prelude.{◌≡◌, ◌<◌, ◌+◌, ◌*◌, ◌^◌, ◌++◌, ℕ, List, Some, IfOk, OnOk, IsTrue, map, length};
ghost use Rattle.bv_core.specs.declared.reference.NodeId.{NodeId as Id};
ghost use Rattle.bv_core.specs.declared.reference.Sample.TheVariants.{Known};
ghost use Rattle.list_core.specs.Lists.{from};
ghost use Rattle.net_core.specs.Nets.{OutputsFit};
ghost use Rattle.vcd_write.specs.Run.{value_in, shown_of, row_of};
ghost use Rattle.vcd_write.specs.Written.{AreNodes, is_known, first_text, next_text, cycle_text};

use crate::value::{push_all, push_bit, push_differing, push_time};
use bv_core::{Bv, NodeId, Sample};
use net_core::Net;
use sim_hist::SimTrace;
use std::alloc::Global;
use text_core::{NoMemory, Text};
use trace_core::Trace;

/// Adds the numbers below a count.
fn push_numbers(found: &mut Vec<u64>, count: u64) -> Result<(), NoMemory>
    ensures { OnOk result (found.new.items ≡ found.old.items ++ from 0 count) }
{
    for number in 0..count {
        found.push(number)?;
    }
    Ok(())
}

/// Adds the nodes of outputs.
fn push_targets(found: &mut Vec<u64>, outputs: &[(Text, NodeId)]) -> Result<(), NoMemory>
    ensures { OnOk result (found.new.items ≡ found.old.items ++ map (λ (output : List ℕ × Id). output.1.0) outputs.now) }
{
    for (_, id) in outputs {
        found.push(id.0)?;
    }
    Ok(())
}

/// The nodes whose values the variables behind the clock have.
pub(crate) fn shown(alloc: Global, net: &Net) -> Result<Vec<u64>, NoMemory>
    ensures shown { IfOk result (λ found. found.items ≡ shown_of net.now) }
    ensures nodes { IfOk result (λ found. AreNodes (length net.now.nodes) found.items) }
    ensures few { IfOk result (λ found. length net.now.nodes + length net.now.outputs < 2 ^ 64) }
{
    let mut found = Vec::new(alloc);
    push_numbers(&mut found, net.count())?;
    push_targets(&mut found, net.outputs())?;
    Ok(found)
}

/// The value of a sample that is known.
fn known(sample: Sample) -> Bv
    requires { IsTrue (is_known sample) }
    ensures { sample ≡ Known result }
{
    match sample {
        Sample::Known(value) => value,
        Sample::Unknown => unreachable!(),
    }
}

/// The values of nodes in the cycle at which the trace stands.
fn values_here(
    alloc: Global,
    trace: &SimTrace,
    cycle: u64,
    nodes: &[u64],
) -> Result<Vec<Bv>, NoMemory>
    requires placed { trace.now.cursor ≡ Some cycle }
    requires nodes { AreNodes (length trace.now.net.nodes) nodes.now }
    ensures { IfOk result (λ values. values.items ≡ map (value_in trace.now.net trace.now.stim cycle) nodes.now) }
{
    let mut values = Vec::with_capacity(alloc, nodes.len())?;
    for node in nodes {
        values.push(known(trace.value(NodeId(*node))))?;
    }
    Ok(values)
}

/// The values of nodes in a cycle.
fn values_in(
    alloc: Global,
    trace: &mut SimTrace,
    cycle: u64,
    nodes: &[u64],
) -> Result<Vec<Bv>, NoMemory>
    requires cycle { cycle < length trace.old.stim.rows }
    requires nodes { AreNodes (length trace.old.net.nodes) nodes.now }
    ensures values { IfOk result (λ values. values.items ≡ map (value_in trace.old.net trace.old.stim cycle) nodes.now) }
    ensures net { trace.new.net ≡ trace.old.net }
    ensures stim { trace.new.stim ≡ trace.old.stim }
{
    trace.seek(cycle);
    values_here(alloc, trace, cycle, nodes)
}

/// Adds the values of the first cycle, and gives them, where there is one.
pub(crate) fn push_first(
    alloc: Global,
    text: &mut Vec<u8>,
    trace: &mut SimTrace,
    nodes: &[u64],
) -> Result<Vec<Bv>, NoMemory>
    requires shown { nodes.now ≡ shown_of trace.old.net }
    requires nodes { AreNodes (length trace.old.net.nodes) nodes.now }
    ensures text { OnOk result (text.new.items ≡ text.old.items ++ first_text trace.old.net trace.old.stim) }
    ensures values { IfOk result (λ values. 0 < length trace.old.stim.rows → values.items ≡ row_of trace.old.net trace.old.stim 0) }
    ensures net { trace.new.net ≡ trace.old.net }
    ensures stim { trace.new.stim ≡ trace.old.stim }
{
    if trace.cycles() == 0 {
        return Ok(Vec::new(alloc));
    }
    let values = values_in(alloc, trace, 0, nodes)?;
    push_all(text, &values)?;
    Ok(values)
}

/// Adds the values that change where a cycle ends, and keeps those of the next, where there is one.
fn push_next(
    alloc: Global,
    text: &mut Vec<u8>,
    trace: &mut SimTrace,
    nodes: &[u64],
    values: &mut Vec<Bv>,
    cycle: u64,
) -> Result<(), NoMemory>
    requires shown { nodes.now ≡ shown_of trace.old.net }
    requires nodes { AreNodes (length trace.old.net.nodes) nodes.now }
    requires values { values.old.items ≡ row_of trace.old.net trace.old.stim cycle }
    requires cycle { cycle < length trace.old.stim.rows }
    ensures text { OnOk result (text.new.items ≡ text.old.items ++ next_text trace.old.net trace.old.stim cycle) }
    ensures values { OnOk result (cycle + 1 < length trace.old.stim.rows → values.new.items ≡ row_of trace.old.net trace.old.stim (cycle + 1)) }
    ensures net { trace.new.net ≡ trace.old.net }
    ensures stim { trace.new.stim ≡ trace.old.stim }
{
    let cycles = trace.cycles();
    let next = cycle + 1;
    if next == cycles {
        return Ok(());
    }
    let news = values_in(alloc, trace, next, nodes)?;
    push_differing(text, values, &news)?;
    *values = news;
    Ok(())
}

/// Adds the two steps of a cycle: the rise of the clock with the values of the next, and the fall.
pub(crate) fn push_cycle(
    alloc: Global,
    text: &mut Vec<u8>,
    trace: &mut SimTrace,
    nodes: &[u64],
    values: &mut Vec<Bv>,
    cycle: u64,
) -> Result<(), NoMemory>
    requires shown { nodes.now ≡ shown_of trace.old.net }
    requires nodes { AreNodes (length trace.old.net.nodes) nodes.now }
    requires values { values.old.items ≡ row_of trace.old.net trace.old.stim cycle }
    requires cycle { cycle < length trace.old.stim.rows }
    requires time { 10 * cycle + 10 < 2 ^ 64 }
    ensures text { OnOk result (text.new.items ≡ text.old.items ++ cycle_text trace.old.net trace.old.stim cycle) }
    ensures values { OnOk result (cycle + 1 < length trace.old.stim.rows → values.new.items ≡ row_of trace.old.net trace.old.stim (cycle + 1)) }
    ensures net { trace.new.net ≡ trace.old.net }
    ensures stim { trace.new.stim ≡ trace.old.stim }
{
    push_time(alloc, text, 10 * cycle + 5)?;
    push_bit(text, 0, 1)?;
    push_next(alloc, text, trace, nodes, values, cycle)?;
    push_time(alloc, text, 10 * cycle + 10)?;
    push_bit(text, 0, 0)?;
    Ok(())
}
