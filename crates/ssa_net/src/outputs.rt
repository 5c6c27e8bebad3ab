//! The outputs of the top with their nodes.

ghost use Rattle.std.specs.Prelude.{◌≡◌, true, IfOk, OnOk, length};
ghost use Rattle.list_core.specs.Lists.{IsIn};
ghost use Rattle.exec_core.specs.Design.{place};
ghost use Rattle.tree_core.specs.Tree.{Leaf};
ghost use Rattle.design_core.specs.Ports.{ports_in, top_signals};
ghost use Rattle.design_exec.specs.Processes.{is_signal_of};
ghost use Rattle.lower_core.specs.Lowered.{OutputsTold};
ghost use Rattle.net_core.specs.Nets.{outputs_of as net_outputs, OutputsFit};
ghost use Rattle.ssa_nodes.specs.Parts.{HasParts, HasSignals, StandsBy, design_in};
ghost use Rattle.ssa_nodes.specs.Driving.{AllHave};
ghost use Rattle.ssa_net.specs.Outputs.{OneMore};

use bv_core::NodeId;
use design_core::{Kind, Signal, signals_of};
use net_core::NetBuilder;
use ssa_nodes::{Parts, leaf_node, names_of};
use std::alloc::Global;
use text_core::{NoMemory, Text};

/// The node of a signal of the top.
fn top_node(
    parts: &Parts<'_>,
    builder: &NetBuilder,
    nodes: &[Option<NodeId>],
    name: &[u8],
) -> NodeId
    requires parts { HasParts parts.now }
    requires signals { HasSignals parts.now builder.now nodes.now }
    requires all { AllHave parts.now nodes.now }
    requires signal { is_signal_of (design_in parts.now) (place 0 name.now) ≡ true }
    ensures { StandsBy parts.now builder.now (Leaf (place 0 name.now)) result }
{
    leaf_node(names_of(parts, 0), nodes, name).unwrap()
}

/// Puts a signal of the top last that is an output.
fn push_output(
    alloc: Global,
    outputs: &mut Vec<(Text, NodeId)>,
    parts: &Parts<'_>,
    builder: &NetBuilder,
    nodes: &[Option<NodeId>],
    signal: &Signal,
) -> Result<(), NoMemory>
    requires parts { HasParts parts.now }
    requires signals { HasSignals parts.now builder.now nodes.now }
    requires all { AllHave parts.now nodes.now }
    requires signal { IsIn signal.now (top_signals (design_in parts.now)) }
    ensures { OnOk result (OneMore parts.now builder.now (net_outputs outputs.old.items) (net_outputs outputs.new.items) signal.now) }
{
    match &signal.kind {
        Kind::Output => {
            let id = top_node(parts, builder, nodes, signal.name.bytes());
            outputs.push((Text::new(alloc, signal.name.bytes())?, id))?;
        }
        Kind::Input | Kind::Wire | Kind::Reg(_) | Kind::ChildOut(_, _) => {}
    }
    Ok(())
}

/// The outputs of the top, in order, with their nodes.
pub(crate) fn outputs_of(
    alloc: Global,
    parts: &Parts<'_>,
    builder: &NetBuilder,
    nodes: &[Option<NodeId>],
) -> Result<Vec<(Text, NodeId)>, NoMemory>
    requires parts { HasParts parts.now }
    requires signals { HasSignals parts.now builder.now nodes.now }
    requires all { AllHave parts.now nodes.now }
    ensures told { IfOk result (λ outputs. OutputsTold (design_in parts.now) (length parts.now.order.now) builder.now
        (ports_in true (top_signals (design_in parts.now))) (net_outputs outputs.items)) }
    ensures fit { IfOk result (λ outputs. OutputsFit builder.now (net_outputs outputs.items)) }
{
    let mut outputs = Vec::new(alloc);
    for signal in signals_of(&parts.design.variants, 0) {
        push_output(alloc, &mut outputs, parts, builder, nodes, signal)?;
    }
    Ok(outputs)
}
