//! What a net is finished with, once all signals have nodes.

ghost use Rattle.std.specs.Prelude.{◌≡◌, true, length, IfOk, OnOk};
ghost use Rattle.design_core.specs.Ports.{ports_in, top_signals};
ghost use Rattle.lower_core.specs.Lowered.{OutputsTold};
ghost use Rattle.world_core.specs.Sites.{all_spots};
ghost use Rattle.lower_core.specs.Rows.{AreTold};
ghost use Rattle.net_core.specs.Nets.{outputs_of as net_outputs, nexts_of as net_nexts, OutputsFit, NextsFit};
ghost use Rattle.next_net.specs.Nexts.{AllNext};
ghost use Rattle.ssa_core.specs.Processes.{lists_of};
ghost use Rattle.ssa_nodes.specs.Parts.{HasParts, HasState, design_in};
ghost use Rattle.ssa_nodes.specs.Driving.{AllHave};

use crate::outputs::outputs_of;
use bv_core::NodeId;
use lower_core::FullRow;
use net_core::NetBuilder;
use next_net::nexts_of;
use row_net::rows_of;
use ssa_nodes::Parts;
use std::alloc::Global;
use text_core::{NoMemory, Text};

/// What a net is finished with: rows, outputs, and next values of registers.
#[derive(Drop)]
pub(crate) struct Ends {
    pub(crate) rows: Vec<FullRow>,
    pub(crate) outputs: Vec<(Text, NodeId)>,
    pub(crate) nexts: Vec<(NodeId, NodeId)>,
}

/// The rows, outputs and next values of a design whose signals have nodes.
pub(crate) fn ends_of(
    alloc: Global,
    parts: &Parts<'_>,
    builder: &mut NetBuilder,
    nodes: &[Option<NodeId>],
    memos: &mut [Vec<Option<NodeId>>],
) -> Result<Ends, NoMemory>
    requires parts { HasParts parts.now }
    requires state { HasState parts.now builder.old nodes.now (lists_of memos.old) }
    requires all { AllHave parts.now nodes.now }
    ensures rows { IfOk result (λ ends. AreTold (design_in parts.now) (length parts.now.order.now) builder.new
        (all_spots (design_in parts.now)) ends.rows.items) }
    ensures outputs { IfOk result (λ ends. OutputsTold (design_in parts.now) (length parts.now.order.now) builder.new
        (ports_in true (top_signals (design_in parts.now))) (net_outputs ends.outputs.items)) }
    ensures outputs_fit { IfOk result (λ ends. OutputsFit builder.new (net_outputs ends.outputs.items)) }
    ensures nexts { IfOk result (λ ends. AllNext parts.now builder.new (net_nexts ends.nexts.items)) }
    ensures nexts_fit { IfOk result (λ ends. NextsFit builder.new (net_nexts ends.nexts.items)) }
    ensures state { OnOk result (HasState parts.now builder.new nodes.now (lists_of memos.new)) }
{
    let rows = rows_of(alloc, parts, builder, nodes, memos)?;
    let nexts = nexts_of(alloc, parts, builder, nodes, memos)?;
    let outputs = outputs_of(alloc, parts, builder, nodes)?;
    Ok(Ends {
        rows,
        outputs,
        nexts,
    })
}
