//! The first roots of what is kept: the outputs.

ghost use Rattle.std.specs.Prelude.{◌≡◌, IfOk};
ghost use Rattle.list_core.specs.Lists.{EachOf};
ghost use Rattle.walk_net.specs.Next.{trees_by};
ghost use Rattle.walk_net.specs.Renaming.{IsNode};
ghost use Rattle.walk_net.specs.Answer.{IsRoot, output_trees};
ghost use Rattle.walk_net.specs.Walked.{output_nodes};

use bv_core::NodeId;
use net_core::Net;
use std::alloc::Global;
use text_core::{NoMemory, Text};

/// The nodes of outputs, in order.
fn nodes_of(alloc: Global, outputs: &[(Text, NodeId)]) -> Result<Vec<NodeId>, NoMemory>
    ensures { IfOk result (λ nodes. nodes.items ≡ output_nodes outputs.now) }
{
    let mut nodes = Vec::new(alloc);
    for (_, id) in outputs {
        nodes.push(*id)?;
    }
    Ok(nodes)
}

/// The nodes of a net's outputs, in order: the first roots of what is kept of it.
pub fn output_roots(alloc: Global, net: &Net) -> Result<Vec<NodeId>, NoMemory>
    ensures trees { IfOk result (λ roots. trees_by net.now.nodes roots.items ≡ output_trees net.now) }
    ensures nodes { IfOk result (λ roots. EachOf (IsNode net.now.nodes) roots.items) }
    ensures roots { IfOk result (λ roots. EachOf (IsRoot net.now.nodes (trees_by net.now.nodes roots.items)) net.now.outputs) }
{
    let roots = nodes_of(alloc, net.outputs())?;
    Ok(roots)
}
