//! What a name has in a block, as a node.

ghost use Rattle.std.specs.Prelude.{◌≡◌, IfOk, OnOk};
ghost use Rattle.names.specs.Maps.{value_of};
ghost use Rattle.block_net.specs.Walks.{IsHeld, held as the_held};
ghost use Rattle.term_net.specs.Growth.{Grown, Stay};
ghost use Rattle.term_net.specs.Leaves.{leaf_id, leaf_tree};
ghost use Rattle.term_net.specs.Memos.{Fits};
ghost use Rattle.ssa_nodes.specs.Held.{CanHaveNode, NodeTold};

use block_net::{BlockTerms, TermId};
use bv_core::NodeId;
use names::NameMap;
use net_core::NetBuilder;
use std::alloc::Global;
use term_net::evaluate;
use text_core::NoMemory;

/// The node of a signal of an instance, if it has one.
pub fn leaf_node(names: &NameMap<u32>, nodes: &[Option<NodeId>], name: &[u8]) -> Option<NodeId>
    ensures { result ≡ leaf_id (value_of names.now) nodes.now name.now }
{
    let place = names.get(name)?;
    nodes.get(place as usize).copied()?
}

/// The node of what a name has somewhere in a block: that of the signal of this name where nothing was put there, that of a term,
/// or none where it has no tree.
pub fn held_node(
    alloc: Global,
    builder: &mut NetBuilder,
    block: &BlockTerms,
    names: &NameMap<u32>,
    nodes: &[Option<NodeId>],
    memo: &mut [Option<NodeId>],
    name: &[u8],
    held: Option<Option<TermId>>,
) -> Result<Option<NodeId>, NoMemory>
    requires fits { Fits builder.old (value_of names.now) nodes.now block.now.terms memo.old }
    requires within { IsHeld block.now.terms held }
    requires ready { CanHaveNode (leaf_id (value_of names.now) nodes.now) (leaf_tree builder.old (value_of names.now) nodes.now)
        (the_held block.now.terms name.now held) }
    ensures told { IfOk result (NodeTold builder.new (leaf_tree builder.new (value_of names.now) nodes.now) (the_held block.now.terms name.now held)) }
    ensures fits { OnOk result (Fits builder.new (value_of names.now) nodes.now block.now.terms memo.new) }
    ensures grown { OnOk result (Grown builder.old builder.new) }
    ensures stay { OnOk result (Stay memo.old memo.new) }
{
    match held {
        None => Ok(leaf_node(names, nodes, name)),
        Some(None) => Ok(None),
        Some(Some(root)) => {
            let id = evaluate(alloc, builder, block, names, nodes, memo, root)?;
            Ok(Some(id))
        }
    }
}
