//! What roots need of a net, with the next values of the registers among it, as a net of its own.

ghost use Rattle.std.specs.Prelude.{◌≡◌, ◌<◌, ℕ, [], length, IfOk, OnOk, None};
ghost use Rattle.net_core.specs.Nodes.{trees_of};
ghost use Rattle.net_core.specs.Builder.{AreShared};
ghost use Rattle.net_core.specs.Nets.{IsNet};
ghost use Rattle.list_core.specs.Lists.{EachOf};
ghost use Rattle.exec_core.specs.Kept.{numbered, NumberedAreKept};
ghost use Rattle.walk_net.specs.Next.{trees_by, next_whole};
ghost use Rattle.walk_net.specs.Renaming.{id_at, IsNode};
ghost use Rattle.walk_net.specs.Answer.{IsRoot, AreIds, AreNumbers, OutputsStand, NextStands};
ghost use Rattle.walk_net.specs.Walked.{IsWalked};

use crate::ends::{nexts_of, outputs_of};
use crate::registers::{next_ids, no_ids, walk_nexts};
use crate::walk::walk_roots;
use bv_core::NodeId;
use net_core::{Net, NetBuilder};
use std::alloc::Global;
use text_core::{Listed, NoMemory};

/// What is kept of a net.
#[derive(Drop)]
pub struct Walked {
    /// The kept nodes.
    pub net: Net,
    /// For each node of the net that they were kept of, its id among them, if it is one of them.
    pub ids: Listed<Option<NodeId>>,
}

/// Walks the trees of the roots, and then the next-value trees of the registers.
fn walk_into(
    alloc: Global,
    net: &Net,
    builder: &mut NetBuilder,
    ids: &mut [Option<NodeId>],
    roots: &[NodeId],
) -> Result<(), NoMemory>
    requires net { IsNet net.now }
    requires roots { EachOf (IsNode net.now.nodes) roots.now }
    requires empty { builder.old ≡ [] }
    requires shared { AreShared builder.old }
    requires long { length ids.old ≡ length net.now.nodes }
    requires none { (j : ℕ) → id_at ids.old j ≡ None }
    ensures { OnOk result (IsWalked net.now (trees_by net.now.nodes roots.now) builder.new ids.new) }
{
    let nexts = next_ids(alloc, net)?;
    let mut origins = Vec::new(alloc);
    walk_roots(alloc, net, builder, ids, &mut origins, roots)?;
    walk_nexts(alloc, net, builder, ids, &mut origins, &nexts)?;
    Ok(())
}

/// The ids that the nodes of a net got in a walk from these roots.
fn walked_ids(
    alloc: Global,
    net: &Net,
    builder: &mut NetBuilder,
    roots: &[NodeId],
) -> Result<Vec<Option<NodeId>>, NoMemory>
    requires roots { EachOf (IsNode net.now.nodes) roots.now }
    requires empty { builder.old ≡ [] }
    requires shared { AreShared builder.old }
    ensures walked { IfOk result (λ ids. IsWalked net.now (trees_by net.now.nodes roots.now) builder.new ids.items) }
    ensures net { IsNet net.now }
{
    let mut ids = no_ids(alloc, net.count() as usize)?;
    walk_into(alloc, net, builder, &mut ids, roots)?;
    Ok(ids)
}

/// What is kept of a net: the trees of the roots, which are nodes of it and among which its outputs are, with their operands
/// and the next values of the registers among them. They are numbered in the order of a walk: operands from left to right and
/// then the tree itself, root by root; then the next value of the register of lowest number, as long as there is one whose
/// next value was not walked. Takes time and memory for what is kept, and for as many ids as the net has nodes.
pub fn keep_nodes(alloc: Global, net: &Net, roots: &[NodeId]) -> Result<Walked, NoMemory>
    requires roots { EachOf (IsNode net.now.nodes) roots.now }
    requires outputs { EachOf (IsRoot net.now.nodes (trees_by net.now.nodes roots.now)) net.now.outputs }
    ensures nodes { IfOk result (λ walked. trees_of walked.net.nodes
        ≡ numbered (trees_by net.now.nodes roots.now) (next_whole net.now) (length net.now.nexts)) }
    ensures rounds { IfOk result (λ walked. AreNumbers (trees_by net.now.nodes roots.now) (next_whole net.now) (trees_of walked.net.nodes)) }
    ensures kept { IfOk result (λ walked. NumberedAreKept (trees_by net.now.nodes roots.now) (next_whole net.now) (trees_of walked.net.nodes)) }
    ensures ids { IfOk result (λ walked. AreIds (trees_by net.now.nodes roots.now) (next_whole net.now) net.now.nodes walked.net.nodes walked.ids) }
    ensures outputs { IfOk result (λ walked. OutputsStand net.now.nodes walked.net.nodes net.now.outputs walked.net.outputs) }
    ensures nexts { IfOk result (λ walked. EachOf (NextStands (next_whole net.now) walked.net.nodes) walked.net.nexts) }
    ensures net { IfOk result (λ walked. IsNet walked.net) }
{
    let mut builder = NetBuilder::new(alloc)?;
    let ids = walked_ids(alloc, net, &mut builder, roots)?;
    let outputs = outputs_of(alloc, net, &ids)?;
    let nexts = nexts_of(alloc, net, &ids)?;
    Ok(Walked {
        net: builder.finish(outputs, nexts),
        ids: Listed::new(ids),
    })
}
