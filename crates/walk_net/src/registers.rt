//! The next values of the registers that were kept, walked in the order of the new nodes, until none is left.

ghost use Rattle.std.specs.Prelude.{◌≡◌, ◌<◌, [], length, IfOk, IfSome, OnOk, option_map, Some, None, slice_set, ℕ};
ghost use Rattle.net_core.specs.Nodes.{trees_of};
ghost use Rattle.net_core.specs.Builder.{AreShared};
ghost use Rattle.list_core.specs.Lists.{EachOf};
ghost use Rattle.walk_net.specs.Next.{tree_by, next_whole};
ghost use Rattle.walk_net.specs.Renaming.{AreCopies, IsNode, id_at};
ghost use Rattle.walk_net.specs.Registers.{Ends, followed, with_nexts, HasPlace, AreNextIds};

use crate::task::Task;
use crate::walk::walk_node;
use bv_core::NodeId;
use net_core::{Net, NetBuilder};
use std::alloc::{AllocError, Global};
use text_core::NoMemory;

/// No ids, at so many places.
pub(crate) fn no_ids(alloc: Global, count: usize) -> Result<Vec<Option<NodeId>>, AllocError>
    ensures count { IfOk result (λ ids. length ids.items ≡ count) }
    ensures none { IfOk result (λ ids. (j : ℕ) → id_at ids.items j ≡ None) }
{
    vec![in alloc; None; count]
}

/// Sets what a place has.
fn set_id(ids: &mut [Option<NodeId>], place: NodeId, id: NodeId)
    requires { place.0 < length ids.old }
    ensures { ids.new ≡ slice_set ids.old place.0 (Some id) }
{
    ids[place.0 as usize] = Some(id);
}

/// Sets for each register's node that of its next value.
fn set_nexts(ids: &mut [Option<NodeId>], nexts: &[(NodeId, NodeId)])
    requires { EachOf (HasPlace (length ids.old)) nexts.now }
    ensures { ids.new ≡ with_nexts ids.old nexts.now }
{
    for (register, next) in nexts {
        set_id(ids, *register, *next);
    }
}

/// For each node of a net, the node of its next value, if it is a register.
pub(crate) fn next_ids(alloc: Global, net: &Net) -> Result<Vec<Option<NodeId>>, NoMemory>
    ensures { IfOk result (λ ids. AreNextIds net.now ids.items) }
{
    let mut ids = no_ids(alloc, net.count() as usize)?;
    set_nexts(&mut ids, net.nexts());
    Ok(ids)
}

/// Walks a next-value tree, if there is one.
fn follow(
    net: &Net,
    builder: &mut NetBuilder,
    ids: &mut [Option<NodeId>],
    origins: &mut Vec<NodeId>,
    tasks: &mut Vec<Task>,
    next: Option<NodeId>,
) -> Result<(), NoMemory>
    requires shared { AreShared net.now.nodes }
    requires copies { AreCopies net.now.nodes builder.old ids.old origins.old.items }
    requires none { tasks.old.items ≡ [] }
    requires within { IfSome next (IsNode net.now.nodes) }
    ensures copies { OnOk result (AreCopies net.now.nodes builder.new ids.new origins.new.items) }
    ensures none { OnOk result (tasks.new.items ≡ []) }
    ensures walked { OnOk result (trees_of builder.new ≡ followed (option_map (tree_by net.now.nodes) next) (trees_of builder.old)) }
{
    match next {
        Some(id) => walk_node(net, builder, ids, origins, tasks, id),
        None => Ok(()),
    }
}

/// Walks the next-value trees of the registers among the new nodes, in the order of the nodes, and those of the registers
/// that this brings.
pub(crate) fn walk_nexts(
    alloc: Global,
    net: &Net,
    builder: &mut NetBuilder,
    ids: &mut [Option<NodeId>],
    origins: &mut Vec<NodeId>,
    nexts: &[Option<NodeId>],
) -> Result<(), NoMemory>
    requires shared { AreShared net.now.nodes }
    requires copies { AreCopies net.now.nodes builder.old ids.old origins.old.items }
    requires nexts { AreNextIds net.now nexts.now }
    ensures copies { OnOk result (AreCopies net.now.nodes builder.new ids.new origins.new.items) }
    ensures ends { OnOk result (Ends (next_whole net.now) 0 (trees_of builder.old) (trees_of builder.new)) }
{
    let mut tasks = Vec::new(alloc);
    let mut place = 0;
    while place < origins.len() {
        let next = nexts[origins[place].0 as usize];
        follow(net, builder, ids, origins, &mut tasks, next)?;
        place += 1;
    }
    Ok(())
}
