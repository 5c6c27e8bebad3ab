//! A walk from a node over its operands, with a stack in place of recursion.

ghost use Rattle.std.specs.Prelude.{◌≡◌, ◌<◌, [], length, OnOk};
ghost use Rattle.net_core.specs.Nodes.{trees_of, tree_of};
ghost use Rattle.net_core.specs.Builder.{AreShared};
ghost use Rattle.list_core.specs.Lists.{EachOf};
ghost use Rattle.exec_core.specs.Kept.{walk, walk_all};
ghost use Rattle.walk_net.specs.Next.{trees_by};
ghost use Rattle.walk_net.specs.Tasks.{did, all_done, CanDo, CanDoAll, Stacked};
ghost use Rattle.walk_net.specs.Renaming.{AreCopies, IsNode};

use crate::copy::leave;
use crate::task::{Task, enter};
use bv_core::NodeId;
use net_core::{Net, NetBuilder};
use std::alloc::Global;
use text_core::NoMemory;

/// Does the task that was on top of a stack.
fn advance(
    net: &Net,
    builder: &mut NetBuilder,
    ids: &mut [Option<NodeId>],
    origins: &mut Vec<NodeId>,
    tasks: &mut Vec<Task>,
    task: Task,
) -> Result<(), NoMemory>
    requires shared { AreShared net.now.nodes }
    requires copies { AreCopies net.now.nodes builder.old ids.old origins.old.items }
    requires can { CanDo net.now.nodes task (trees_of builder.old) }
    requires rest { CanDoAll net.now.nodes tasks.old.items (did net.now.nodes task (trees_of builder.old)) }
    ensures copies { OnOk result (AreCopies net.now.nodes builder.new ids.new origins.new.items) }
    ensures stacked { OnOk result (Stacked net.now.nodes tasks.old.items task tasks.new.items (trees_of builder.old) (trees_of builder.new)) }
{
    match task {
        Task::Enter(id) => enter(net, ids, tasks, id),
        Task::Leave(id) => leave(net, builder, ids, origins, id),
    }
}

/// Does all tasks of a stack, the last one first.
fn do_all(
    net: &Net,
    builder: &mut NetBuilder,
    ids: &mut [Option<NodeId>],
    origins: &mut Vec<NodeId>,
    tasks: &mut Vec<Task>,
) -> Result<(), NoMemory>
    requires shared { AreShared net.now.nodes }
    requires copies { AreCopies net.now.nodes builder.old ids.old origins.old.items }
    requires can { CanDoAll net.now.nodes tasks.old.items (trees_of builder.old) }
    ensures copies { OnOk result (AreCopies net.now.nodes builder.new ids.new origins.new.items) }
    ensures done { OnOk result (trees_of builder.new ≡ all_done net.now.nodes tasks.old.items (trees_of builder.old)) }
    ensures empty { OnOk result (tasks.new.items ≡ []) }
{
    while let Some(task) = tasks.pop() {
        advance(net, builder, ids, origins, tasks, task)?;
    }
    Ok(())
}

/// Walks the tree of a node.
pub(crate) fn walk_node(
    net: &Net,
    builder: &mut NetBuilder,
    ids: &mut [Option<NodeId>],
    origins: &mut Vec<NodeId>,
    tasks: &mut Vec<Task>,
    id: NodeId,
) -> Result<(), NoMemory>
    requires shared { AreShared net.now.nodes }
    requires copies { AreCopies net.now.nodes builder.old ids.old origins.old.items }
    requires none { tasks.old.items ≡ [] }
    requires within { id.0 < length net.now.nodes }
    ensures copies { OnOk result (AreCopies net.now.nodes builder.new ids.new origins.new.items) }
    ensures none { OnOk result (tasks.new.items ≡ []) }
    ensures walked { OnOk result (trees_of builder.new ≡ walk (tree_of net.now.nodes id.0) (trees_of builder.old)) }
{
    tasks.push(Task::Enter(id))?;
    do_all(net, builder, ids, origins, tasks)?;
    Ok(())
}

/// Walks the trees of these nodes, one after another.
pub(crate) fn walk_roots(
    alloc: Global,
    net: &Net,
    builder: &mut NetBuilder,
    ids: &mut [Option<NodeId>],
    origins: &mut Vec<NodeId>,
    roots: &[NodeId],
) -> Result<(), NoMemory>
    requires shared { AreShared net.now.nodes }
    requires copies { AreCopies net.now.nodes builder.old ids.old origins.old.items }
    requires roots { EachOf (IsNode net.now.nodes) roots.now }
    ensures copies { OnOk result (AreCopies net.now.nodes builder.new ids.new origins.new.items) }
    ensures walked { OnOk result (trees_of builder.new ≡ walk_all (trees_by net.now.nodes roots.now) (trees_of builder.old)) }
{
    let mut tasks = Vec::new(alloc);
    for root in roots {
        walk_node(net, builder, ids, origins, &mut tasks, *root)?;
    }
    Ok(())
}
