//! What a walk over a net has still to do. Nets are as deep as a source is long, so the walk keeps a list of tasks and does not recur.

ghost use Rattle.std.specs.Prelude.{◌≡◌, ◌<◌, ◌++◌, length, OnOk, None, slice_index_or};
ghost use Rattle.net_core.specs.Nodes.{shape_of, shape_at};
ghost use Rattle.walk_net.specs.Tasks.{operand_tasks, entered};
ghost use Rattle.walk_net.specs.Renaming.{id_at};

use bv_core::NodeId;
use net_core::{Net, Node};
use text_core::NoMemory;

/// What is to be done with a node of the old net.
#[derive(Clone, Copy)]
pub(crate) enum Task {
    /// Its operands are walked, and then it gets a copy, unless it has one.
    Enter(NodeId),
    /// It gets a copy, over those of its operands.
    Leave(NodeId),
}

/// Enters the operands of a node, the left one first.
fn push_operands(tasks: &mut Vec<Task>, node: &Node) -> Result<(), NoMemory>
    ensures { OnOk result (tasks.new.items ≡ tasks.old.items ++ operand_tasks (shape_of node.now)) }
{
    match node {
        Node::Const(_) | Node::Input(_, _) | Node::Reg { .. } => {}
        Node::One(_, a) => tasks.push(Task::Enter(*a))?,
        Node::Two(_, a, b) => {
            tasks.push(Task::Enter(*b))?;
            tasks.push(Task::Enter(*a))?;
        }
        Node::Mux(c, a, b) => {
            tasks.push(Task::Enter(*b))?;
            tasks.push(Task::Enter(*a))?;
            tasks.push(Task::Enter(*c))?;
        }
    }
    Ok(())
}

/// Enters a node: its operands come before it, unless it has a copy.
pub(crate) fn enter(
    net: &Net,
    ids: &[Option<NodeId>],
    tasks: &mut Vec<Task>,
    id: NodeId,
) -> Result<(), NoMemory>
    requires within { id.0 < length net.now.nodes }
    requires long { length ids.now ≡ length net.now.nodes }
    ensures { OnOk result (tasks.new.items ≡ tasks.old.items ++ entered (id_at ids.now id.0) id (shape_at net.now.nodes id.0)) }
{
    if ids[id.0 as usize].is_some() {
        return Ok(());
    }
    tasks.push(Task::Leave(id))?;
    push_operands(tasks, net.node(id))?;
    Ok(())
}
