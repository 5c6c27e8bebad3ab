//! Copies of nodes in a new net. A copy is folded and shared again, and may come to be a node that is there.

ghost use Rattle.std.specs.Prelude.{◌≡◌, ◌<◌, length, IfOk, OnOk, slice_set, Some};
ghost use Rattle.bv_core.specs.Operators.{Fits1, Fits2, FitsMux};
ghost use Rattle.tree_core.specs.Tree.{One, Two, Mux};
ghost use Rattle.tree_core.specs.Width.{IsWhole};
ghost use Rattle.tree_core.specs.Fold.{folded};
ghost use Rattle.exec_core.specs.Kept.{add};
ghost use Rattle.net_core.specs.Nodes.{shape_of, tree_of, trees_of, width_at};
ghost use Rattle.net_core.specs.Builder.{Stands, AreShared, Keeps, Adds};
ghost use Rattle.walk_net.specs.Tasks.{OperandsIn};
ghost use Rattle.walk_net.specs.Renaming.{id_at, AreCopies, copied_tree, OperandsHaveCopies, HasCopy, number, with_origin};

use bv_core::{NodeId, Op1, Op2};
use net_core::{Net, NetBuilder, Node};
use text_core::NoMemory;

/// The node that an operand got.
fn operand(builder: &NetBuilder, ids: &[Option<NodeId>], id: NodeId) -> NodeId
    requires { HasCopy builder.now ids.now id.0 }
    ensures number { result.0 ≡ number (id_at ids.now id.0) }
    ensures within { result.0 < length builder.now }
{
    ids[id.0 as usize].unwrap()
}

/// The copy of an operator on a node.
fn copied_one(
    builder: &mut NetBuilder,
    ids: &[Option<NodeId>],
    op: Op1,
    a: NodeId,
) -> Result<NodeId, NoMemory>
    requires operand { HasCopy builder.old ids.now a.0 }
    requires widths { Fits1 op (width_at builder.old (number (id_at ids.now a.0))) }
    ensures stands { IfOk result (λ id. Stands builder.new id.0 (folded (One op (tree_of builder.old (number (id_at ids.now a.0)))))) }
    ensures adds { OnOk result (Adds builder.old builder.new (folded (One op (tree_of builder.old (number (id_at ids.now a.0)))))) }
    ensures keeps { OnOk result (Keeps builder.old builder.new) }
    ensures shared { OnOk result (AreShared builder.new) }
{
    let a = operand(builder, ids, a);
    builder.apply1(op, a)
}

/// The copy of an operator on two nodes.
fn copied_two(
    builder: &mut NetBuilder,
    ids: &[Option<NodeId>],
    op: Op2,
    a: NodeId,
    b: NodeId,
) -> Result<NodeId, NoMemory>
    requires left { HasCopy builder.old ids.now a.0 }
    requires right { HasCopy builder.old ids.now b.0 }
    requires widths { Fits2 op (width_at builder.old (number (id_at ids.now a.0))) (width_at builder.old (number (id_at ids.now b.0))) }
    ensures stands { IfOk result (λ id. Stands builder.new id.0
        (folded (Two op (tree_of builder.old (number (id_at ids.now a.0))) (tree_of builder.old (number (id_at ids.now b.0)))))) }
    ensures adds { OnOk result (Adds builder.old builder.new (folded
        (Two op (tree_of builder.old (number (id_at ids.now a.0))) (tree_of builder.old (number (id_at ids.now b.0)))))) }
    ensures keeps { OnOk result (Keeps builder.old builder.new) }
    ensures shared { OnOk result (AreShared builder.new) }
{
    let a = operand(builder, ids, a);
    let b = operand(builder, ids, b);
    builder.apply2(op, a, b)
}

/// The copy of a choice.
fn copied_choice(
    builder: &mut NetBuilder,
    ids: &[Option<NodeId>],
    c: NodeId,
    a: NodeId,
    b: NodeId,
) -> Result<NodeId, NoMemory>
    requires condition { HasCopy builder.old ids.now c.0 }
    requires first { HasCopy builder.old ids.now a.0 }
    requires second { HasCopy builder.old ids.now b.0 }
    requires widths { FitsMux (width_at builder.old (number (id_at ids.now c.0))) (width_at builder.old (number (id_at ids.now a.0)))
        (width_at builder.old (number (id_at ids.now b.0))) }
    ensures stands { IfOk result (λ id. Stands builder.new id.0
        (folded (Mux (tree_of builder.old (number (id_at ids.now c.0))) (tree_of builder.old (number (id_at ids.now a.0)))
        (tree_of builder.old (number (id_at ids.now b.0)))))) }
    ensures adds { OnOk result (Adds builder.old builder.new (folded
        (Mux (tree_of builder.old (number (id_at ids.now c.0))) (tree_of builder.old (number (id_at ids.now a.0)))
        (tree_of builder.old (number (id_at ids.now b.0)))))) }
    ensures keeps { OnOk result (Keeps builder.old builder.new) }
    ensures shared { OnOk result (AreShared builder.new) }
{
    let c = operand(builder, ids, c);
    let a = operand(builder, ids, a);
    let b = operand(builder, ids, b);
    builder.choose(c, a, b)
}

/// The copy of a node, over those of its operands.
fn copied(builder: &mut NetBuilder, ids: &[Option<NodeId>], node: &Node) -> Result<NodeId, NoMemory>
    requires operands { OperandsHaveCopies builder.old ids.now (shape_of node.now) }
    requires whole { IsWhole (copied_tree builder.old ids.now (shape_of node.now)) }
    ensures stands { IfOk result (λ id. Stands builder.new id.0 (folded (copied_tree builder.old ids.now (shape_of node.now)))) }
    ensures adds { OnOk result (Adds builder.old builder.new (folded (copied_tree builder.old ids.now (shape_of node.now)))) }
    ensures keeps { OnOk result (Keeps builder.old builder.new) }
    ensures shared { OnOk result (AreShared builder.new) }
{
    match node {
        Node::Const(value) => builder.constant(*value),
        Node::Input(name, width) => builder.input(name.bytes(), *width),
        Node::Reg {
            instance,
            name,
            start,
        } => builder.register(instance.bytes(), name.bytes(), *start),
        Node::One(op, a) => copied_one(builder, ids, *op, *a),
        Node::Two(op, a, b) => copied_two(builder, ids, *op, *a, *b),
        Node::Mux(c, a, b) => copied_choice(builder, ids, *c, *a, *b),
    }
}

/// Notes that an old node got a copy, which is the last of so many nodes where it is new.
fn note_copy(
    count: u64,
    ids: &mut [Option<NodeId>],
    origins: &mut Vec<NodeId>,
    id: NodeId,
    copy: NodeId,
) -> Result<(), NoMemory>
    requires { id.0 < length ids.old }
    ensures ids { OnOk result (ids.new ≡ slice_set ids.old id.0 (Some copy)) }
    ensures origins { OnOk result (origins.new.items ≡ with_origin count id origins.old.items) }
{
    ids[id.0 as usize] = Some(copy);
    if (origins.len() as u64) < count {
        origins.push(id)?;
    }
    Ok(())
}

/// Gives a node, whose operands have copies, its own.
pub(crate) fn leave(
    net: &Net,
    builder: &mut NetBuilder,
    ids: &mut [Option<NodeId>],
    origins: &mut Vec<NodeId>,
    id: NodeId,
) -> Result<(), NoMemory>
    requires shared { AreShared net.now.nodes }
    requires within { id.0 < length net.now.nodes }
    requires copies { AreCopies net.now.nodes builder.old ids.old origins.old.items }
    requires operands { OperandsIn (tree_of net.now.nodes id.0) (trees_of builder.old) }
    ensures copies { OnOk result (AreCopies net.now.nodes builder.new ids.new origins.new.items) }
    ensures adds { OnOk result (trees_of builder.new ≡ add (tree_of net.now.nodes id.0) (trees_of builder.old)) }
{
    let copy = copied(builder, ids, net.node(id))?;
    let count = builder.count();
    note_copy(count, ids, origins, id, copy)?;
    Ok(())
}
