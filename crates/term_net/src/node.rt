//! One term as a node, where its operands have theirs.

ghost use Rattle.std.specs.Prelude.{◌≡◌, ◌<◌, length, IfOk, OnOk};
ghost use Rattle.bv_core.specs.Operators.{Fits1, Fits2, FitsMux};
ghost use Rattle.tree_core.specs.Tree.{Const, Mux, One, Two};
ghost use Rattle.tree_core.specs.Fold.{folded};
ghost use Rattle.names.specs.Maps.{value_of};
ghost use Rattle.net_core.specs.Nodes.{tree_of, width_at};
ghost use Rattle.net_core.specs.Builder.{Stands};
ghost use Rattle.block_net.specs.Terms.{AreNumbered, tree_at, trees_of};
ghost use Rattle.term_net.specs.Leaves.{IsReady, leaf_id, leaf_tree, term_whole};
ghost use Rattle.term_net.specs.Growth.{Grown};
ghost use Rattle.term_net.specs.Memos.{Fits};
ghost use Rattle.term_net.specs.Pending.{AreKnown, term_at};

use crate::operators::{binary, unary};
use block_net::{Term, TermId};
use bv_core::{Bv, NodeId, Op1, Op2};
use design_core::{bits, constant};
use names::NameMap;
use net_core::NetBuilder;
use text_core::NoMemory;

/// The node of a name, if it has one.
fn leaf(places: &NameMap<u32>, nodes: &[Option<NodeId>], name: &[u8]) -> Option<NodeId>
    ensures { result ≡ leaf_id (value_of places.now) nodes.now name.now }
{
    let place = places.get(name)?;
    *nodes.get(place as usize)?
}

/// A constant.
fn value(builder: &mut NetBuilder, value: Bv) -> Result<NodeId, NoMemory>
    ensures stands { IfOk result (λ id. Stands builder.new id.0 (Const value)) }
    ensures grown { OnOk result (Grown builder.old builder.new) }
{
    let id = builder.constant(value)?;
    Ok(id)
}

/// An operator on a node.
fn one(builder: &mut NetBuilder, op: Op1, a: NodeId) -> Result<NodeId, NoMemory>
    requires operand { a.0 < length builder.old }
    requires widths { Fits1 op (width_at builder.old a.0) }
    ensures stands { IfOk result (λ id. Stands builder.new id.0 (folded (One op (tree_of builder.old a.0)))) }
    ensures grown { OnOk result (Grown builder.old builder.new) }
{
    let id = builder.apply1(op, a)?;
    Ok(id)
}

/// An operator on two nodes.
fn two(builder: &mut NetBuilder, op: Op2, a: NodeId, b: NodeId) -> Result<NodeId, NoMemory>
    requires left { a.0 < length builder.old }
    requires right { b.0 < length builder.old }
    requires widths { Fits2 op (width_at builder.old a.0) (width_at builder.old b.0) }
    ensures stands { IfOk result (λ id. Stands builder.new id.0 (folded (Two op (tree_of builder.old a.0) (tree_of builder.old b.0)))) }
    ensures grown { OnOk result (Grown builder.old builder.new) }
{
    let id = builder.apply2(op, a, b)?;
    Ok(id)
}

/// A choice between two nodes by a third.
fn choice(builder: &mut NetBuilder, c: NodeId, a: NodeId, b: NodeId) -> Result<NodeId, NoMemory>
    requires condition { c.0 < length builder.old }
    requires first { a.0 < length builder.old }
    requires second { b.0 < length builder.old }
    requires widths { FitsMux (width_at builder.old c.0) (width_at builder.old a.0) (width_at builder.old b.0) }
    ensures stands { IfOk result (λ id. Stands builder.new id.0 (folded (Mux (tree_of builder.old c.0) (tree_of builder.old a.0) (tree_of builder.old b.0)))) }
    ensures grown { OnOk result (Grown builder.old builder.new) }
{
    let id = builder.choose(c, a, b)?;
    Ok(id)
}

/// The node of a term whose operands have nodes.
pub(crate) fn node_of(
    builder: &mut NetBuilder,
    terms: &[Term],
    places: &NameMap<u32>,
    nodes: &[Option<NodeId>],
    memo: &[Option<NodeId>],
    id: TermId,
) -> Result<NodeId, NoMemory>
    requires fits { Fits builder.old (value_of places.now) nodes.now terms.now memo.now }
    requires numbered { AreNumbered terms.now }
    requires within { id.0 < length terms.now }
    requires ready { IsReady (leaf_id (value_of places.now) nodes.now) (leaf_tree builder.old (value_of places.now) nodes.now)
        (tree_at (trees_of terms.now) id.0) }
    requires known { AreKnown memo.now (term_at terms.now id.0) }
    ensures stands { IfOk result (λ node. Stands builder.new node.0 (term_whole (leaf_tree builder.old (value_of places.now) nodes.now) terms.now id.0)) }
    ensures grown { OnOk result (Grown builder.old builder.new) }
{
    let term = &terms[id.0];
    match term {
        Term::Leaf(name) => {
            let node = leaf(places, nodes, name.bytes()).unwrap();
            Ok(node)
        }
        Term::Value {
            width,
            value: number,
        } => {
            let node = value(builder, constant(*width, *number))?;
            Ok(node)
        }
        Term::Unary(op, a) => {
            let a = memo[a.0].unwrap();
            let node = one(builder, unary(*op), a)?;
            Ok(node)
        }
        Term::Binary(op, a, b) => {
            let a = memo[a.0].unwrap();
            let b = memo[b.0].unwrap();
            let node = two(builder, binary(*op), a, b)?;
            Ok(node)
        }
        Term::Mux(c, a, b) => {
            let c = memo[c.0].unwrap();
            let a = memo[a.0].unwrap();
            let b = memo[b.0].unwrap();
            let node = choice(builder, c, a, b)?;
            Ok(node)
        }
        Term::Zext(a, width) => {
            let a = memo[a.0].unwrap();
            let node = one(builder, Op1::Zext(bits(*width)), a)?;
            Ok(node)
        }
        Term::Slice(a, high, low) => {
            let a = memo[a.0].unwrap();
            let node = one(builder, Op1::Slice(bits(*high), bits(*low)), a)?;
            Ok(node)
        }
    }
}
