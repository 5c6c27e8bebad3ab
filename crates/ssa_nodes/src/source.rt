//! The node of what stands at the source of a link.

ghost use Rattle.std.specs.Prelude.{◌≡◌, ℕ, None, length, slice_index_or, IfOk, OnOk};
ghost use Rattle.names.specs.Maps.{value_of};
ghost use Rattle.net_core.specs.Builder.{AreShared, Stands};
ghost use Rattle.block_net.specs.Source.{expr_in};
ghost use Rattle.term_net.specs.Growth.{AreNodes, Grown};
ghost use Rattle.term_net.specs.Leaves.{IsReady, leaf_id, leaf_tree, whole_of};
ghost use Rattle.ssa_core.specs.Links.{link_as};
ghost use Rattle.ssa_nodes.specs.Parts.{HasParts, HasSignals, IsReadyBy, StandsBy};

use crate::leaf_node;
use crate::parts::{Parts, names_of};
use block_net::expr_terms;
use bv_core::NodeId;
use design_core::Expr;
use names::NameMap;
use net_core::NetBuilder;
use ssa_core::{Link, LinkValue};
use std::alloc::{AllocError, Global};
use term_net::evaluate;
use text_core::NoMemory;

/// No nodes, at so many places.
pub fn no_nodes(alloc: Global, count: usize) -> Result<Vec<Option<NodeId>>, AllocError>
    ensures count { IfOk result (λ nodes. length nodes.items ≡ count) }
    ensures none { IfOk result (λ nodes. (k : ℕ) → slice_index_or nodes.items k None ≡ None) }
{
    vec![in alloc; None; count]
}

/// The node of an expression over names of an instance that have nodes.
fn expr_node(
    alloc: Global,
    builder: &mut NetBuilder,
    names: &NameMap<u32>,
    nodes: &[Option<NodeId>],
    expr: &Expr,
) -> Result<NodeId, NoMemory>
    requires shared { AreShared builder.old }
    requires nodes { AreNodes builder.old nodes.now }
    requires ready { IsReady (leaf_id (value_of names.now) nodes.now) (leaf_tree builder.old (value_of names.now) nodes.now) (expr_in expr.now) }
    ensures stands { IfOk result (λ id. Stands builder.new id.0 (whole_of (leaf_tree builder.new (value_of names.now) nodes.now) (expr_in expr.now))) }
    ensures grown { OnOk result (Grown builder.old builder.new) }
{
    let (block, root) = expr_terms(alloc, expr)?;
    let mut memo = no_nodes(alloc, block.terms().len())?;
    let id = evaluate(alloc, builder, &block, names, nodes, &mut memo, root)?;
    Ok(id)
}

/// The node of what stands at the source of a link, whose signals have nodes.
pub fn link_node(
    alloc: Global,
    parts: &Parts<'_>,
    builder: &mut NetBuilder,
    nodes: &[Option<NodeId>],
    link: &Link<'_>,
) -> Result<NodeId, NoMemory>
    requires parts { HasParts parts.now }
    requires signals { HasSignals parts.now builder.old nodes.now }
    requires ready { IsReadyBy parts.now nodes.now (link_as link.now).1 }
    ensures stands { IfOk result (StandsBy parts.now builder.new (link_as link.now).1) }
    ensures grown { OnOk result (Grown builder.old builder.new) }
{
    let names = names_of(parts, link.source);
    match &link.value {
        LinkValue::Expr(expr) => {
            let id = expr_node(alloc, builder, names, nodes, expr)?;
            Ok(id)
        }
        LinkValue::Output(output) => Ok(leaf_node(names, nodes, output).unwrap()),
    }
}
