//! A term evaluated without recursion: a stack has the terms whose operands have no node yet.

ghost use Rattle.std.specs.Prelude.{◌≡◌, ◌<◌, ◌+◌, ◌*◌, ◌++◌, ◌∷◌, [], length, IfOk, OnOk, ℕ};
ghost use Rattle.names.specs.Maps.{value_of};
ghost use Rattle.net_core.specs.Builder.{Stands};
ghost use Rattle.block_net.specs.Terms.{AreNumbered, tree_at, trees_of};
ghost use Rattle.term_net.specs.Leaves.{IsReady, leaf_id, leaf_tree, term_whole};
ghost use Rattle.term_net.specs.Growth.{Grown, Stay};
ghost use Rattle.term_net.specs.Memos.{Fits};
ghost use Rattle.term_net.specs.Pending.{AreKnown, Fall, FallTo, IsPending, term_at, unknown_count, work, GetsNode};

use crate::node::node_of;
use crate::pending::{missing, next};
use block_net::{BlockTerms, Term, TermId};
use bv_core::NodeId;
use names::NameMap;
use net_core::NetBuilder;
use std::alloc::Global;
use text_core::NoMemory;

/// Gives a term, whose operands have nodes, its node.
fn settle(
    builder: &mut NetBuilder,
    terms: &[Term],
    places: &NameMap<u32>,
    nodes: &[Option<NodeId>],
    memo: &mut [Option<NodeId>],
    top: TermId,
) -> Result<(), NoMemory>
    requires fits { Fits builder.old (value_of places.now) nodes.now terms.now memo.old }
    requires numbered { AreNumbered terms.now }
    requires within { top.0 < length terms.now }
    requires pending { IsPending builder.old (value_of places.now) nodes.now terms.now memo.old top.0 }
    requires known { AreKnown memo.old (term_at terms.now top.0) }
    ensures set { OnOk result (GetsNode memo.old memo.new top.0) }
    ensures fits { OnOk result (Fits builder.new (value_of places.now) nodes.now terms.now memo.new) }
    ensures grown { OnOk result (Grown builder.old builder.new) }
{
    let id = node_of(builder, terms, places, nodes, memo, top)?;
    memo[top.0] = Some(id);
    Ok(())
}

/// Puts a term off until an operand of it has a node.
fn put_off(stack: &mut Vec<TermId>, top: TermId, operand: TermId) -> Result<(), NoMemory>
    ensures { OnOk result (stack.new.items ≡ stack.old.items ++ top ∷ [] ++ operand ∷ []) }
{
    stack.push(top)?;
    stack.push(operand)?;
    Ok(())
}

/// Gives the top its node, or puts it off.
fn advance(
    builder: &mut NetBuilder,
    terms: &[Term],
    places: &NameMap<u32>,
    nodes: &[Option<NodeId>],
    memo: &mut [Option<NodeId>],
    stack: &mut Vec<TermId>,
    top: TermId,
) -> Result<(), NoMemory>
    requires fits { Fits builder.old (value_of places.now) nodes.now terms.now memo.old }
    requires numbered { AreNumbered terms.now }
    requires falls { FallTo (IsPending builder.old (value_of places.now) nodes.now terms.now memo.old) (length terms.now) stack.old.items top.0 }
    requires pending { IsPending builder.old (value_of places.now) nodes.now terms.now memo.old top.0 }
    ensures fits { OnOk result (Fits builder.new (value_of places.now) nodes.now terms.now memo.new) }
    ensures grown { OnOk result (Grown builder.old builder.new) }
    ensures stay { OnOk result (Stay memo.old memo.new) }
    ensures falls { OnOk result (Fall (IsPending builder.new (value_of places.now) nodes.now terms.now memo.new) (length terms.now) stack.new.items) }
    ensures less { OnOk result ((root : ℕ) → root < length terms.now
        → work root memo.new stack.new.items < unknown_count memo.old * (length memo.old + 1) + top.0) }
{
    match missing(terms, memo, top) {
        Some(operand) => put_off(stack, top, operand),
        None => settle(builder, terms, places, nodes, memo, top),
    }
}

/// The node of a term.
fn evaluate_term(
    alloc: Global,
    builder: &mut NetBuilder,
    terms: &[Term],
    places: &NameMap<u32>,
    nodes: &[Option<NodeId>],
    memo: &mut [Option<NodeId>],
    root: TermId,
) -> Result<NodeId, NoMemory>
    requires fits { Fits builder.old (value_of places.now) nodes.now terms.now memo.old }
    requires numbered { AreNumbered terms.now }
    requires within { root.0 < length terms.now }
    requires ready { IsReady (leaf_id (value_of places.now) nodes.now) (leaf_tree builder.old (value_of places.now) nodes.now)
        (tree_at (trees_of terms.now) root.0) }
    ensures stands { IfOk result (λ id. Stands builder.new id.0 (term_whole (leaf_tree builder.new (value_of places.now) nodes.now) terms.now root.0)) }
    ensures fits { OnOk result (Fits builder.new (value_of places.now) nodes.now terms.now memo.new) }
    ensures grown { OnOk result (Grown builder.old builder.new) }
    ensures stay { OnOk result (Stay memo.old memo.new) }
{
    let mut stack = Vec::new(alloc);
    loop {
        match memo[root.0] {
            Some(id) => return Ok(id),
            None => {}
        }
        let top = next(&mut stack, root);
        advance(builder, terms, places, nodes, memo, &mut stack, top)?;
    }
}

/// The node of a term of a block, over names of an instance that have nodes: it stands for the folded whole tree of the term.
/// The terms on the way to it get nodes too, each once. Takes time and memory for those that have none yet. Where memory is
/// refused, nothing is said of the builder and the memo.
pub fn evaluate(
    alloc: Global,
    builder: &mut NetBuilder,
    block: &BlockTerms,
    places: &NameMap<u32>,
    nodes: &[Option<NodeId>],
    memo: &mut [Option<NodeId>],
    root: TermId,
) -> Result<NodeId, NoMemory>
    requires fits { Fits builder.old (value_of places.now) nodes.now block.now.terms memo.old }
    requires within { root.0 < length block.now.terms }
    requires ready { IsReady (leaf_id (value_of places.now) nodes.now) (leaf_tree builder.old (value_of places.now) nodes.now)
        (tree_at (trees_of block.now.terms) root.0) }
    ensures stands { IfOk result (λ id. Stands builder.new id.0 (term_whole (leaf_tree builder.new (value_of places.now) nodes.now) block.now.terms root.0)) }
    ensures fits { OnOk result (Fits builder.new (value_of places.now) nodes.now block.now.terms memo.new) }
    ensures grown { OnOk result (Grown builder.old builder.new) }
    ensures stay { OnOk result (Stay memo.old memo.new) }
{
    let terms = block.terms();
    let id = evaluate_term(alloc, builder, terms, places, nodes, memo, root)?;
    Ok(id)
}
