//! A block run once on expressions. What it has come to at its end is kept with its terms and its log, so that each instance and each
//! row can be read off it without another run.

ghost use Rattle.std.specs.Prelude.{◌≡◌, ◌<◌, [], length, IfOk, OnOk};
ghost use Rattle.exec_core.specs.Trees.{tree_start};
ghost use Rattle.names.specs.Maps.{value_of};
ghost use Rattle.name_widths.specs.DeclaredWidths.{width_at};
ghost use Rattle.design_core.specs.View.{block_of};
ghost use Rattle.design_exec.specs.Processes.{body_of};
ghost use Rattle.block_net.specs.Logs.{key_of};
ghost use Rattle.block_net.specs.Parts.{BodyFits};
ghost use Rattle.block_net.specs.Source.{body_in};
ghost use Rattle.block_net.specs.Terms.{AreNumbered, OperandsBelow, term_tree, tree_at, trees_of};
ghost use Rattle.block_net.specs.Walks.{Fits, Shows, all_themselves, among, state_of};
ghost use Rattle.block_net.specs.Blocks.{AreLinked, BlockParts, Tells, begun, hide, shown_ids};

use crate::body::walk_body;
use crate::expression::blank;
use crate::held::{Held, Pending};
use crate::key_set::distinct;
use crate::keys::assigned_by;
use crate::terms::Terms;
use crate::walk::{Walk, shown};
use crate::{Effect, Key, Term, TermId};
use bit_sets::BitSet;
use design_core::{Block, Stmt};
use name_widths::width_of;
use names::NameMap;
use std::alloc::Global;
use std::marker::Model;
use text_core::NoMemory;

/// A block run on expressions: its terms, the log of the walk through it, and what its keys have at the end. Contracts see
/// them as lists.
#[derive(Drop)]
pub struct BlockTerms {
    terms: Terms,
    log: Vec<Effect>,
    names: NameMap<Held>,
    registers: NameMap<Held>,
}

impl Model for BlockTerms {
    ghost use Rattle.block_net.specs.Blocks.{AreLinked, BlockParts, shown_ids};

    ghost Value = { BlockParts };

    ghost view = { λ b. record { terms = b.terms; log = b.log.items; names = shown_ids b.names; registers = shown_ids b.registers } };

    ghost invariant = { λ b. AreLinked (record { terms = b.terms; log = b.log.items; names = shown_ids b.names; registers = shown_ids b.registers }) };
}

impl BlockTerms {
    /// What a walk without a log has come to.
    pub(crate) fn of(walk: Walk) -> BlockTerms
        requires fits { Fits walk }
        requires log { walk.log.items ≡ [] }
        ensures { result.terms ≡ walk.terms }
    {
        BlockTerms {
            terms: walk.terms,
            log: walk.log,
            names: walk.now,
            registers: walk.next,
        }
    }

    /// The terms, each above its operands.
    pub fn terms(&self) -> &[Term]
        ensures terms { result.now ≡ self.now.terms }
        ensures numbered { AreNumbered self.now.terms }
        ensures linked { AreLinked self.now }
    {
        self.terms.items()
    }

    /// The term of an id. Its tree is over those of its operands, which have lower ids.
    pub fn term(&self, id: TermId) -> &Term
        requires { id.0 < length self.now.terms }
        ensures tree { tree_at (trees_of self.now.terms) id.0 ≡ term_tree (trees_of self.now.terms) result.now }
        ensures below { OperandsBelow id.0 result.now }
    {
        self.terms.term(id)
    }

    /// The log: the slots in preorder, and between them what is set.
    pub fn log(&self) -> &[Effect]
        ensures log { result.now ≡ self.now.log }
        ensures linked { AreLinked self.now }
    {
        &self.log
    }

    /// What a name has at the end; None where it still is what it has settled at, and no term stands for that.
    #[tactic(auto, using(crate::proofs::BlockSteps::shown_value))]
    pub fn name(&self, name: &[u8]) -> Option<Option<TermId>>
        ensures id { result ≡ value_of self.now.names name.now }
        ensures linked { AreLinked self.now }
    {
        match self.names.get(name) {
            Some(held) => Some(held.shown),
            None => None,
        }
    }

    /// What a register holds in the next cycle; None where it is what it holds now, and no term stands for that.
    #[tactic(auto, using(crate::proofs::BlockSteps::shown_value))]
    pub fn register(&self, name: &[u8]) -> Option<Option<TermId>>
        ensures id { result ≡ value_of self.now.registers name.now }
        ensures linked { AreLinked self.now }
    {
        match self.registers.get(name) {
            Some(held) => Some(held.shown),
            None => None,
        }
    }
}

/// A key that an own name of a block has is 0 of its width, of which no bit is assigned. Nothing of it is shown, unless it has no bits.
fn hide_key(
    alloc: Global,
    widths: &NameMap<i64>,
    walk: &mut Walk,
    key: &Key,
) -> Result<(), NoMemory>
    requires fits { Fits walk.old }
    requires shows { Shows (width_at (value_of widths.now)) walk.old }
    ensures fits { OnOk result (Fits walk.new) }
    ensures shows { OnOk result (Shows (width_at (value_of widths.now)) walk.new) }
    ensures state { OnOk result (state_of walk.new ≡ hide (width_at (value_of widths.now)) (key_of key.now) (state_of walk.old)) }
    ensures log { OnOk result (walk.new.log.items ≡ walk.old.log.items) }
{
    match key {
        Key::Now(name) => {
            let id = walk.constant(width_of(widths, name.bytes()), 0)?;
            let bits = BitSet::none();
            let pending = Pending { id, bits };
            let shown = shown(widths, key, pending);
            walk.put(alloc, key, Held { pending, shown })?;
            Ok(())
        }
        Key::Next(_) => Ok(()),
    }
}

/// The same of keys, in a walk that has come to nothing yet.
fn hide_all(
    alloc: Global,
    widths: &NameMap<i64>,
    walk: &mut Walk,
    keys: &[Key],
) -> Result<(), NoMemory>
    requires fits { Fits walk.old }
    requires shows { Shows (width_at (value_of widths.now)) walk.old }
    requires state { state_of walk.old ≡ all_themselves }
    ensures fits { OnOk result (Fits walk.new) }
    ensures shows { OnOk result (Shows (width_at (value_of widths.now)) walk.new) }
    ensures state { OnOk result (state_of walk.new ≡ begun (width_at (value_of widths.now)) (among keys.now)) }
    ensures log { OnOk result (walk.new.log.items ≡ walk.old.log.items) }
{
    for key in keys {
        hide_key(alloc, widths, walk, key)?;
    }
    Ok(())
}

/// The beginning of a walk through statements: their own names have no bit assigned, and every other name stands for itself.
fn begin(
    alloc: Global,
    widths: &NameMap<i64>,
    clocked: bool,
    stmts: &[Stmt],
) -> Result<Walk, NoMemory>
    ensures fits { IfOk result (λ walk. Fits walk) }
    ensures shows { IfOk result (λ walk. Shows (width_at (value_of widths.now)) walk) }
    ensures log { IfOk result (λ walk. walk.log.items ≡ []) }
    ensures state { IfOk result (λ walk. state_of walk ≡ tree_start (width_at (value_of widths.now)) (body_in clocked stmts.now)) }
{
    let keys = assigned_by(alloc, clocked, stmts)?;
    let own = distinct(alloc, &keys)?;
    let mut walk = blank(alloc);
    hide_all(alloc, widths, &mut walk, &own)?;
    Ok(walk)
}

/// The terms and the log of statements, which stand in a clocked block or in another.
fn run(
    alloc: Global,
    widths: &NameMap<i64>,
    clocked: bool,
    stmts: &[Stmt],
) -> Result<BlockTerms, NoMemory>
    requires { BodyFits (body_in clocked stmts.now) }
    ensures { IfOk result (λ run. Tells run (width_at (value_of widths.now)) (body_in clocked stmts.now)) }
{
    let mut walk = begin(alloc, widths, clocked, stmts)?;
    let enable = walk.constant(1, 1)?;
    walk_body(alloc, widths, &mut walk, clocked, enable, stmts)?;
    Ok(BlockTerms {
        terms: walk.terms,
        log: walk.log,
        names: walk.now,
        registers: walk.next,
    })
}

/// Runs a block on expressions: its rows, slot by slot in preorder, each with its enable and with what each name has before
/// it, and the trees that its names and registers have at the end. Takes time and memory for its statements, for each `if` for what it
/// assigns, and for each arm of a `case` for what it and all that comes after it assigns.
pub fn block_terms(
    alloc: Global,
    widths: &NameMap<i64>,
    block: &Block,
) -> Result<BlockTerms, NoMemory>
    requires { BodyFits (body_of block.now.clocked (block_of block.now).body) }
    ensures { IfOk result (λ run. Tells run (width_at (value_of widths.now)) (body_of block.now.clocked (block_of block.now).body)) }
{
    run(alloc, widths, block.clocked, &block.body)
}
