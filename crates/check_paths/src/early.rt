//! Reads of own names of a block of which some path has not assigned each bit: the first in the order of the text.

ghost use Rattle.std.specs.Prelude.{◌≡◌, IfOk, OnOk, map};
ghost use Rattle.design_core.specs.View.{block_of, stmt_of, variant_of};
ghost use Rattle.names.specs.Known.{has};
ghost use Rattle.names.specs.Maps.{value_of};
ghost use Rattle.design_core.specs.Heads.{name_at};
ghost use Rattle.check_core.specs.Faults.{Tells, first_of};
ghost use Rattle.check_core.specs.Names.{with_name};
ghost use Rattle.design_core.specs.Statements.{stmts_at};
ghost use Rattle.check_core.specs.Paths.{early_in_block, own, read_before_write as the_read_before_write};
ghost use Rattle.name_widths.specs.DeclaredWidths.{width_at};
ghost use Rattle.check_paths.specs.Walked.{own_after, own_among};

use crate::frames::Frames;
use crate::walk::walk;
use check_core::CheckFault;
use design_core::{Block, Stmt, Variant, statements};
use name_widths::declared_in;
use names::{NameMap, NameSet};
use std::alloc::Global;
use text_core::NoMemory;

/// Puts a name in, if there is one.
fn put_name(alloc: Global, names: &mut NameSet, name: Option<&[u8]>) -> Result<(), NoMemory>
    ensures { OnOk result (has names.new ≡ with_name (name_at name.entry) (has names.old)) }
{
    if let Some(name) = name {
        names.insert(alloc, name)?;
    }
    Ok(())
}

/// Puts the own name of a statement in: the target of an assignment, unless its block is clocked, or a `let`.
fn put_own(alloc: Global, clocked: bool, names: &mut NameSet, stmt: &Stmt) -> Result<(), NoMemory>
    ensures { OnOk result (has names.new ≡ own_after clocked (has names.old) (stmt_of stmt.now)) }
{
    put_name(alloc, names, stmt.let_name())?;
    if !clocked {
        put_name(alloc, names, stmt.target())?;
    }
    Ok(())
}

/// Puts the own names of statements in.
fn put_all_own(
    alloc: Global,
    clocked: bool,
    names: &mut NameSet,
    stmts: &[&Stmt],
) -> Result<(), NoMemory>
    ensures { OnOk result (has names.new ≡ own_among clocked (has names.old) (stmts_at stmts.now)) }
{
    for stmt in stmts {
        put_own(alloc, clocked, names, stmt)?;
    }
    Ok(())
}

/// The own names of a block.
fn own_of(alloc: Global, block: &Block) -> Result<NameSet, NoMemory>
    ensures { IfOk result (λ names. has names ≡ own (block_of block.now)) }
{
    let stmts = statements(alloc, &block.body)?;
    let mut names = NameSet::new(alloc);
    put_all_own(alloc, block.clocked, &mut names, &stmts)?;
    Ok(names)
}

/// Refuses the first read of an own name of a block of which some path has not assigned each bit.
fn early_in_block(alloc: Global, widths: &NameMap<i64>, block: &Block) -> Result<(), CheckFault>
    ensures { Tells result (early_in_block (width_at (value_of widths.now)) (block_of block.now)) }
{
    let own = own_of(alloc, block)?;
    let mut frames = Frames::new(alloc);
    walk(alloc, widths, &own, &mut frames, &block.body)?;
    Ok(())
}

/// The same of blocks in order.
#[tactic(auto, using(check_core::proofs::Firsts::list_steps))]
fn early_among(alloc: Global, widths: &NameMap<i64>, blocks: &[Block]) -> Result<(), CheckFault>
    ensures { Tells result (first_of (early_in_block (width_at (value_of widths.now))) (map block_of blocks.now)) }
{
    for block in blocks {
        early_in_block(alloc, widths, block)?;
    }
    Ok(())
}

/// Refuses the first read in a variant of a target or a `let` of its block of which some path has not assigned each bit before.
pub fn read_before_write(alloc: Global, variant: &Variant) -> Result<(), CheckFault>
    ensures { Tells result (the_read_before_write (variant_of variant.now)) }
{
    let widths = declared_in(alloc, variant.signals.items())?;
    early_among(alloc, &widths, &variant.blocks)
}
