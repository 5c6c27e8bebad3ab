//! Targets of a `comb` of which some path leaves a bit unassigned, in the order of their first assignments.

ghost use Rattle.std.specs.Prelude.{◌≡◌, ◌∷◌, [], IfOk, None, map};
ghost use Rattle.design_core.specs.View.{block_of, body_of, stmt_of, variant_of};
ghost use Rattle.names.specs.Maps.{value_of};
ghost use Rattle.check_core.specs.Faults.{Tells, first_of};
ghost use Rattle.design_core.specs.Statements.{stmts_at};
ghost use Rattle.check_core.specs.Drivers.{assignments};
ghost use Rattle.check_core.specs.Paths.{latch as the_latch, latch_in};
ghost use Rattle.name_widths.specs.DeclaredWidths.{width_at};
ghost use Rattle.check_paths.specs.Frames.{all_bits};
ghost use Rattle.check_paths.specs.Walked.{assigned_in as the_assigned_in, left_out};

use crate::frames::Frames;
use crate::walk::walk;
use check_core::{CheckFault, spot};
use design_core::{Block, Stmt, Variant, statements};
use name_widths::{bits_of, declared_in};
use names::{NameMap, NameSet};
use std::alloc::Global;

/// The bits that every path through statements assigns.
fn assigned_in(alloc: Global, stmts: &[Stmt]) -> Result<Frames, CheckFault>
    ensures told { Tells result None }
    ensures assigned { IfOk result (λ assigned. all_bits assigned ≡ the_assigned_in (body_of stmts.now)) }
{
    let widths = NameMap::new(alloc);
    let watched = NameSet::new(alloc);
    let mut frames = Frames::new(alloc);
    walk(alloc, &widths, &watched, &mut frames, stmts)?;
    Ok(frames)
}

/// Refuses an assignment to what is not assigned on every path, each bit of it.
fn left_out_at(
    alloc: Global,
    widths: &NameMap<i64>,
    assigned: &Frames,
    line: u32,
    stmt: &Stmt,
) -> Result<(), CheckFault>
    ensures { Tells result (first_of (left_out (width_at (value_of widths.now)) (all_bits assigned.now) line) (assignments (stmt_of stmt.now ∷ []))) }
{
    let Some(target) = stmt.target() else {
        return Ok(());
    };
    if assigned.bits(target).is_full(bits_of(widths, target)) {
        return Ok(());
    }
    Err(CheckFault::Latch(spot(alloc, line, target)?))
}

/// Refuses the first of these assignments to what is not assigned on every path, each bit of it.
fn left_out_among(
    alloc: Global,
    widths: &NameMap<i64>,
    assigned: &Frames,
    line: u32,
    stmts: &[&Stmt],
) -> Result<(), CheckFault>
    ensures { Tells result (first_of (left_out (width_at (value_of widths.now)) (all_bits assigned.now) line) (assignments (stmts_at stmts.now))) }
{
    for stmt in stmts {
        left_out_at(alloc, widths, assigned, line, stmt)?;
    }
    Ok(())
}

/// Refuses the first target of a `comb` that some path leaves unassigned in some bit, at the line of the block.
fn latch_in(alloc: Global, widths: &NameMap<i64>, block: &Block) -> Result<(), CheckFault>
    ensures { Tells result (latch_in (width_at (value_of widths.now)) (block_of block.now)) }
{
    if block.clocked {
        return Ok(());
    }
    let assigned = assigned_in(alloc, &block.body)?;
    let stmts = statements(alloc, &block.body)?;
    left_out_among(alloc, widths, &assigned, block.line, &stmts)?;
    Ok(())
}

/// The same of blocks in order.
#[tactic(auto, using(check_core::proofs::Firsts::list_steps))]
fn latch_among(alloc: Global, widths: &NameMap<i64>, blocks: &[Block]) -> Result<(), CheckFault>
    ensures { Tells result (first_of (latch_in (width_at (value_of widths.now))) (map block_of blocks.now)) }
{
    for block in blocks {
        latch_in(alloc, widths, block)?;
    }
    Ok(())
}

/// Refuses the first target of a `comb` of a variant that some path through the block leaves unassigned in some bit.
pub fn latch(alloc: Global, variant: &Variant) -> Result<(), CheckFault>
    ensures { Tells result (the_latch (variant_of variant.now)) }
{
    let widths = declared_in(alloc, variant.signals.items())?;
    latch_among(alloc, &widths, &variant.blocks)
}
