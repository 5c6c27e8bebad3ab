//! Wires and outputs that no block assigns.

ghost use Rattle.std.specs.Prelude.{◌≡◌, IfOk, OnOk, map};
ghost use Rattle.design_core.specs.View.{block_of, stmt_of, variant_of};
ghost use Rattle.names.specs.Known.{either, has};
ghost use Rattle.check_core.specs.Faults.{Tells, first_of};
ghost use Rattle.design_core.specs.Statements.{stmts_at};
ghost use Rattle.check_core.specs.Drivers.{assigned_after, assignments, driven_in, drives, is_assigned, undriven as the_undriven, undriven_at};

use check_core::{CheckFault, Kinds, spot};
use design_core::{Block, Signal, Stmt, Variant, statements};
use names::NameSet;
use std::alloc::Global;
use text_core::NoMemory;

/// Puts the target of an assignment in.
fn put_target(alloc: Global, assigned: &mut NameSet, stmt: &Stmt) -> Result<(), NoMemory>
    ensures { OnOk result (has assigned.new ≡ assigned_after (has assigned.old) (stmt_of stmt.now)) }
{
    if let Some(target) = stmt.target() {
        assigned.insert(alloc, target)?;
    }
    Ok(())
}

/// Puts the targets of statements in.
fn put_targets(alloc: Global, assigned: &mut NameSet, stmts: &[&Stmt]) -> Result<(), NoMemory>
    ensures { OnOk result (has assigned.new ≡ either (has assigned.old) (drives (assignments (stmts_at stmts.now)))) }
{
    for stmt in stmts {
        put_target(alloc, assigned, stmt)?;
    }
    Ok(())
}

/// Puts the targets of a block in.
fn put_block(alloc: Global, assigned: &mut NameSet, block: &Block) -> Result<(), NoMemory>
    ensures { OnOk result (has assigned.new ≡ either (has assigned.old) (drives (driven_in (block_of block.now)))) }
{
    let stmts = statements(alloc, &block.body)?;
    put_targets(alloc, assigned, &stmts)?;
    Ok(())
}

/// What blocks assign.
fn assigned_by(alloc: Global, blocks: &[Block]) -> Result<NameSet, NoMemory>
    ensures { IfOk result (λ assigned. has assigned ≡ is_assigned (map block_of blocks.now)) }
{
    let mut assigned = NameSet::new(alloc);
    for block in blocks {
        put_block(alloc, &mut assigned, block)?;
    }
    Ok(assigned)
}

/// Refuses a wire or an output that is not among those that are assigned.
fn undriven_at(alloc: Global, assigned: &NameSet, signal: &Signal) -> Result<(), CheckFault>
    ensures { Tells result (undriven_at (has assigned.now) signal.now) }
{
    if !Kinds::Driven.hold(&signal.kind) || assigned.contains(signal.name.bytes()) {
        return Ok(());
    }
    Err(CheckFault::Undriven(spot(alloc, signal.line, signal.name.bytes())?))
}

/// The same of signals in order.
#[tactic(auto, using(check_core::proofs::Firsts::plain_steps))]
fn undriven_among(alloc: Global, assigned: &NameSet, signals: &[Signal]) -> Result<(), CheckFault>
    ensures { Tells result (first_of (undriven_at (has assigned.now)) signals.now) }
{
    for signal in signals {
        undriven_at(alloc, assigned, signal)?;
    }
    Ok(())
}

/// Refuses the first wire or output of a variant that no block assigns.
pub fn undriven(alloc: Global, variant: &Variant) -> Result<(), CheckFault>
    ensures { Tells result (the_undriven (variant_of variant.now)) }
{
    let assigned = assigned_by(alloc, &variant.blocks)?;
    undriven_among(alloc, &assigned, variant.signals.items())
}
