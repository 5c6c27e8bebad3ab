//! Widths, literals and slices that are none, whatever stands around them.

ghost use Rattle.std.specs.Prelude.{◌≡◌, map};
ghost use Rattle.design_core.specs.View.{block_of, child_of, conn_of, stmt_of, variant_of};
ghost use Rattle.check_core.specs.Faults.{Tells, first_of};
ghost use Rattle.design_core.specs.Statements.{stmts_at};
ghost use Rattle.check_core.specs.Widths.{bad_conn, bad_in_block, bad_in_child, bad_signal, bad_stmt, bad_width as the_bad_width, unless_sized};

use crate::arms::arms_are_sized;
use crate::sizes::{is_declared, is_part, is_sized};
use check_core::{CheckFault, spot};
use design_core::{Block, Child, Conn, Signal, Stmt, Variant, statements};
use std::alloc::Global;

/// Refuses a name unless it is sized.
fn sized_or_refused(alloc: Global, sized: bool, line: u32, name: &[u8]) -> Result<(), CheckFault>
    ensures { Tells result (unless_sized sized line name.now) }
{
    if sized {
        return Ok(());
    }
    Err(CheckFault::BadWidth(spot(alloc, line, name)?))
}

/// Refuses a declaration.
fn bad_signal(alloc: Global, signal: &Signal) -> Result<(), CheckFault>
    ensures { Tells result (bad_signal signal.now) }
{
    let sized = is_declared(&signal.kind, signal.width);
    sized_or_refused(alloc, sized, signal.line, signal.name.bytes())?;
    Ok(())
}

/// The same of declarations in order.
#[tactic(auto, using(check_core::proofs::Firsts::plain_steps))]
fn bad_signals(alloc: Global, signals: &[Signal]) -> Result<(), CheckFault>
    ensures { Tells result (first_of bad_signal signals.now) }
{
    for signal in signals {
        bad_signal(alloc, signal)?;
    }
    Ok(())
}

/// Refuses a connection.
fn bad_conn(alloc: Global, conn: &Conn) -> Result<(), CheckFault>
    ensures { Tells result (bad_conn (conn_of conn.now)) }
{
    sized_or_refused(alloc, is_sized(&conn.value), conn.line, conn.port.bytes())?;
    Ok(())
}

/// The same of a child's connections in order.
#[tactic(auto, using(check_core::proofs::Firsts::list_steps))]
fn bad_in_child(alloc: Global, child: &Child) -> Result<(), CheckFault>
    ensures { Tells result (bad_in_child (child_of child.now)) }
{
    for conn in &child.conns {
        bad_conn(alloc, conn)?;
    }
    Ok(())
}

/// The same of children in order.
#[tactic(auto, using(check_core::proofs::Firsts::list_steps))]
fn bad_in_children(alloc: Global, children: &[Child]) -> Result<(), CheckFault>
    ensures { Tells result (first_of bad_in_child (map child_of children.now)) }
{
    for child in children {
        bad_in_child(alloc, child)?;
    }
    Ok(())
}

/// Refuses a statement, without those inside it.
#[tactic(auto, using(design_core::proofs::Views::design_views))]
fn bad_stmt(alloc: Global, stmt: &Stmt) -> Result<(), CheckFault>
    ensures { Tells result (bad_stmt (stmt_of stmt.now)) }
{
    match stmt {
        Stmt::Assign {
            line,
            target,
            part,
            value,
            ..
        } => {
            let sized = is_sized(value) && is_part(*part);
            sized_or_refused(alloc, sized, *line, target.bytes())?;
            Ok(())
        }
        Stmt::Let {
            line,
            name,
            value,
            ..
        } => {
            sized_or_refused(alloc, is_sized(value), *line, name.bytes())?;
            Ok(())
        }
        Stmt::If { line, test, .. } => {
            sized_or_refused(alloc, is_sized(test), *line, b"if")?;
            Ok(())
        }
        Stmt::Case {
            line,
            value,
            arms,
            ..
        } => {
            let sized = is_sized(value) && arms_are_sized(arms);
            sized_or_refused(alloc, sized, *line, b"case")?;
            Ok(())
        }
    }
}

/// The same of statements in order.
#[tactic(auto, using(check_core::proofs::Firsts::list_steps))]
fn bad_stmts(alloc: Global, stmts: &[&Stmt]) -> Result<(), CheckFault>
    ensures { Tells result (first_of bad_stmt (stmts_at stmts.now)) }
{
    for stmt in stmts {
        bad_stmt(alloc, stmt)?;
    }
    Ok(())
}

/// The same of a block.
fn bad_in_block(alloc: Global, block: &Block) -> Result<(), CheckFault>
    ensures { Tells result (bad_in_block (block_of block.now)) }
{
    let stmts = statements(alloc, &block.body)?;
    bad_stmts(alloc, &stmts)?;
    Ok(())
}

/// The same of blocks in order.
#[tactic(auto, using(check_core::proofs::Firsts::list_steps))]
fn bad_in_blocks(alloc: Global, blocks: &[Block]) -> Result<(), CheckFault>
    ensures { Tells result (first_of bad_in_block (map block_of blocks.now)) }
{
    for block in blocks {
        bad_in_block(alloc, block)?;
    }
    Ok(())
}

/// Refuses the first width in a variant that is not from 1 to 128, the first literal that is negative or does not fit its width, and
/// the first slice, of an expression or of what is assigned, that does not lie from 0 to 127.
#[tactic(auto, using(check_core::proofs::Firsts::two_steps))]
pub fn bad_width(alloc: Global, variant: &Variant) -> Result<(), CheckFault>
    ensures { Tells result (the_bad_width (variant_of variant.now)) }
{
    bad_signals(alloc, variant.signals.items())?;
    bad_in_children(alloc, &variant.children)?;
    bad_in_blocks(alloc, &variant.blocks)?;
    Ok(())
}
