//! Widths that do not go together, in the order in which the parts of a variant are judged.

ghost use Rattle.std.specs.Prelude.{◌≡◌, OnOk, map};
ghost use Rattle.design_core.specs.View.{arms_of, block_of, child_of, conn_of, expr_of, stmt_of, variant_of};
ghost use Rattle.check_core.specs.Faults.{Tells, first_of};
ghost use Rattle.design_core.specs.Statements.{stmts_at};
ghost use Rattle.check_core.specs.Widths.{arm_literals, arms_width as the_arms_width, conn_mismatch, mismatch, mismatch_among, mismatch_in_block, mismatch_in_child, mismatch_with, needed, needed_by, part_width as the_part_width, put_let, signal_mismatch, stmt_mismatch, width_mismatch as the_width_mismatch, widths_after, width_in as the_width_in, width_of as the_width_of};
ghost use Rattle.check_widths.specs.WidthMaps.{widths_at, widths_in};

use crate::arms::arms_width;
use crate::maps::{ports_of, put_bits, widths_of};
use crate::table::{needed_width, part_width};
use crate::widths::{bits, told, width_at, width_in, width_of};
use check_core::{CheckFault, Kinds};
use design_core::{Arm, Block, Child, Conn, Expr, Kind, Signal, Stmt, Variant, statements};
use names::NameMap;
use std::alloc::Global;

/// Refuses a register whose start value has not its width.
fn signal_mismatch(alloc: Global, signal: &Signal) -> Result<(), CheckFault>
    ensures { Tells result (signal_mismatch signal.now) }
{
    match &signal.kind {
        Kind::Reg(start) => {
            let found = needed_width(bits(signal.width), bits(start.width));
            told(alloc, signal.line, signal.name.bytes(), found)?;
            Ok(())
        }
        Kind::Input | Kind::Output | Kind::Wire | Kind::ChildOut(_, _) => Ok(()),
    }
}

/// The same of signals in order.
#[tactic(auto, using(check_core::proofs::Firsts::plain_steps))]
fn signal_mismatches(alloc: Global, signals: &[Signal]) -> Result<(), CheckFault>
    ensures { Tells result (first_of signal_mismatch signals.now) }
{
    for signal in signals {
        signal_mismatch(alloc, signal)?;
    }
    Ok(())
}

/// Refuses a connection to a port of these, among these signals.
#[tactic(auto, using(crate::proofs::WidthSteps::needed_steps))]
fn conn_mismatch(
    alloc: Global,
    lets: &NameMap<i64>,
    signals: &NameMap<i64>,
    ports: &NameMap<i64>,
    conn: &Conn,
) -> Result<(), CheckFault>
    ensures { Tells result (conn_mismatch (widths_in lets.now signals.now) (widths_at ports.now) (conn_of conn.now)) }
{
    let port = conn.port.bytes();
    let have = width_in(alloc, lets, signals, conn.line, port, &conn.value)?;
    told(
        alloc,
        conn.line,
        port,
        needed_width(width_at(ports, port), have),
    )?;
    Ok(())
}

/// The same of connections in order.
#[tactic(auto, using(check_core::proofs::Firsts::list_steps))]
fn conn_mismatches(
    alloc: Global,
    lets: &NameMap<i64>,
    signals: &NameMap<i64>,
    ports: &NameMap<i64>,
    conns: &[Conn],
) -> Result<(), CheckFault>
    ensures { Tells result (first_of (conn_mismatch (widths_in lets.now signals.now) (widths_at ports.now)) (map conn_of conns.now)) }
{
    for conn in conns {
        conn_mismatch(alloc, lets, signals, ports, conn)?;
    }
    Ok(())
}

/// The same of a child.
fn mismatch_in_child(
    alloc: Global,
    signals: &NameMap<i64>,
    variants: &[Variant],
    child: &Child,
) -> Result<(), CheckFault>
    ensures { Tells result (mismatch_in_child (widths_at signals.now) (map variant_of variants.now) (child_of child.now)) }
{
    let ports = ports_of(alloc, variants, child.variant)?;
    let lets = NameMap::new(alloc);
    conn_mismatches(alloc, &lets, signals, &ports, &child.conns)
}

/// The same of children in order.
#[tactic(auto, using(check_core::proofs::Firsts::list_steps))]
fn mismatch_in_children(
    alloc: Global,
    signals: &NameMap<i64>,
    variants: &[Variant],
    children: &[Child],
) -> Result<(), CheckFault>
    ensures { Tells result (first_of (mismatch_in_child (widths_at signals.now) (map variant_of variants.now)) (map child_of children.now)) }
{
    for child in children {
        mismatch_in_child(alloc, signals, variants, child)?;
    }
    Ok(())
}

/// Refuses a condition that has not width 1.
#[tactic(auto, using(crate::proofs::WidthSteps::needed_steps))]
fn test_mismatch(
    alloc: Global,
    lets: &NameMap<i64>,
    signals: &NameMap<i64>,
    line: u32,
    name: &[u8],
    test: &Expr,
) -> Result<(), CheckFault>
    ensures { Tells result (mismatch line name.now (needed 1 (the_width_in (widths_in lets.now signals.now) (expr_of test.now)))) }
{
    let have = width_in(alloc, lets, signals, line, name, test)?;
    told(alloc, line, name, needed_width(1, have))?;
    Ok(())
}

/// Refuses the expression of a `let`, or puts it in with its expression's width.
#[tactic(auto, using(crate::proofs::WidthSteps::none_done, crate::proofs::MapSteps::let_put))]
fn let_mismatch(
    alloc: Global,
    lets: &mut NameMap<i64>,
    signals: &NameMap<i64>,
    line: u32,
    name: &[u8],
    value: &Expr,
) -> Result<(), CheckFault>
    ensures told { Tells result (mismatch line name.now (the_width_in (widths_in lets.old signals.now) (expr_of value.now))) }
    ensures lets { OnOk result (widths_in lets.new signals.now
        ≡ put_let name.now (the_width_in (widths_in lets.old signals.now) (expr_of value.now)) (widths_in lets.old signals.now)) }
{
    let width = width_in(alloc, lets, signals, line, name, value)?;
    put_bits(alloc, lets, name, width)?;
    Ok(())
}

/// Refuses an assignment: its expression, then the bounds of what it assigns, then the width of both.
#[tactic(auto, using(crate::proofs::WidthSteps::by_steps))]
fn assign_mismatch(
    alloc: Global,
    lets: &NameMap<i64>,
    signals: &NameMap<i64>,
    line: u32,
    target: &[u8],
    part: Option<(i64, i64)>,
    value: &Expr,
) -> Result<(), CheckFault>
    ensures { Tells result (mismatch line target.now (needed_by (the_part_width (the_width_of (widths_in lets.now signals.now) target.now) part)
        (the_width_in (widths_in lets.now signals.now) (expr_of value.now)))) }
{
    let have = width_in(alloc, lets, signals, line, target, value)?;
    let found = part_width(width_of(lets, signals, target), part);
    let want = told(alloc, line, target, found)?;
    told(alloc, line, target, needed_width(want, have))?;
    Ok(())
}

/// Refuses a `case`: its value, then the literals of its arms, which have to have the value's width.
#[tactic(auto, using(crate::proofs::WidthSteps::arms_steps))]
fn case_mismatch(
    alloc: Global,
    lets: &NameMap<i64>,
    signals: &NameMap<i64>,
    line: u32,
    name: &[u8],
    value: &Expr,
    arms: &[Arm],
) -> Result<(), CheckFault>
    ensures { Tells result (mismatch line name.now (the_arms_width (the_width_in (widths_in lets.now signals.now) (expr_of value.now))
        (arm_literals (arms_of arms.now)))) }
{
    let width = width_in(alloc, lets, signals, line, name, value)?;
    told(alloc, line, name, arms_width(width, arms))?;
    Ok(())
}

/// Refuses a statement, without those inside it: its expression, then the literals of arms, then its target. A `let` joins the lets.
#[tactic(auto, using(design_core::proofs::Views::design_views))]
fn stmt_mismatch(
    alloc: Global,
    lets: &mut NameMap<i64>,
    signals: &NameMap<i64>,
    stmt: &Stmt,
) -> Result<(), CheckFault>
    ensures told { Tells result (stmt_mismatch (widths_in lets.old signals.now) (stmt_of stmt.now)) }
    ensures lets { OnOk result (widths_in lets.new signals.now ≡ widths_after (widths_in lets.old signals.now) (stmt_of stmt.now)) }
{
    match stmt {
        Stmt::Assign {
            line,
            target,
            part,
            value,
            ..
        } => {
            assign_mismatch(alloc, lets, signals, *line, target.bytes(), *part, value)?;
            Ok(())
        }
        Stmt::Let {
            line,
            name,
            value,
            ..
        } => {
            let_mismatch(alloc, lets, signals, *line, name.bytes(), value)?;
            Ok(())
        }
        Stmt::If { line, test, .. } => {
            test_mismatch(alloc, lets, signals, *line, b"if", test)?;
            Ok(())
        }
        Stmt::Case {
            line,
            value,
            arms,
            ..
        } => {
            case_mismatch(alloc, lets, signals, *line, b"case", value, arms)?;
            Ok(())
        }
    }
}

/// The same of statements in preorder.
#[tactic(auto, using(crate::proofs::MapSteps::among_steps))]
fn mismatch_among(alloc: Global, signals: &NameMap<i64>, stmts: &[&Stmt]) -> Result<(), CheckFault>
    ensures { Tells result (mismatch_among (widths_at signals.now) (stmts_at stmts.now)) }
{
    let mut lets = NameMap::new(alloc);
    for stmt in stmts {
        stmt_mismatch(alloc, &mut lets, signals, stmt)?;
    }
    Ok(())
}

/// The same of a block.
fn mismatch_in_block(alloc: Global, signals: &NameMap<i64>, block: &Block) -> Result<(), CheckFault>
    ensures { Tells result (mismatch_in_block (widths_at signals.now) (block_of block.now)) }
{
    let stmts = statements(alloc, &block.body)?;
    mismatch_among(alloc, signals, &stmts)?;
    Ok(())
}

/// The same of blocks in order.
#[tactic(auto, using(check_core::proofs::Firsts::list_steps))]
fn mismatch_in_blocks(
    alloc: Global,
    signals: &NameMap<i64>,
    blocks: &[Block],
) -> Result<(), CheckFault>
    ensures { Tells result (first_of (mismatch_in_block (widths_at signals.now)) (map block_of blocks.now)) }
{
    for block in blocks {
        mismatch_in_block(alloc, signals, block)?;
    }
    Ok(())
}

/// Refuses the declarations, connections and statements of a variant whose signals have these widths.
#[tactic(auto, using(check_core::proofs::Firsts::two_steps))]
fn mismatch_with(
    alloc: Global,
    signals: &NameMap<i64>,
    variants: &[Variant],
    variant: &Variant,
) -> Result<(), CheckFault>
    ensures { Tells result (mismatch_with (widths_at signals.now) (map variant_of variants.now) (variant_of variant.now)) }
{
    signal_mismatches(alloc, variant.signals.items())?;
    mismatch_in_children(alloc, signals, variants, &variant.children)?;
    mismatch_in_blocks(alloc, signals, &variant.blocks)?;
    Ok(())
}

/// Refuses the first widths in a variant that do not go together.
pub fn width_mismatch(
    alloc: Global,
    variants: &[Variant],
    variant: &Variant,
) -> Result<(), CheckFault>
    ensures { Tells result (the_width_mismatch (map variant_of variants.now) (variant_of variant.now)) }
{
    let signals = widths_of(alloc, Kinds::Any, variant.signals.items())?;
    mismatch_with(alloc, &signals, variants, variant)
}
