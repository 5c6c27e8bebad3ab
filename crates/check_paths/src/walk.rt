//! One walk finds what every path assigns, bit by bit, and what is read before it. What a branch or an arm assigns stands in a frame of
//! its own; what all of them assign is put in where they end. Arms are gone through one after another, not one inside another.

ghost use Rattle.std.specs.Prelude.{◌≡◌, OnOk, IfOk, Some, is_some, not};
ghost use Rattle.bit_sets.specs.BitSets.{set_of};
ghost use Rattle.exec_core.specs.Block.{covers};
ghost use Rattle.design_core.specs.Design.{Read};
ghost use Rattle.design_core.specs.View.{arms_of, body_of, else_of, expr_of, stmt_of};
ghost use Rattle.names.specs.Known.{has};
ghost use Rattle.names.specs.Maps.{value_of};
ghost use Rattle.check_core.specs.Faults.{Tells, earlier};
ghost use Rattle.check_core.specs.Widths.{is_slice};
ghost use Rattle.check_core.specs.Paths.{early, early_in, early_in_arms, early_in_else, early_read as the_early_read, no_arms, part_in};
ghost use Rattle.name_widths.specs.DeclaredWidths.{width_at};
ghost use Rattle.check_paths.specs.Frames.{all_bits, bits_of, both, kept};
ghost use Rattle.check_paths.specs.Walked.{after_body, after_both, after_case, after_stmt, arms_assigned, assigned_in, else_assigned, missing};

use crate::frame::Frame;
use crate::frames::Frames;
use bit_sets::BitSet;
use check_core::{CheckFault, spot};
use design_core::{Arm, Expr, Stmt, bits};
use name_widths::bits_of;
use names::{NameMap, NameSet};
use std::alloc::Global;
use text_core::{NoMemory, Text};

/// Whether these are bits from the first down to the second, of the 128 that there may be.
fn is_slice(high: i64, low: i64) -> bool
    ensures { result ≡ is_slice high low }
{
    0 <= low && low <= high && high <= 127
}

/// The bits from the first number down to the second, of the 128 that there may be; bounds that are none are no bits.
#[tactic(auto, using(crate::proofs::Parts::part_steps))]
fn bounds_bits(high: i64, low: i64) -> BitSet
    ensures { set_of result ≡ covers (part_in (Some (high, low))) }
{
    if !is_slice(high, low) {
        return BitSet::none();
    }
    BitSet::of_part(bits(high) as u32, bits(low) as u32)
}

/// The bits of what is assigned.
fn part_bits(part: Option<(i64, i64)>) -> BitSet
    ensures { set_of result ≡ covers (part_in part) }
{
    match part {
        Some((high, low)) => bounds_bits(high, low),
        None => BitSet::All,
    }
}

/// Refuses a name that is watched, and of which some bit is not assigned yet, in the branch or around it.
fn early_name(
    alloc: Global,
    widths: &NameMap<i64>,
    watched: &NameSet,
    frames: &Frames,
    line: u32,
    name: &Text,
) -> Result<(), CheckFault>
    ensures { Tells result (the_early_read (width_at (value_of widths.now)) (missing (has watched.now) (all_bits frames.now)) line (Read name.now)) }
{
    let name = name.bytes();
    if !watched.contains(name) {
        return Ok(());
    }
    if frames.bits(name).is_full(bits_of(widths, name)) {
        return Ok(());
    }
    Err(CheckFault::ReadBeforeWrite(spot(alloc, line, name)?))
}

/// Refuses the first read of an expression, from left to right, of a watched name of which some bit is not assigned yet.
#[tactic(auto, using(check_core::proofs::Firsts::two_steps))]
fn early_read(
    alloc: Global,
    widths: &NameMap<i64>,
    watched: &NameSet,
    frames: &Frames,
    line: u32,
    expr: &Expr,
) -> Result<(), CheckFault>
    ensures { Tells result (the_early_read (width_at (value_of widths.now)) (missing (has watched.now) (all_bits frames.now)) line (expr_of expr.now)) }
{
    match expr {
        Expr::Read(name) => {
            early_name(alloc, widths, watched, frames, line, name)?;
        }
        Expr::Out(_, _) | Expr::Value(_) => {}
        Expr::Un(_, inner) | Expr::Zext(inner, _) | Expr::Slice(inner, _, _) => {
            early_read(alloc, widths, watched, frames, line, inner)?;
        }
        Expr::Bin(_, left, right) => {
            early_read(alloc, widths, watched, frames, line, left)?;
            early_read(alloc, widths, watched, frames, line, right)?;
        }
        Expr::Mux(test, yes, no) => {
            early_read(alloc, widths, watched, frames, line, test)?;
            early_read(alloc, widths, watched, frames, line, yes)?;
            early_read(alloc, widths, watched, frames, line, no)?;
        }
    }
    Ok(())
}

/// Walks statements: refuses the first read of a watched name of which some path has not assigned each bit, where the bits of `frames`
/// are assigned before. Those that every path through the statements assigns join those of the branch.
#[cycle(walking)]
pub(crate) fn walk(
    alloc: Global,
    widths: &NameMap<i64>,
    watched: &NameSet,
    frames: &mut Frames,
    stmts: &[Stmt],
) -> Result<(), CheckFault>
    ensures told { Tells result (early_in (width_at (value_of widths.now)) (missing (has watched.now) (all_bits frames.old)) (body_of stmts.now)) }
    ensures assigned { OnOk result (bits_of frames.new.1 ≡ after_body (bits_of frames.old.1) (body_of stmts.now)) }
    ensures kept { OnOk result (frames.new.0 ≡ frames.old.0) }
{
    for stmt in stmts {
        walk_stmt(alloc, widths, watched, frames, stmt)?;
    }
    Ok(())
}

/// The same of a statement.
#[cycle(walking)]
fn walk_stmt(
    alloc: Global,
    widths: &NameMap<i64>,
    watched: &NameSet,
    frames: &mut Frames,
    stmt: &Stmt,
) -> Result<(), CheckFault>
    ensures told { Tells result (early (width_at (value_of widths.now)) (missing (has watched.now) (all_bits frames.old)) (stmt_of stmt.now)) }
    ensures assigned { OnOk result (bits_of frames.new.1 ≡ after_stmt (bits_of frames.old.1) (stmt_of stmt.now)) }
    ensures kept { OnOk result (frames.new.0 ≡ frames.old.0) }
{
    early_read(alloc, widths, watched, frames, stmt.line(), stmt.value())?;
    match stmt {
        Stmt::Assign { target, part, .. } => {
            frames.join(alloc, target.bytes(), part_bits(*part))?;
            Ok(())
        }
        Stmt::Let { name, .. } => {
            frames.join(alloc, name.bytes(), BitSet::All)?;
            Ok(())
        }
        Stmt::If { yes, no, .. } => {
            walk_both(alloc, widths, watched, frames, yes, no)?;
            Ok(())
        }
        Stmt::Case { arms, other, .. } => {
            walk_case(alloc, widths, watched, frames, arms, other)?;
            Ok(())
        }
    }
}

/// The same of the branches of an `if`, from left to right: what both assign is assigned after it.
#[cycle(walking)]
#[tactic(auto, using(check_core::proofs::Firsts::two_steps))]
fn walk_both(
    alloc: Global,
    widths: &NameMap<i64>,
    watched: &NameSet,
    frames: &mut Frames,
    yes: &[Stmt],
    no: &Option<Vec<Stmt>>,
) -> Result<(), CheckFault>
    ensures told { Tells result (earlier (early_in (width_at (value_of widths.now)) (missing (has watched.now) (all_bits frames.old))
        (body_of yes.now)) (early_in_else (width_at (value_of widths.now)) (missing (has watched.now) (all_bits frames.old)) (else_of no.now))) }
    ensures assigned { OnOk result (bits_of frames.new.1 ≡ after_both (bits_of frames.old.1) (body_of yes.now) (else_of no.now)) }
    ensures kept { OnOk result (frames.new.0 ≡ frames.old.0) }
{
    let first = walk_apart(alloc, widths, watched, frames, yes)?;
    let second = walk_else(alloc, widths, watched, frames, no)?;
    frames.join_common(alloc, &first, &second)?;
    Ok(())
}

/// The same of the arms of a `case` and of its default, from left to right: what all of them assign is assigned after it.
#[cycle(walking)]
#[tactic(auto, using(check_core::proofs::Firsts::two_steps))]
fn walk_case(
    alloc: Global,
    widths: &NameMap<i64>,
    watched: &NameSet,
    frames: &mut Frames,
    arms: &[Arm],
    other: &Option<Vec<Stmt>>,
) -> Result<(), CheckFault>
    ensures told { Tells result (earlier (early_in_arms (width_at (value_of widths.now)) (missing (has watched.now) (all_bits frames.old))
        (arms_of arms.now)) (early_in_else (width_at (value_of widths.now)) (missing (has watched.now) (all_bits frames.old)) (else_of other.now))) }
    ensures assigned { OnOk result (bits_of frames.new.1 ≡ after_case (bits_of frames.old.1) (arms_of arms.now) (else_of other.now)) }
    ensures kept { OnOk result (frames.new.0 ≡ frames.old.0) }
{
    let found = walk_arms(alloc, widths, watched, frames, arms)?;
    let rest = walk_else(alloc, widths, watched, frames, other)?;
    frames.join_rest(alloc, &found, &rest)?;
    Ok(())
}

/// The same of arms, one after another: what all of them assign is given. None: there is no arm.
#[cycle(walking)]
fn walk_arms(
    alloc: Global,
    widths: &NameMap<i64>,
    watched: &NameSet,
    frames: &mut Frames,
    arms: &[Arm],
) -> Result<Option<Frame>, CheckFault>
    ensures told { Tells result (early_in_arms (width_at (value_of widths.now)) (missing (has watched.now) (all_bits frames.old)) (arms_of arms.now)) }
    ensures stay { OnOk result (frames.new ≡ frames.old) }
    ensures apart { IfOk result (λ found. kept found ≡ arms_assigned (arms_of arms.now)) }
    ensures some { IfOk result (λ found. is_some found ≡ not (no_arms (arms_of arms.now))) }
{
    let mut found = None;
    for arm in arms {
        let next = walk_apart(alloc, widths, watched, frames, &arm.body)?;
        found = Some(common(alloc, found, next)?);
    }
    Ok(found)
}

/// What the arms so far and one more assign.
fn common(alloc: Global, found: Option<Frame>, next: Frame) -> Result<Frame, NoMemory>
    ensures { IfOk result (λ common. bits_of common ≡ both (kept found) (bits_of next)) }
{
    match found {
        None => Ok(next),
        Some(found) => {
            let mut common = Frame::new(alloc);
            common.join_common(alloc, &found, &next)?;
            Ok(common)
        }
    }
}

/// The same of one branch or arm: what it assigns is given.
#[cycle(walking)]
fn walk_apart(
    alloc: Global,
    widths: &NameMap<i64>,
    watched: &NameSet,
    frames: &mut Frames,
    stmts: &[Stmt],
) -> Result<Frame, CheckFault>
    ensures told { Tells result (early_in (width_at (value_of widths.now)) (missing (has watched.now) (all_bits frames.old)) (body_of stmts.now)) }
    ensures stay { OnOk result (frames.new ≡ frames.old) }
    ensures apart { IfOk result (λ found. bits_of found ≡ assigned_in (body_of stmts.now)) }
{
    frames.open(alloc)?;
    walk(alloc, widths, watched, frames, stmts)?;
    Ok(frames.close())
}

/// The same of what an `else` or a default holds; without one nothing is assigned.
#[cycle(walking)]
fn walk_else(
    alloc: Global,
    widths: &NameMap<i64>,
    watched: &NameSet,
    frames: &mut Frames,
    no: &Option<Vec<Stmt>>,
) -> Result<Frame, CheckFault>
    ensures told { Tells result (early_in_else (width_at (value_of widths.now)) (missing (has watched.now) (all_bits frames.old)) (else_of no.now)) }
    ensures stay { OnOk result (frames.new ≡ frames.old) }
    ensures apart { IfOk result (λ found. bits_of found ≡ else_assigned (else_of no.now)) }
{
    match no {
        Some(body) => walk_apart(alloc, widths, watched, frames, body),
        None => Ok(Frame::new(alloc)),
    }
}
