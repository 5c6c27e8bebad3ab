//! The walk through statements: an assignment sets its key or a part of it, an `if` walks both branches from one place and joins what they
//! leave. The arms of a `case` are walked one after another, each from where the first began, and then joined from the last one back, so
//! that they stand for nested `if`s without being walked one inside another.

ghost use Rattle.std.specs.Prelude.{◌≡◌, IfOk, OnOk, length};
ghost use Rattle.exec_core.specs.Trees.{body_rows, body_trees_after, else_enable, then_enable};
ghost use Rattle.names.specs.Maps.{value_of};
ghost use Rattle.name_widths.specs.DeclaredWidths.{width_at};
ghost use Rattle.block_net.specs.Arms.{AllEnd};
ghost use Rattle.block_net.specs.Parts.{ArmsFit, BodyFits, StmtFits};
ghost use Rattle.block_net.specs.Source.{arms_in, body_in, else_in, stmt_in};
ghost use Rattle.block_net.specs.Terms.{IsWithin, tree_for};
ghost use Rattle.block_net.specs.Walks.{Bind, Cover, Fits, HaveTerms, Joins, Shows, Through, ThroughStmt, Walked, among, keys_of, state_of};
ghost use Rattle.block_net.specs.Ways.{ThroughArms, ThroughBoth, ThroughCase};

use crate::arms::{ArmEnd, Branch, join_all};
use crate::bindings::{Binding, choose, pick, set_all};
use crate::keys::{assigned, target};
use crate::order::order_of;
use crate::walk::Walk;
use crate::{Key, TermId};
use design_core::{Arm, Op, Stmt};
use names::NameMap;
use std::alloc::Global;
use text_core::NoMemory;

/// Walks through statements, which have this enable.
#[cycle(walking)]
pub(crate) fn walk_body(
    alloc: Global,
    widths: &NameMap<i64>,
    walk: &mut Walk,
    clocked: bool,
    enable: Option<TermId>,
    stmts: &[Stmt],
) -> Result<(), NoMemory>
    requires fits { Fits walk.old }
    requires shows { Shows (width_at (value_of widths.now)) walk.old }
    requires within { IsWithin walk.old.terms enable }
    requires parts { BodyFits (body_in clocked stmts.now) }
    ensures { OnOk result (Through (width_at (value_of widths.now)) (tree_for walk.old.terms enable) (body_in clocked stmts.now) walk.old walk.new) }
{
    for stmt in stmts {
        walk_stmt(alloc, widths, walk, clocked, enable, stmt)?;
    }
    Ok(())
}

/// Walks through a statement.
#[cycle(walking)]
#[tactic(auto, using(design_core::proofs::Views::design_views))]
fn walk_stmt(
    alloc: Global,
    widths: &NameMap<i64>,
    walk: &mut Walk,
    clocked: bool,
    enable: Option<TermId>,
    stmt: &Stmt,
) -> Result<(), NoMemory>
    requires fits { Fits walk.old }
    requires shows { Shows (width_at (value_of widths.now)) walk.old }
    requires within { IsWithin walk.old.terms enable }
    requires parts { StmtFits (stmt_in clocked stmt.now) }
    ensures { OnOk result (ThroughStmt (width_at (value_of widths.now)) (tree_for walk.old.terms enable) (stmt_in clocked stmt.now) walk.old walk.new) }
{
    walk.visit(stmt.slot(), enable)?;
    let value = walk.term_of(alloc, stmt.value())?;
    match stmt {
        Stmt::Assign {
            target: name,
            part,
            ..
        } => {
            let key = target(alloc, clocked, name.bytes())?;
            walk.assign(alloc, widths, key, *part, value)?;
            Ok(())
        }
        Stmt::Let { name, .. } => {
            let key = target(alloc, false, name.bytes())?;
            walk.assign(alloc, widths, key, None, value)?;
            Ok(())
        }
        Stmt::If { yes, no, .. } => {
            let branch = Branch {
                enable,
                test: value,
            };
            walk_both(alloc, widths, walk, clocked, branch, yes, no)?;
            Ok(())
        }
        Stmt::Case { arms, other, .. } => {
            let branch = Branch {
                enable,
                test: value,
            };
            walk_case(alloc, widths, walk, clocked, branch, arms, other)?;
            Ok(())
        }
    }
}

/// Walks through the branches of an `if`.
#[cycle(walking)]
fn walk_both(
    alloc: Global,
    widths: &NameMap<i64>,
    walk: &mut Walk,
    clocked: bool,
    branch: Branch,
    yes: &[Stmt],
    no: &Option<Vec<Stmt>>,
) -> Result<(), NoMemory>
    requires fits { Fits walk.old }
    requires shows { Shows (width_at (value_of widths.now)) walk.old }
    requires within { IsWithin walk.old.terms branch.enable }
    requires test { IsWithin walk.old.terms branch.test }
    requires yes { BodyFits (body_in clocked yes.now) }
    requires no { BodyFits (else_in clocked no.now) }
    ensures { OnOk result (ThroughBoth (width_at (value_of widths.now)) (tree_for walk.old.terms branch.enable) (tree_for walk.old.terms branch.test)
        (body_in clocked yes.now) (else_in clocked no.now) walk.old walk.new) }
{
    let keys = assigned(alloc, clocked, yes, no)?;
    let firsts = walk_first(alloc, widths, walk, clocked, branch, yes, &keys)?;
    walk_second(alloc, widths, walk, clocked, branch, no, &firsts)?;
    Ok(())
}

/// Walks through a then-branch and back to where it began; gives what is pending after it for keys, among which are all that it assigns.
#[cycle(walking)]
fn walk_first(
    alloc: Global,
    widths: &NameMap<i64>,
    walk: &mut Walk,
    clocked: bool,
    branch: Branch,
    yes: &[Stmt],
    keys: &[Key],
) -> Result<Vec<Binding>, NoMemory>
    requires fits { Fits walk.old }
    requires shows { Shows (width_at (value_of widths.now)) walk.old }
    requires within { IsWithin walk.old.terms branch.enable }
    requires test { IsWithin walk.old.terms branch.test }
    requires parts { BodyFits (body_in clocked yes.now) }
    requires cover { Cover keys.now (body_in clocked yes.now) }
    ensures through { OnOk result (Walked (width_at (value_of widths.now)) walk.old walk.new
        (body_rows (width_at (value_of widths.now)) (body_in clocked yes.now)
        (then_enable (tree_for walk.old.terms branch.enable) (tree_for walk.old.terms branch.test)) (state_of walk.old)) (state_of walk.old)) }
    ensures keys { IfOk result (λ firsts. among (keys_of firsts.items) ≡ among keys.now) }
    ensures bind { IfOk result (λ firsts. Bind walk.new.terms
        (body_trees_after (width_at (value_of widths.now)) (body_in clocked yes.now) (state_of walk.old)) firsts.items) }
{
    let before = pick(alloc, walk, keys)?;
    walk_yes(alloc, widths, walk, clocked, branch, yes)?;
    let firsts = pick(alloc, walk, keys)?;
    set_all(alloc, widths, walk, &before)?;
    Ok(firsts)
}

/// Walks through an else-branch; then each key of the first branch has a choice.
#[cycle(walking)]
fn walk_second(
    alloc: Global,
    widths: &NameMap<i64>,
    walk: &mut Walk,
    clocked: bool,
    branch: Branch,
    no: &Option<Vec<Stmt>>,
    firsts: &[Binding],
) -> Result<(), NoMemory>
    requires fits { Fits walk.old }
    requires shows { Shows (width_at (value_of widths.now)) walk.old }
    requires within { IsWithin walk.old.terms branch.enable }
    requires test { IsWithin walk.old.terms branch.test }
    requires parts { BodyFits (else_in clocked no.now) }
    requires firsts { HaveTerms walk.old.terms firsts.now }
    ensures { OnOk result (Joins (width_at (value_of widths.now))
        (else_enable (tree_for walk.old.terms branch.enable) (tree_for walk.old.terms branch.test)) (tree_for walk.old.terms branch.test)
        (else_in clocked no.now) firsts.now walk.old walk.new) }
{
    walk_no(alloc, widths, walk, clocked, branch, no)?;
    let chosen = choose(alloc, walk, branch.test, firsts)?;
    set_all(alloc, widths, walk, &chosen)?;
    Ok(())
}

/// Walks through a then-branch.
#[cycle(walking)]
fn walk_yes(
    alloc: Global,
    widths: &NameMap<i64>,
    walk: &mut Walk,
    clocked: bool,
    branch: Branch,
    yes: &[Stmt],
) -> Result<(), NoMemory>
    requires fits { Fits walk.old }
    requires shows { Shows (width_at (value_of widths.now)) walk.old }
    requires within { IsWithin walk.old.terms branch.enable }
    requires test { IsWithin walk.old.terms branch.test }
    requires parts { BodyFits (body_in clocked yes.now) }
    ensures { OnOk result (Through (width_at (value_of widths.now))
        (then_enable (tree_for walk.old.terms branch.enable) (tree_for walk.old.terms branch.test)) (body_in clocked yes.now) walk.old walk.new) }
{
    let enable = walk.binary(Op::And, branch.enable, branch.test)?;
    walk_body(alloc, widths, walk, clocked, enable, yes)?;
    Ok(())
}

/// Walks through an else-branch.
#[cycle(walking)]
fn walk_no(
    alloc: Global,
    widths: &NameMap<i64>,
    walk: &mut Walk,
    clocked: bool,
    branch: Branch,
    no: &Option<Vec<Stmt>>,
) -> Result<(), NoMemory>
    requires fits { Fits walk.old }
    requires shows { Shows (width_at (value_of widths.now)) walk.old }
    requires within { IsWithin walk.old.terms branch.enable }
    requires test { IsWithin walk.old.terms branch.test }
    requires parts { BodyFits (else_in clocked no.now) }
    ensures { OnOk result (Through (width_at (value_of widths.now))
        (else_enable (tree_for walk.old.terms branch.enable) (tree_for walk.old.terms branch.test)) (else_in clocked no.now) walk.old walk.new) }
{
    let enable = walk.else_enable(branch)?;
    walk_else(alloc, widths, walk, clocked, enable, no)?;
    Ok(())
}

/// Walks through what an `else` or a default holds.
#[cycle(walking)]
fn walk_else(
    alloc: Global,
    widths: &NameMap<i64>,
    walk: &mut Walk,
    clocked: bool,
    enable: Option<TermId>,
    no: &Option<Vec<Stmt>>,
) -> Result<(), NoMemory>
    requires fits { Fits walk.old }
    requires shows { Shows (width_at (value_of widths.now)) walk.old }
    requires within { IsWithin walk.old.terms enable }
    requires parts { BodyFits (else_in clocked no.now) }
    ensures { OnOk result (Through (width_at (value_of widths.now)) (tree_for walk.old.terms enable) (else_in clocked no.now) walk.old walk.new) }
{
    match no {
        Some(body) => walk_body(alloc, widths, walk, clocked, enable, body)?,
        None => {}
    }
    Ok(())
}

/// Walks through the arms of a `case` and its default. Without an arm the default stands in the else-branch of an `if` that is never so.
#[cycle(walking)]
fn walk_case(
    alloc: Global,
    widths: &NameMap<i64>,
    walk: &mut Walk,
    clocked: bool,
    branch: Branch,
    arms: &[Arm],
    other: &Option<Vec<Stmt>>,
) -> Result<(), NoMemory>
    requires fits { Fits walk.old }
    requires shows { Shows (width_at (value_of widths.now)) walk.old }
    requires within { IsWithin walk.old.terms branch.enable }
    requires test { IsWithin walk.old.terms branch.test }
    requires parts { ArmsFit (arms_in clocked arms.now) }
    requires other { BodyFits (else_in clocked other.now) }
    ensures { OnOk result (ThroughCase (width_at (value_of widths.now)) (tree_for walk.old.terms branch.enable) (tree_for walk.old.terms branch.test)
        (arms_in clocked arms.now) (else_in clocked other.now) walk.old walk.new) }
{
    if arms.is_empty() {
        let test = walk.constant(1, 0)?;
        let never = Branch {
            enable: branch.enable,
            test,
        };
        return walk_both(alloc, widths, walk, clocked, never, &[], other);
    }
    let ends = walk_arms(alloc, widths, walk, clocked, branch, arms, other)?;
    join_all(alloc, widths, walk, &ends)?;
    Ok(())
}

/// Walks through arms, each from where the first one began, and then through the default; gives what the arms leave.
#[cycle(walking)]
fn walk_arms(
    alloc: Global,
    widths: &NameMap<i64>,
    walk: &mut Walk,
    clocked: bool,
    branch: Branch,
    arms: &[Arm],
    other: &Option<Vec<Stmt>>,
) -> Result<Vec<ArmEnd>, NoMemory>
    requires fits { Fits walk.old }
    requires shows { Shows (width_at (value_of widths.now)) walk.old }
    requires within { IsWithin walk.old.terms branch.enable }
    requires test { IsWithin walk.old.terms branch.test }
    requires parts { ArmsFit (arms_in clocked arms.now) }
    requires other { BodyFits (else_in clocked other.now) }
    ensures through { OnOk result (ThroughArms (width_at (value_of widths.now)) (tree_for walk.old.terms branch.enable)
        (tree_for walk.old.terms branch.test) (arms_in clocked arms.now) (else_in clocked other.now) walk.old walk.new) }
    ensures count { IfOk result (λ ends. length ends.items ≡ length (arms_in clocked arms.now)) }
    ensures ends { IfOk result (λ ends. AllEnd walk.new.terms (width_at (value_of widths.now)) (tree_for walk.old.terms branch.test)
        (state_of walk.old) (arms_in clocked arms.now) (else_in clocked other.now) ends.items) }
{
    let order = order_of(alloc, clocked, arms, other)?;
    let mut ends = Vec::new(alloc);
    let mut enable = branch.enable;
    for arm in arms {
        let test = walk.arm_test(branch.test, &arm.tests)?;
        let here = Branch { enable, test };
        let keys = order.keys_from(ends.len());
        let firsts = walk_first(alloc, widths, walk, clocked, here, &arm.body, keys)?;
        enable = walk.else_enable(here)?;
        ends.push(ArmEnd { test, firsts })?;
    }
    walk_else(alloc, widths, walk, clocked, enable, other)?;
    Ok(ends)
}
