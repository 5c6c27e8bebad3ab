//! Which keys the statements of a block assign. A merge behind branches goes over these alone, and not over all names in scope.

ghost use Rattle.std.specs.Prelude.{◌≡◌, IfOk, OnOk};
ghost use Rattle.exec_core.specs.Block.{Done, assigns, body_assigns};
ghost use Rattle.design_exec.specs.Processes.{target as the_target};
ghost use Rattle.block_net.specs.Cases.{arms_assign};
ghost use Rattle.block_net.specs.Logs.{key_of};
ghost use Rattle.block_net.specs.Source.{arms_in, body_in, else_in, stmt_in};
ghost use Rattle.block_net.specs.Walks.{among, either};

use crate::Key;
use crate::key_set::distinct;
use design_core::{Arm, Stmt};
use std::alloc::Global;
use text_core::{NoMemory, Text};

/// What an assignment to a name sets, in a clocked block or in another.
pub(crate) fn target(alloc: Global, clocked: bool, name: &[u8]) -> Result<Key, NoMemory>
    ensures { IfOk result (λ key. key_of key ≡ the_target clocked name.now) }
{
    let name = Text::new(alloc, name)?;
    Ok(if clocked {
        Key::Next(name)
    } else {
        Key::Now(name)
    })
}

/// Puts the keys in that statements assign, one for each assignment.
#[cycle(collecting)]
pub(crate) fn collect(
    alloc: Global,
    clocked: bool,
    stmts: &[Stmt],
    keys: &mut Vec<Key>,
) -> Result<(), NoMemory>
    ensures { OnOk result (among keys.new.items ≡ either (among keys.old.items) (body_assigns (body_in clocked stmts.now))) }
{
    for stmt in stmts {
        collect_stmt(alloc, clocked, stmt, keys)?;
    }
    Ok(())
}

/// The same of a statement.
#[cycle(collecting)]
#[tactic(auto, using(design_core::proofs::Views::design_views))]
fn collect_stmt(
    alloc: Global,
    clocked: bool,
    stmt: &Stmt,
    keys: &mut Vec<Key>,
) -> Result<(), NoMemory>
    ensures { OnOk result (among keys.new.items ≡ either (among keys.old.items) (assigns (stmt_in clocked stmt.now))) }
{
    match stmt {
        Stmt::Assign { target: name, .. } => {
            let key = target(alloc, clocked, name.bytes())?;
            keys.push(key)?;
        }
        Stmt::Let { name, .. } => {
            let key = target(alloc, false, name.bytes())?;
            keys.push(key)?;
        }
        Stmt::If { yes, no, .. } => {
            collect(alloc, clocked, yes, keys)?;
            collect_else(alloc, clocked, no, keys)?;
        }
        Stmt::Case { arms, other, .. } => {
            collect_arms(alloc, clocked, arms, keys)?;
            collect_else(alloc, clocked, other, keys)?;
        }
    }
    Ok(())
}

/// The same of arms.
#[cycle(collecting)]
fn collect_arms(
    alloc: Global,
    clocked: bool,
    arms: &[Arm],
    keys: &mut Vec<Key>,
) -> Result<(), NoMemory>
    ensures { OnOk result (among keys.new.items ≡ either (among keys.old.items) (arms_assign (arms_in clocked arms.now) Done)) }
{
    for arm in arms {
        collect(alloc, clocked, &arm.body, keys)?;
    }
    Ok(())
}

/// The same of what an `else` or a default holds.
#[cycle(collecting)]
pub(crate) fn collect_else(
    alloc: Global,
    clocked: bool,
    no: &Option<Vec<Stmt>>,
    keys: &mut Vec<Key>,
) -> Result<(), NoMemory>
    ensures { OnOk result (among keys.new.items ≡ either (among keys.old.items) (body_assigns (else_in clocked no.now))) }
{
    match no {
        Some(body) => collect(alloc, clocked, body, keys)?,
        None => {}
    }
    Ok(())
}

/// The keys that statements assign, one for each assignment.
pub fn assigned_by(alloc: Global, clocked: bool, stmts: &[Stmt]) -> Result<Vec<Key>, NoMemory>
    ensures { IfOk result (λ keys. among keys.items ≡ body_assigns (body_in clocked stmts.now)) }
{
    let mut keys = Vec::new(alloc);
    collect(alloc, clocked, stmts, &mut keys)?;
    Ok(keys)
}

/// The keys that the branches of an `if` assign.
pub(crate) fn assigned(
    alloc: Global,
    clocked: bool,
    yes: &[Stmt],
    no: &Option<Vec<Stmt>>,
) -> Result<Vec<Key>, NoMemory>
    ensures { IfOk result (λ keys. among keys.items ≡ either (body_assigns (body_in clocked yes.now)) (body_assigns (else_in clocked no.now))) }
{
    let mut keys = Vec::new(alloc);
    collect(alloc, clocked, yes, &mut keys)?;
    collect_else(alloc, clocked, no, &mut keys)?;
    let found = distinct(alloc, &keys)?;
    Ok(found)
}
