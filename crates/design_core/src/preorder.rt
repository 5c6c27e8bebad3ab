//! The statements of a body one after another: a statement stands before those inside it.

ghost use Rattle.std.specs.Prelude.{◌≡◌, ◌++◌, IfOk, OnOk};
ghost use Rattle.design_core.specs.View.{arms_of, body_of, else_of, stmt_of};
ghost use Rattle.design_core.specs.Statements.{arms_statements, else_statements, inside, statements as the_statements, stmts_at};

use crate::{Arm, Stmt};
use std::alloc::Global;
use text_core::NoMemory;

/// Puts the statements of a body behind those that are there, in preorder.
#[cycle(putting)]
#[tactic(auto, using(crate::proofs::InOrder::size_next))]
fn put<'a>(found: &mut Vec<&'a Stmt>, body: &'a [Stmt]) -> Result<(), NoMemory>
    ensures { OnOk result (stmts_at found.new.items ≡ stmts_at found.old.items ++ the_statements (body_of body.now)) }
{
    for stmt in body {
        found.push(stmt)?;
        put_inside(found, stmt)?;
    }
    Ok(())
}

/// The same of the statements inside a statement.
#[cycle(putting)]
#[tactic(auto, using(crate::proofs::Views::design_views))]
fn put_inside<'a>(found: &mut Vec<&'a Stmt>, stmt: &'a Stmt) -> Result<(), NoMemory>
    ensures { OnOk result (stmts_at found.new.items ≡ stmts_at found.old.items ++ inside (stmt_of stmt.now)) }
{
    match stmt {
        Stmt::Assign { .. } => Ok(()),
        Stmt::Let { .. } => Ok(()),
        Stmt::If { yes, no, .. } => {
            put(found, yes)?;
            put_else(found, no)?;
            Ok(())
        }
        Stmt::Case { arms, other, .. } => {
            put_arms(found, arms)?;
            put_else(found, other)?;
            Ok(())
        }
    }
}

/// The same of the arms of a `case`, one after another.
#[cycle(putting)]
#[tactic(auto, using(crate::proofs::InOrder::arms_next))]
fn put_arms<'a>(found: &mut Vec<&'a Stmt>, arms: &'a [Arm]) -> Result<(), NoMemory>
    ensures { OnOk result (stmts_at found.new.items ≡ stmts_at found.old.items ++ arms_statements (arms_of arms.now)) }
{
    for arm in arms {
        put(found, &arm.body)?;
    }
    Ok(())
}

/// The same of what an `else` or a default holds, if one stands there.
#[cycle(putting)]
fn put_else<'a>(found: &mut Vec<&'a Stmt>, no: &'a Option<Vec<Stmt>>) -> Result<(), NoMemory>
    ensures { OnOk result (stmts_at found.new.items ≡ stmts_at found.old.items ++ else_statements (else_of no.now)) }
{
    match no {
        Some(body) => {
            put(found, body)?;
            Ok(())
        }
        None => Ok(()),
    }
}

/// The statements of a body in preorder, with those inside others.
pub fn statements<'a>(alloc: Global, body: &'a [Stmt]) -> Result<Vec<&'a Stmt>, NoMemory>
    ensures { IfOk result (λ found. stmts_at found.items ≡ the_statements (body_of body.now)) }
{
    let mut found = Vec::new(alloc);
    put(&mut found, body)?;
    Ok(found)
}
