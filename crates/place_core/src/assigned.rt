//! The names that a body assigns, those inside its statements too.

ghost use Rattle.std.specs.Prelude.{◌≡◌, [], ◌∷◌, ◌++◌, IfOk, OnOk};
ghost use Rattle.design_core.specs.View.{stmt_of, body_of, else_of};
ghost use Rattle.design_core.specs.Heads.{listed_name, name_at};
ghost use Rattle.design_core.specs.Statements.{stmts_at, else_statements, statements as the_statements};
ghost use Rattle.names.specs.Known.{either, has};
ghost use Rattle.place_core.specs.Assigned.{assigned_in, assigned_else, names_at, adds_target, adds_targets};

use design_core::{Stmt, statements};
use std::alloc::Global;
use text_core::NoMemory;

/// Puts a name behind others, if there is one.
fn push_name<'a>(names: &mut Vec<&'a [u8]>, name: Option<&'a [u8]>) -> Result<(), NoMemory>
    ensures { OnOk result (names_at names.new.items ≡ names_at names.old.items ++ listed_name (name_at name.entry)) }
{
    if let Some(name) = name {
        names.push(name)?;
    }
    Ok(())
}

/// Puts the name behind others that a statement assigns by `=` or `let`, if it assigns one.
fn put_target<'a>(clocked: bool, names: &mut Vec<&'a [u8]>, stmt: &'a Stmt) -> Result<(), NoMemory>
    ensures { OnOk result (names_at names.new.items ≡ adds_target clocked (names_at names.old.items) (stmt_of stmt.now)) }
{
    if !clocked {
        push_name(names, stmt.target())?;
    }
    push_name(names, stmt.let_name())?;
    Ok(())
}

/// The same of statements in order.
#[tactic(auto, using(crate::proofs::Targets::next_target, crate::proofs::Targets::last_target))]
fn put_targets<'a>(
    clocked: bool,
    names: &mut Vec<&'a [u8]>,
    stmts: &[&'a Stmt],
) -> Result<(), NoMemory>
    ensures { OnOk result (names_at names.new.items ≡ adds_targets clocked (names_at names.old.items) (stmts_at stmts.now)) }
{
    for stmt in stmts {
        put_target(clocked, names, stmt)?;
    }
    Ok(())
}

/// The same of what an `else` holds, if one stands there.
fn put_else<'a>(
    alloc: Global,
    clocked: bool,
    names: &mut Vec<&'a [u8]>,
    no: &'a Option<Vec<Stmt>>,
) -> Result<(), NoMemory>
    ensures { OnOk result (names_at names.new.items ≡ adds_targets clocked (names_at names.old.items) (else_statements (else_of no.now))) }
{
    match no {
        Some(body) => put_body(alloc, clocked, names, body),
        None => Ok(()),
    }
}

/// Puts the names behind others that a body assigns, with what is inside its statements.
fn put_body<'a>(
    alloc: Global,
    clocked: bool,
    names: &mut Vec<&'a [u8]>,
    body: &'a [Stmt],
) -> Result<(), NoMemory>
    ensures { OnOk result (names_at names.new.items ≡ adds_targets clocked (names_at names.old.items) (the_statements (body_of body.now))) }
{
    let stmts = statements(alloc, body)?;
    put_targets(clocked, names, &stmts)?;
    Ok(())
}

/// The names that a body assigns by `=` or `let`; an assignment of a clocked block is none.
pub fn assigned_in<'a>(
    alloc: Global,
    clocked: bool,
    body: &'a [Stmt],
) -> Result<Vec<&'a [u8]>, NoMemory>
    ensures { IfOk result (λ names. has (names_at names.items) ≡ assigned_in clocked (body_of body.now)) }
{
    let mut names = Vec::new(alloc);
    put_body(alloc, clocked, &mut names, body)?;
    Ok(names)
}

/// The names that either branch of an `if` assigns.
pub fn assigned_in_either<'a>(
    alloc: Global,
    clocked: bool,
    yes: &'a [Stmt],
    no: &'a Option<Vec<Stmt>>,
) -> Result<Vec<&'a [u8]>, NoMemory>
    ensures { IfOk result (λ names. has (names_at names.items) ≡ either (assigned_in clocked (body_of yes.now)) (assigned_else clocked (else_of no.now))) }
{
    let mut names = Vec::new(alloc);
    put_body(alloc, clocked, &mut names, yes)?;
    put_else(alloc, clocked, &mut names, no)?;
    Ok(names)
}
