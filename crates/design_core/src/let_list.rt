//! The names that a body gives by `let`, which every crate that numbers, orders or shows a block asks for.

ghost use Rattle.std.specs.Prelude.{◌≡◌, ◌++◌, [], ◌∷◌, IfOk, OnOk};
ghost use Rattle.design_core.specs.Heads.{let_names as the_names, names_at};
ghost use Rattle.design_core.specs.Slots.{lets_of};
ghost use Rattle.design_core.specs.Statements.{stmts_at};
ghost use Rattle.design_core.specs.View.{body_of, stmt_of};

use crate::{Stmt, statements};
use std::alloc::Global;
use text_core::NoMemory;

/// Puts the name of a statement behind others, if it is a `let`.
fn put_let<'a>(names: &mut Vec<&'a [u8]>, stmt: &'a Stmt) -> Result<(), NoMemory>
    ensures { OnOk result (names_at names.new.items ≡ names_at names.old.items ++ the_names (stmt_of stmt.now ∷ [])) }
{
    if let Some(name) = stmt.let_name() {
        names.push(name)?;
    }
    Ok(())
}

/// The names of the lets among statements, in order.
pub fn let_names<'a>(alloc: Global, stmts: &[&'a Stmt]) -> Result<Vec<&'a [u8]>, NoMemory>
    ensures { IfOk result (λ names. names_at names.items ≡ the_names (stmts_at stmts.now)) }
{
    let mut names = Vec::new(alloc);
    for stmt in stmts {
        put_let(&mut names, stmt)?;
    }
    Ok(names)
}

/// The names of the lets of a body, in preorder.
#[tactic(auto, using(crate::proofs::LetNames::names_in))]
pub fn lets<'a>(alloc: Global, body: &'a [Stmt]) -> Result<Vec<&'a [u8]>, NoMemory>
    ensures { IfOk result (λ names. names_at names.items ≡ lets_of (body_of body.now)) }
{
    let stmts = statements(alloc, body)?;
    let names = let_names(alloc, &stmts)?;
    Ok(names)
}
