//! Names that nothing has: an expression is judged from left to right, before the target to which it goes.

ghost use Rattle.std.specs.Prelude.{◌≡◌, OnOk, map};
ghost use Rattle.design_core.specs.View.{block_of, child_of, conn_of, expr_of, stmt_of, variant_of};
ghost use Rattle.check_core.specs.declared.fault.CheckFault.TheVariants.{UnknownName};
ghost use Rattle.names.specs.Known.{has, none};
ghost use Rattle.check_core.specs.Faults.{Tells, first_of, spot as the_spot};
ghost use Rattle.design_core.specs.Statements.{stmts_at};
ghost use Rattle.check_core.specs.Names.{lets_after, unless_known, unknown_among, unknown_in, unknown_in_block, unknown_in_child, unknown_in_conn, unknown_in_scope as the_unknown_in_scope, unknown_name as the_unknown_name, unknown_read as the_unknown_read};
ghost use Rattle.design_core.specs.Dotted.{below as the_below};
ghost use Rattle.check_names.specs.Scopes.{scope_in};

use crate::scope::{Scope, scope_of};
use check_core::{CheckFault, spot};
use design_core::{Block, Child, Conn, Expr, Stmt, Variant, below, statements};
use names::NameSet;
use std::alloc::Global;

/// Refuses a name unless it is known.
fn known_or_refused(alloc: Global, known: bool, line: u32, name: &[u8]) -> Result<(), CheckFault>
    ensures { Tells result (unless_known known (UnknownName (the_spot line name.now))) }
{
    if known {
        return Ok(());
    }
    Err(CheckFault::UnknownName(spot(alloc, line, name)?))
}

/// Refuses the output of a child unless the child is there.
fn child_or_refused(
    alloc: Global,
    scope: &Scope,
    line: u32,
    child: &[u8],
    output: &[u8],
) -> Result<(), CheckFault>
    ensures { Tells result (unless_known ((scope_in scope.now).child child.now) (UnknownName (the_spot line (the_below child.now output.now)))) }
{
    let name = below(alloc, child, output)?;
    known_or_refused(alloc, scope.children.contains(child), line, name.bytes())?;
    Ok(())
}

/// Refuses the first read of an expression, from left to right, of what has no name, where these lets stand before it.
#[tactic(auto, using(check_core::proofs::Firsts::two_steps))]
fn unknown_read(
    alloc: Global,
    scope: &Scope,
    lets: &NameSet,
    line: u32,
    expr: &Expr,
) -> Result<(), CheckFault>
    ensures { Tells result (the_unknown_read (scope_in scope.now) (has lets.now) line (expr_of expr.now)) }
{
    match expr {
        Expr::Read(name) => {
            let known = lets.contains(name.bytes()) || scope.signals.contains(name.bytes());
            known_or_refused(alloc, known, line, name.bytes())?;
        }
        Expr::Out(child, output) => {
            child_or_refused(alloc, scope, line, child.bytes(), output.bytes())?;
        }
        Expr::Value(_) => {}
        Expr::Un(_, inner) | Expr::Zext(inner, _) | Expr::Slice(inner, _, _) => {
            unknown_read(alloc, scope, lets, line, inner)?;
        }
        Expr::Bin(_, left, right) => {
            unknown_read(alloc, scope, lets, line, left)?;
            unknown_read(alloc, scope, lets, line, right)?;
        }
        Expr::Mux(test, yes, no) => {
            unknown_read(alloc, scope, lets, line, test)?;
            unknown_read(alloc, scope, lets, line, yes)?;
            unknown_read(alloc, scope, lets, line, no)?;
        }
    }
    Ok(())
}

/// Refuses a statement, without those inside it: the reads of its expression, then its target, where these may be assigned.
/// A `let` joins the lets.
#[tactic(auto, using(design_core::proofs::Views::design_views, check_core::proofs::Firsts::two_steps))]
fn unknown_in(
    alloc: Global,
    scope: &Scope,
    assigned: &NameSet,
    lets: &mut NameSet,
    stmt: &Stmt,
) -> Result<(), CheckFault>
    ensures told { Tells result (unknown_in (scope_in scope.now) (has assigned.now) (has lets.old) (stmt_of stmt.now)) }
    ensures lets { OnOk result (has lets.new ≡ lets_after (has lets.old) (stmt_of stmt.now)) }
{
    match stmt {
        Stmt::Assign {
            line,
            target,
            value,
            ..
        } => {
            unknown_read(alloc, scope, lets, *line, value)?;
            let known = assigned.contains(target.bytes());
            known_or_refused(alloc, known, *line, target.bytes())?;
            Ok(())
        }
        Stmt::Let {
            line,
            name,
            value,
            ..
        } => {
            unknown_read(alloc, scope, lets, *line, value)?;
            lets.insert(alloc, name.bytes())?;
            Ok(())
        }
        Stmt::If { line, test, .. } => {
            unknown_read(alloc, scope, lets, *line, test)?;
            Ok(())
        }
        Stmt::Case { line, value, .. } => {
            unknown_read(alloc, scope, lets, *line, value)?;
            Ok(())
        }
    }
}

/// The same of statements in preorder.
#[tactic(auto, using(crate::proofs::UnknownSteps::among_steps))]
fn unknown_among(
    alloc: Global,
    scope: &Scope,
    assigned: &NameSet,
    stmts: &[&Stmt],
) -> Result<(), CheckFault>
    ensures { Tells result (unknown_among (scope_in scope.now) (has assigned.now) none (stmts_at stmts.now)) }
{
    let mut lets = NameSet::new(alloc);
    for stmt in stmts {
        unknown_in(alloc, scope, assigned, &mut lets, stmt)?;
    }
    Ok(())
}

/// The same of a block.
fn unknown_in_block(alloc: Global, scope: &Scope, block: &Block) -> Result<(), CheckFault>
    ensures { Tells result (unknown_in_block (scope_in scope.now) (block_of block.now)) }
{
    let stmts = statements(alloc, &block.body)?;
    let assigned = if block.clocked {
        &scope.registers
    } else {
        &scope.driven
    };
    unknown_among(alloc, scope, assigned, &stmts)?;
    Ok(())
}

/// The same of blocks in order.
#[tactic(auto, using(check_core::proofs::Firsts::list_steps))]
fn unknown_in_blocks(alloc: Global, scope: &Scope, blocks: &[Block]) -> Result<(), CheckFault>
    ensures { Tells result (first_of (unknown_in_block (scope_in scope.now)) (map block_of blocks.now)) }
{
    for block in blocks {
        unknown_in_block(alloc, scope, block)?;
    }
    Ok(())
}

/// Refuses a connection: the reads of its expression.
fn unknown_in_conn(alloc: Global, scope: &Scope, conn: &Conn) -> Result<(), CheckFault>
    ensures { Tells result (unknown_in_conn (scope_in scope.now) (conn_of conn.now)) }
{
    let lets = NameSet::new(alloc);
    unknown_read(alloc, scope, &lets, conn.line, &conn.value)?;
    Ok(())
}

/// The same of a child's connections in order.
#[tactic(auto, using(check_core::proofs::Firsts::list_steps))]
fn unknown_in_child(alloc: Global, scope: &Scope, child: &Child) -> Result<(), CheckFault>
    ensures { Tells result (unknown_in_child (scope_in scope.now) (child_of child.now)) }
{
    for conn in &child.conns {
        unknown_in_conn(alloc, scope, conn)?;
    }
    Ok(())
}

/// The same of children in order.
#[tactic(auto, using(check_core::proofs::Firsts::list_steps))]
fn unknown_in_children(alloc: Global, scope: &Scope, children: &[Child]) -> Result<(), CheckFault>
    ensures { Tells result (first_of (unknown_in_child (scope_in scope.now)) (map child_of children.now)) }
{
    for child in children {
        unknown_in_child(alloc, scope, child)?;
    }
    Ok(())
}

/// Refuses the reads and targets of a variant, where this may be read and assigned.
#[tactic(auto, using(check_core::proofs::Firsts::two_steps))]
fn unknown_in_scope(alloc: Global, scope: &Scope, variant: &Variant) -> Result<(), CheckFault>
    ensures { Tells result (the_unknown_in_scope (scope_in scope.now) (variant_of variant.now)) }
{
    unknown_in_children(alloc, scope, &variant.children)?;
    unknown_in_blocks(alloc, scope, &variant.blocks)?;
    Ok(())
}

/// Refuses the first read in a variant that names no signal and no `let` of its block before it, the first target that is no wire,
/// output or register that the block may assign, and the first read of a child that is not there.
pub fn unknown_name(alloc: Global, variant: &Variant) -> Result<(), CheckFault>
    ensures { Tells result (the_unknown_name (variant_of variant.now)) }
{
    let scope = scope_of(alloc, variant)?;
    unknown_in_scope(alloc, &scope, variant)
}
