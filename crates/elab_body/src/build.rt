//! Expressions and statements made of parts.

ghost use Rattle.std.specs.Prelude.{◌≡◌, length, take};
ghost use Rattle.design_core.specs.Design as design;
ghost use Rattle.design_core.specs.View.{expr_of, stmt_of, body_of, arms_of, else_of};
ghost use Rattle.elab_core.specs.Operators.{unary_of, binary_of};
ghost use Rattle.elab_core.specs.Elaborated.{added};
ghost use Rattle.elab_core.specs.Results.{NoMemoryOr};
ghost use Rattle.elab_body.specs.Body.{made_of};

use design_core::{Arm, Expr, Stmt};
use elab_core::ElabFault;
use gen_scope::Scope;
use std::alloc::Global;
use std::boxed::Box;
use text_core::Text;

/// A value behind a box. It goes there as soon as it was made: where a walk fails later, it lets go of a box by one call, and not
/// of each variant of what the box holds.
pub(crate) fn boxed(alloc: Global, value: Expr) -> Result<Box<Expr>, ElabFault>
    ensures { NoMemoryOr (λ made. expr_of made.value ≡ expr_of value) result }
{
    Ok(Box::new(alloc, value)?)
}

/// An operator on a value.
pub(crate) fn unary(op: gen_tree::UnOp, value: Box<Expr>) -> Expr
    ensures { expr_of result ≡ design.Unary (unary_of op) (expr_of value.value) }
{
    let op = match op {
        gen_tree::UnOp::Not => design_core::UnOp::Not,
        gen_tree::UnOp::All => design_core::UnOp::All,
        gen_tree::UnOp::Any => design_core::UnOp::Any,
        gen_tree::UnOp::Parity => design_core::UnOp::Parity,
    };
    Expr::Un(op, value)
}

/// An operator of the source, as one of the elaborated design.
fn elaborated(op: gen_tree::Op) -> design_core::Op
    ensures { result ≡ binary_of op }
{
    match op {
        gen_tree::Op::Add => design_core::Op::Add,
        gen_tree::Op::Sub => design_core::Op::Sub,
        gen_tree::Op::Mul => design_core::Op::Mul,
        gen_tree::Op::And => design_core::Op::And,
        gen_tree::Op::Or => design_core::Op::Or,
        gen_tree::Op::Xor => design_core::Op::Xor,
        gen_tree::Op::Eq => design_core::Op::Eq,
        gen_tree::Op::Ne => design_core::Op::Ne,
        gen_tree::Op::Lt => design_core::Op::Lt,
        gen_tree::Op::Le => design_core::Op::Le,
        gen_tree::Op::Shl => design_core::Op::Shl,
        gen_tree::Op::Shr => design_core::Op::Shr,
        gen_tree::Op::Cat => design_core::Op::Cat,
    }
}

/// An operator between two values.
pub(crate) fn binary(op: gen_tree::Op, first: Box<Expr>, second: Box<Expr>) -> Expr
    ensures { expr_of result ≡ design.Binary (binary_of op) (expr_of first.value) (expr_of second.value) }
{
    Expr::Bin(elaborated(op), first, second)
}

/// One of two values.
pub(crate) fn mux(test: Box<Expr>, first: Box<Expr>, second: Box<Expr>) -> Expr
    ensures { expr_of result ≡ design.Mux (expr_of test.value) (expr_of first.value) (expr_of second.value) }
{
    Expr::Mux(test, first, second)
}

/// A value, made wider.
pub(crate) fn zext(value: Box<Expr>, width: i64) -> Expr
    ensures { expr_of result ≡ design.Zext (expr_of value.value) width }
{
    Expr::Zext(value, width)
}

/// Some of the bits of a value.
pub(crate) fn slice(value: Box<Expr>, high: i64, low: i64) -> Expr
    ensures { expr_of result ≡ design.Slice (expr_of value.value) high low }
{
    Expr::Slice(value, high, low)
}

/// An assignment.
#[tactic(auto, using(design_core::proofs::Views::design_views))]
pub(crate) fn assignment(
    line: u32,
    gens: Scope,
    target: Text,
    part: Option<(i64, i64)>,
    value: Expr,
) -> Stmt
    ensures { stmt_of result ≡ design.Assign 0 line gens target part (expr_of value) }
{
    Stmt::Assign {
        slot: 0,
        line,
        gens,
        target,
        part,
        value,
    }
}

/// A `let`.
#[tactic(auto, using(design_core::proofs::Views::design_views))]
pub(crate) fn binding(line: u32, gens: Scope, name: Text, value: Expr) -> Stmt
    ensures { stmt_of result ≡ design.Let 0 line gens name (expr_of value) }
{
    Stmt::Let {
        slot: 0,
        line,
        gens,
        name,
        value,
    }
}

/// An `if`.
#[tactic(auto, using(design_core::proofs::Views::design_views))]
pub(crate) fn choice(
    line: u32,
    gens: Scope,
    test: Expr,
    yes: Vec<Stmt>,
    no: Option<Vec<Stmt>>,
) -> Stmt
    ensures { stmt_of result ≡ design.If 0 line gens (expr_of test) (body_of yes.items) (else_of no) }
{
    Stmt::If {
        slot: 0,
        line,
        gens,
        test,
        yes,
        no,
    }
}

/// A `case`.
#[tactic(auto, using(design_core::proofs::Views::design_views))]
pub(crate) fn selection(
    line: u32,
    gens: Scope,
    value: Expr,
    arms: Vec<Arm>,
    other: Option<Vec<Stmt>>,
) -> Stmt
    ensures { stmt_of result ≡ design.Case 0 line gens (expr_of value) (arms_of arms.items) (else_of other) }
{
    Stmt::Case {
        slot: 0,
        line,
        gens,
        value,
        arms,
        other,
    }
}

/// One statement more.
#[tactic(auto, unfolding(crate::specs::Body::made_of), using(crate::proofs::StmtLoops::body_pushed, crate::proofs::Fronts::front_steps))]
pub(crate) fn add(made: &mut Vec<Stmt>, statement: Stmt) -> Result<(), ElabFault>
    ensures added { NoMemoryOr (λ _. made_of made.new ≡ added (made_of made.old) (stmt_of statement)) result }
    ensures made { take (length made.old.items) made.new.items ≡ made.old.items }
{
    made.push(statement)?;
    Ok(())
}
