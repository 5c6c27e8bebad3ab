//! Slots of statements, in preorder: each kind of statement is taken apart and made again with its slot.

ghost use Rattle.std.specs.Prelude.{◌≡◌, ◌+◌, ◌<◌, ◌^◌};
ghost use Rattle.design_core.specs.Design as design;
ghost use Rattle.design_core.specs.View.{arm_of, arms_of, body_of, else_of, expr_of, stmt_of};
ghost use Rattle.elab_core.specs.Design.{size, arms_size, else_size, stmt_size, numbered, numbered_arms, numbered_else, numbered_stmt};

use design_core::{Arm, Expr, Stmt};
use gen_scope::Scope;
use std::alloc::Global;
use std::mem;
use text_core::Text;

/// A statement that stands for none while one is numbered.
fn nothing(alloc: Global) -> Stmt {
    Stmt::If {
        slot: 0,
        line: 0,
        gens: Scope::empty(),
        test: Expr::Read(Text::empty(alloc)),
        yes: Vec::new(alloc),
        no: None,
    }
}

/// An assignment.
#[tactic(auto, using(design_core::proofs::Views::design_views))]
fn assignment(
    slot: u32,
    line: u32,
    gens: Scope,
    target: Text,
    part: Option<(i64, i64)>,
    value: Expr,
) -> Stmt
    ensures { stmt_of result ≡ design.Assign slot line gens target part (expr_of value) }
{
    Stmt::Assign {
        slot,
        line,
        gens,
        target,
        part,
        value,
    }
}

/// A `let`.
#[tactic(auto, using(design_core::proofs::Views::design_views))]
fn binding(slot: u32, line: u32, gens: Scope, name: Text, value: Expr) -> Stmt
    ensures { stmt_of result ≡ design.Let slot line gens name (expr_of value) }
{
    Stmt::Let {
        slot,
        line,
        gens,
        name,
        value,
    }
}

/// An `if`.
#[tactic(auto, using(design_core::proofs::Views::design_views))]
fn choice(
    slot: u32,
    line: u32,
    gens: Scope,
    test: Expr,
    yes: Vec<Stmt>,
    no: Option<Vec<Stmt>>,
) -> Stmt
    ensures { stmt_of result ≡ design.If slot line gens (expr_of test) (body_of yes.items) (else_of no) }
{
    Stmt::If {
        slot,
        line,
        gens,
        test,
        yes,
        no,
    }
}

/// A `case`.
#[tactic(auto, using(design_core::proofs::Views::design_views))]
fn selection(
    slot: u32,
    line: u32,
    gens: Scope,
    value: Expr,
    arms: Vec<Arm>,
    other: Option<Vec<Stmt>>,
) -> Stmt
    ensures { stmt_of result ≡ design.Case slot line gens (expr_of value) (arms_of arms.items) (else_of other) }
{
    Stmt::Case {
        slot,
        line,
        gens,
        value,
        arms,
        other,
    }
}

/// Gives the statements of a body their slots from this one on, in preorder, and answers the slot behind them.
#[cycle(numbering)]
pub(crate) fn number(alloc: Global, body: &mut [Stmt], first: u32) -> u32
    requires { first + size (body_of body.old) < 2 ^ 32 }
    ensures slots { body_of body.new ≡ numbered first (body_of body.old) }
    ensures next { result ≡ first + size (body_of body.old) }
{
    let mut next = first;
    for index in 0..body.len() {
        let stmt = mem::replace(&mut body[index], nothing(alloc));
        let (stmt, after) = number_stmt(alloc, stmt, next);
        body[index] = stmt;
        next = after;
    }
    next
}

/// A statement with slots from this one on for it and those inside it, in preorder, and the slot behind them.
#[cycle(numbering)]
#[tactic(auto, using(design_core::proofs::Views::design_views))]
fn number_stmt(alloc: Global, stmt: Stmt, first: u32) -> (Stmt, u32)
    requires { first + stmt_size (stmt_of stmt) < 2 ^ 32 }
    ensures slots { stmt_of result.0 ≡ numbered_stmt first (stmt_of stmt) }
    ensures next { result.1 ≡ first + stmt_size (stmt_of stmt) }
{
    match stmt {
        Stmt::Assign {
            line,
            gens,
            target,
            part,
            value,
            ..
        } => (
            assignment(first, line, gens, target, part, value),
            first + 1,
        ),
        Stmt::Let {
            line,
            gens,
            name,
            value,
            ..
        } => (binding(first, line, gens, name, value), first + 1),
        Stmt::If {
            line,
            gens,
            test,
            yes,
            no,
            ..
        } => number_if(alloc, first, line, gens, test, yes, no),
        Stmt::Case {
            line,
            gens,
            value,
            arms,
            other,
            ..
        } => number_case(alloc, first, line, gens, value, arms, other),
    }
}

/// An `if` with this slot, those inside it with the next ones, and the slot behind them.
#[cycle(numbering)]
fn number_if(
    alloc: Global,
    slot: u32,
    line: u32,
    gens: Scope,
    test: Expr,
    mut yes: Vec<Stmt>,
    no: Option<Vec<Stmt>>,
) -> (Stmt, u32)
    requires { slot + (1 + size (body_of yes.items) + else_size (else_of no)) < 2 ^ 32 }
    ensures slots { stmt_of result.0 ≡ design.If slot line gens (expr_of test) (numbered (slot + 1) (body_of yes.items))
        (numbered_else (slot + 1 + size (body_of yes.items)) (else_of no)) }
    ensures next { result.1 ≡ slot + (1 + size (body_of yes.items) + else_size (else_of no)) }
{
    let next = number(alloc, &mut yes, slot + 1);
    let (no, after) = number_else(alloc, no, next);
    (choice(slot, line, gens, test, yes, no), after)
}

/// A `case` with this slot, those inside it with the next ones, and the slot behind them.
#[cycle(numbering)]
fn number_case(
    alloc: Global,
    slot: u32,
    line: u32,
    gens: Scope,
    value: Expr,
    mut arms: Vec<Arm>,
    other: Option<Vec<Stmt>>,
) -> (Stmt, u32)
    requires { slot + (1 + arms_size (arms_of arms.items) + else_size (else_of other)) < 2 ^ 32 }
    ensures slots { stmt_of result.0 ≡ design.Case slot line gens (expr_of value) (numbered_arms (slot + 1) (arms_of arms.items))
        (numbered_else (slot + 1 + arms_size (arms_of arms.items)) (else_of other)) }
    ensures next { result.1 ≡ slot + (1 + arms_size (arms_of arms.items) + else_size (else_of other)) }
{
    let next = number_arms(alloc, &mut arms, slot + 1);
    let (other, after) = number_else(alloc, other, next);
    (selection(slot, line, gens, value, arms, other), after)
}

/// The same for arms, one after another.
#[cycle(numbering)]
fn number_arms(alloc: Global, arms: &mut [Arm], first: u32) -> u32
    requires { first + arms_size (arms_of arms.old) < 2 ^ 32 }
    ensures slots { arms_of arms.new ≡ numbered_arms first (arms_of arms.old) }
    ensures next { result ≡ first + arms_size (arms_of arms.old) }
{
    let mut next = first;
    for index in 0..arms.len() {
        next = number_arm(alloc, &mut arms[index], next);
    }
    next
}

/// The same for an arm.
#[cycle(numbering)]
fn number_arm(alloc: Global, arm: &mut Arm, first: u32) -> u32
    requires { first + size (arm_of arm.old).1 < 2 ^ 32 }
    ensures slots { arm_of arm.new ≡ ((arm_of arm.old).0, numbered first (arm_of arm.old).1) }
    ensures next { result ≡ first + size (arm_of arm.old).1 }
{
    number(alloc, &mut arm.body, first)
}

/// The same for what an `else` or a default holds, if one stands there.
#[cycle(numbering)]
fn number_else(alloc: Global, no: Option<Vec<Stmt>>, first: u32) -> (Option<Vec<Stmt>>, u32)
    requires { first + else_size (else_of no) < 2 ^ 32 }
    ensures slots { else_of result.0 ≡ numbered_else first (else_of no) }
    ensures next { result.1 ≡ first + else_size (else_of no) }
{
    match no {
        Some(mut body) => {
            let next = number(alloc, &mut body, first);
            (Some(body), next)
        }
        None => (None, first),
    }
}
