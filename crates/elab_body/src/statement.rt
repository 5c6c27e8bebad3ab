//! Statements one after another: each kind is walked by one function, whose statement is put behind the others. Those of a loop's turns
//! and of the branch of a `gen if` go there themselves.

ghost use Rattle.std.specs.Prelude.{◌≡◌, true, [], length, map, take, if◌then◌else◌};
ghost use Rattle.gen_tree.specs.View.{expr_of as source_of, stmt_of as source_stmt_of, stmts_of, arm_of as source_arm_of, arms_of as source_arms_of, else_of as source_else_of};
ghost use Rattle.design_core.specs.View.{stmt_of as design_stmt_of, arm_of, body_of, else_of};
ghost use Rattle.design_core.specs.Design.{Done};
ghost use Rattle.elab_core.specs.Results.{Judged};
ghost use Rattle.elab_core.specs.Walk.{judge};
ghost use Rattle.elab_core.specs.Elab.{statement as statement_walk, statements as statements_walk, arm_bodies as arms_walk, else_body, turns as turns_walk};
ghost use Rattle.elab_base.specs.Met.{met_of, CountsUp};
ghost use Rattle.gen_scope.specs.Gens.{bound};
ghost use Rattle.elab_body.specs.Body.{is_generated, made_of, chosen as chosen_by, branches as branches_walk, selected as selected_by, cases as cases_walk, one_arm as arm_walk, turn as turn_walk, in_turn, else_stmts};

use crate::build::{add, choice, selection};
use crate::loops::{Loop, loop_of};
use crate::simple::{assigned, literals, named, tested};
use elab_base::{Met, comparison};
use elab_core::{Count, ElabFault};
use gen_scope::Scope;
use gen_tree::{Arm, Expr, Stmt};
use std::alloc::Global;

/// Statements one after another, behind those that were made, which stay as they are, after an error too; and no count is less than
/// it was, or past its limit where it was not. They have slot 0.
#[cycle(statements)]
#[tactic(auto, using(elab_base::proofs::Counting::count_steps, crate::proofs::StmtLoops::stmts_steps, crate::proofs::Heights::height_at, crate::proofs::Fronts::front_steps))]
pub fn statements(
    alloc: Global,
    met: &mut Met,
    body: &[Stmt],
    scope: &Scope,
    made: &mut Vec<design_core::Stmt>,
) -> Result<(), ElabFault>
    ensures judged { Judged (λ _. made_of made.new) result (met_of met.new)
        (judge (met_of met.old) (statements_walk (stmts_of body.now) scope.now (made_of made.old))) }
    ensures instances { met.new.instances ≡ met.old.instances }
    ensures counts { CountsUp met.old met.new }
    ensures made { take (length made.old.items) made.new.items ≡ made.old.items }
{
    for statement in body {
        one_statement(alloc, met, statement, scope, made)?;
    }
    Ok(())
}

/// The statements of a block or a branch. After an error too, no count is less than it was, and none is past its limit that was not before.
#[cycle(statements)]
#[tactic(auto, unfolding(crate::specs::Body::made_of))]
pub fn block(
    alloc: Global,
    met: &mut Met,
    body: &[Stmt],
    scope: &Scope,
) -> Result<Vec<design_core::Stmt>, ElabFault>
    ensures judged { Judged (λ made. body_of made.items) result (met_of met.new) (judge (met_of met.old) (statements_walk (stmts_of body.now) scope.now Done)) }
    ensures instances { met.new.instances ≡ met.old.instances }
    ensures counts { CountsUp met.old met.new }
{
    let mut made = Vec::new(alloc);
    statements(alloc, met, body, scope, &mut made)?;
    Ok(made)
}

/// One statement.
#[cycle(statements)]
#[tactic(auto, using(elab_base::proofs::Counting::count_steps, gen_tree::proofs::Views::view_steps, crate::proofs::Heights::heights, crate::proofs::StmtCases::stmt_steps, crate::proofs::Fronts::front_steps))]
fn one_statement(
    alloc: Global,
    met: &mut Met,
    statement: &Stmt,
    scope: &Scope,
    made: &mut Vec<design_core::Stmt>,
) -> Result<(), ElabFault>
    ensures judged { Judged (λ _. made_of made.new) result (met_of met.new)
        (judge (met_of met.old) (statement_walk (source_stmt_of statement.now) scope.now (made_of made.old))) }
    ensures instances { met.new.instances ≡ met.old.instances }
    ensures counts { CountsUp met.old met.new }
    ensures made { take (length made.old.items) made.new.items ≡ made.old.items }
{
    match statement {
        Stmt::Assign {
            line,
            target,
            part,
            value,
        } => add(
            made,
            assigned(alloc, met, *line, scope, target, part, value)?,
        ),
        Stmt::Let { line, name, value } => add(made, named(alloc, met, *line, scope, name, value)?),
        Stmt::If {
            line,
            test,
            yes,
            no,
        } => add(made, chosen(alloc, met, *line, scope, test, yes, no)?),
        Stmt::Case {
            line,
            value,
            arms,
            other,
        } => add(
            made,
            selected(alloc, met, *line, scope, value, arms, other)?,
        ),
        Stmt::For { .. } | Stmt::GenIf { .. } => generated(alloc, met, statement, scope, made),
    }
}

/// A `for` or a `gen if`: what its turns give, or the branch that is taken.
#[cycle(statements)]
#[tactic(auto, using(elab_base::proofs::Counting::count_steps, gen_tree::proofs::Views::view_steps, crate::proofs::Heights::heights, crate::proofs::StmtCases::repeat_steps, crate::proofs::Heights::height_branch, crate::proofs::Fronts::front_steps))]
fn generated(
    alloc: Global,
    met: &mut Met,
    statement: &Stmt,
    scope: &Scope,
    made: &mut Vec<design_core::Stmt>,
) -> Result<(), ElabFault>
    requires { is_generated (source_stmt_of statement.now) ≡ true }
    ensures judged { Judged (λ _. made_of made.new) result (met_of met.new)
        (judge (met_of met.old) (statement_walk (source_stmt_of statement.now) scope.now (made_of made.old))) }
    ensures instances { met.new.instances ≡ met.old.instances }
    ensures counts { CountsUp met.old met.new }
    ensures made { take (length made.old.items) made.new.items ≡ made.old.items }
{
    match statement {
        Stmt::For {
            line,
            var,
            from,
            to,
            body,
        } => {
            let each = loop_of(alloc, *line, scope, var, from, to)?;
            all_turns(alloc, met, &each, body, scope, made)
        }
        Stmt::GenIf {
            line,
            left,
            cmp,
            right,
            yes,
            no,
        } => {
            let holds = comparison(alloc, *line, scope, left, *cmp, right)?;
            statements(alloc, met, branch_of(holds, yes, no), scope, made)
        }
        Stmt::Assign { .. } | Stmt::Let { .. } | Stmt::If { .. } | Stmt::Case { .. } => {
            unreachable!()
        }
    }
}

/// An `if`: its count and condition, then its branches.
#[cycle(statements)]
#[tactic(auto, using(elab_base::proofs::Counting::count_steps, crate::proofs::StmtCases::chosen_steps))]
fn chosen(
    alloc: Global,
    met: &mut Met,
    line: u32,
    scope: &Scope,
    test: &Expr,
    yes: &[Stmt],
    no: &Option<Vec<Stmt>>,
) -> Result<design_core::Stmt, ElabFault>
    ensures judged { Judged (λ s. design_stmt_of s) result (met_of met.new)
        (judge (met_of met.old) (chosen_by line scope.now (source_of test.now) (stmts_of yes.now) (source_else_of no.now))) }
    ensures instances { met.new.instances ≡ met.old.instances }
    ensures counts { CountsUp met.old met.new }
{
    let test = tested(alloc, met, line, scope, test)?;
    let (yes, no) = branches(alloc, met, yes, no, scope)?;
    let gens = scope.clone()?;
    Ok(choice(line, gens, test, yes, no))
}

/// The branches of an `if`.
#[cycle(statements)]
#[tactic(auto, using(elab_base::proofs::Counting::count_steps, crate::proofs::StmtCases::branches_steps))]
fn branches(
    alloc: Global,
    met: &mut Met,
    yes: &[Stmt],
    no: &Option<Vec<Stmt>>,
    scope: &Scope,
) -> Result<(Vec<design_core::Stmt>, Option<Vec<design_core::Stmt>>), ElabFault>
    ensures judged { Judged (λ made. (body_of made.0.items, else_of made.1)) result (met_of met.new)
        (judge (met_of met.old) (branches_walk (stmts_of yes.now) (source_else_of no.now) scope.now)) }
    ensures instances { met.new.instances ≡ met.old.instances }
    ensures counts { CountsUp met.old met.new }
{
    let yes = block(alloc, met, yes, scope)?;
    let no = otherwise(alloc, met, no, scope)?;
    Ok((yes, no))
}

/// A `case`: its count and value, then its arms and its default.
#[cycle(statements)]
#[tactic(auto, using(elab_base::proofs::Counting::count_steps, crate::proofs::CaseCases::selected_steps))]
fn selected(
    alloc: Global,
    met: &mut Met,
    line: u32,
    scope: &Scope,
    value: &Expr,
    arms: &[Arm],
    other: &Option<Vec<Stmt>>,
) -> Result<design_core::Stmt, ElabFault>
    ensures judged { Judged (λ s. design_stmt_of s) result (met_of met.new)
        (judge (met_of met.old) (selected_by line scope.now (source_of value.now) (source_arms_of arms.now) (source_else_of other.now))) }
    ensures instances { met.new.instances ≡ met.old.instances }
    ensures counts { CountsUp met.old met.new }
{
    let value = tested(alloc, met, line, scope, value)?;
    let (arms, other) = cases(alloc, met, line, arms, other, scope)?;
    let gens = scope.clone()?;
    Ok(selection(line, gens, value, arms, other))
}

/// The arms of a `case`, and its default.
#[cycle(statements)]
#[tactic(auto, using(elab_base::proofs::Counting::count_steps, crate::proofs::CaseCases::cases_steps))]
fn cases(
    alloc: Global,
    met: &mut Met,
    line: u32,
    arms: &[Arm],
    other: &Option<Vec<Stmt>>,
    scope: &Scope,
) -> Result<(Vec<design_core::Arm>, Option<Vec<design_core::Stmt>>), ElabFault>
    ensures judged { Judged (λ made. (map arm_of made.0.items, else_of made.1)) result (met_of met.new)
        (judge (met_of met.old) (cases_walk line (source_arms_of arms.now) (source_else_of other.now) scope.now)) }
    ensures instances { met.new.instances ≡ met.old.instances }
    ensures counts { CountsUp met.old met.new }
{
    let arms = all_arms(alloc, met, line, arms, scope)?;
    let other = otherwise(alloc, met, other, scope)?;
    Ok((arms, other))
}

/// Arms, one after another.
#[cycle(statements)]
#[tactic(auto, using(elab_base::proofs::Counting::count_steps, crate::proofs::ArmLoops::arm_steps, crate::proofs::Heights::height_arm))]
fn all_arms(
    alloc: Global,
    met: &mut Met,
    line: u32,
    arms: &[Arm],
    scope: &Scope,
) -> Result<Vec<design_core::Arm>, ElabFault>
    ensures judged { Judged (λ made. map arm_of made.items) result (met_of met.new)
        (judge (met_of met.old) (arms_walk line (source_arms_of arms.now) scope.now [])) }
    ensures instances { met.new.instances ≡ met.old.instances }
    ensures counts { CountsUp met.old met.new }
{
    let mut made = Vec::new(alloc);
    for arm in arms {
        made.push(one_arm(alloc, met, line, arm, scope)?)?;
    }
    Ok(made)
}

/// An arm: its literals, then its statements.
#[cycle(statements)]
#[tactic(auto, using(elab_base::proofs::Counting::count_steps, crate::proofs::CaseCases::arm_case_steps))]
fn one_arm(
    alloc: Global,
    met: &mut Met,
    line: u32,
    arm: &Arm,
    scope: &Scope,
) -> Result<design_core::Arm, ElabFault>
    ensures judged { Judged arm_of result (met_of met.new) (judge (met_of met.old)
        (arm_walk line (source_arm_of arm.now).0 (source_arm_of arm.now).1 scope.now)) }
    ensures instances { met.new.instances ≡ met.old.instances }
    ensures counts { CountsUp met.old met.new }
{
    let tests = literals(alloc, met, line, scope, &arm.tests)?;
    let body = block(alloc, met, &arm.body, scope)?;
    Ok(design_core::Arm { tests, body })
}

/// The statements of an `else` or a default, where there is one.
#[cycle(statements)]
#[tactic(auto, using(elab_base::proofs::Counting::count_steps, crate::proofs::StmtCases::else_steps, crate::proofs::Heights::height_otherwise))]
fn otherwise(
    alloc: Global,
    met: &mut Met,
    no: &Option<Vec<Stmt>>,
    scope: &Scope,
) -> Result<Option<Vec<design_core::Stmt>>, ElabFault>
    ensures judged { Judged (λ made. else_of made) result (met_of met.new) (judge (met_of met.old) (else_body (source_else_of no.now) scope.now)) }
    ensures instances { met.new.instances ≡ met.old.instances }
    ensures counts { CountsUp met.old met.new }
{
    match no {
        None => Ok(None),
        Some(no) => {
            let made = block(alloc, met, no, scope)?;
            Ok(Some(made))
        }
    }
}

/// The turns of a loop, one after another.
#[cycle(statements)]
#[tactic(auto, using(elab_base::proofs::Counting::count_steps, crate::proofs::StmtLoops::turns_steps, crate::proofs::StmtLoops::signed_steps, crate::proofs::Fronts::front_steps))]
fn all_turns(
    alloc: Global,
    met: &mut Met,
    each: &Loop,
    body: &[Stmt],
    scope: &Scope,
    made: &mut Vec<design_core::Stmt>,
) -> Result<(), ElabFault>
    ensures judged { Judged (λ _. made_of made.new) result (met_of met.new)
        (judge (met_of met.old) (turns_walk each.now.line (in_turn
        (stmts_of body.now) each.now.name.value scope.now) each.now.turns.from each.now.turns.count (made_of made.old))) }
    ensures instances { met.new.instances ≡ met.old.instances }
    ensures counts { CountsUp met.old met.new }
    ensures made { take (length made.old.items) made.new.items ≡ made.old.items }
{
    for turn in 0..each.turns.count {
        let number = each.turns.number(turn);
        one_turn(alloc, met, each, number, body, scope, made)?;
    }
    Ok(())
}

/// A turn of a loop, whose variable has this number: its count, then its statements.
#[cycle(statements)]
#[tactic(auto, using(elab_base::proofs::Counting::count_steps, crate::proofs::StmtCases::turn_steps, crate::proofs::Fronts::front_steps))]
fn one_turn(
    alloc: Global,
    met: &mut Met,
    each: &Loop,
    number: i64,
    body: &[Stmt],
    scope: &Scope,
    made: &mut Vec<design_core::Stmt>,
) -> Result<(), ElabFault>
    ensures judged { Judged (λ _. made_of made.new) result (met_of met.new)
        (judge (met_of met.old) (turn_walk each.now.line (stmts_of body.now) (bound each.now.name.value number scope.now) (made_of made.old))) }
    ensures instances { met.new.instances ≡ met.old.instances }
    ensures counts { CountsUp met.old met.new }
    ensures made { take (length made.old.items) made.new.items ≡ made.old.items }
{
    met.take(Count::Turns, each.line)?;
    let inner = scope.inner(alloc, &each.name, number)?;
    statements(alloc, met, body, &inner, made)?;
    Ok(())
}

/// The statements of the branch that is taken.
fn branch_of<'a>(holds: bool, yes: &'a [Stmt], no: &'a Option<Vec<Stmt>>) -> &'a [Stmt]
    ensures { stmts_of result.now ≡ (if holds then stmts_of yes.now else else_stmts (source_else_of no.now)) }
{
    match no {
        _ if holds => yes,
        Some(no) => no,
        None => &[],
    }
}
