//! Assignments, `let`s, conditions and the literals of arms: what takes no other statement.

ghost use Rattle.std.specs.Prelude.{◌≡◌, [], map, option_map};
ghost use Rattle.gen_tree.specs.View.{expr_of as source_of, fam_of, lit_of, bounds_of};
ghost use Rattle.design_core.specs.View.{expr_of, stmt_of};
ghost use Rattle.elab_core.specs.Results.{AnswersWith, Judged};
ghost use Rattle.elab_core.specs.Walk.{judge};
ghost use Rattle.elab_core.specs.Elab.{literals as literals_walk, part_bounds};
ghost use Rattle.elab_base.specs.Met.{met_of, CountsUp};
ghost use Rattle.elab_body.specs.Body.{assigned as assigned_by, bound_let as bound_by, tested as tested_by};

use crate::build::{assignment, binding};
use crate::expression;
use design_core::{Literal, Stmt};
use elab_base::{Met, family_name, literal_at, two_numbers};
use elab_core::{Count, ElabFault};
use gen_scope::Scope;
use gen_tree::{Expr, Fam, Int, Lit};
use std::alloc::Global;
use std::boxed::Box;

/// The bounds of the part that is assigned, if there is one; they are no parts.
#[tactic(auto, unfolding(elab_core::specs::Elab::part_bounds), using(elab_base::proofs::Steps::walk_steps))]
fn part_at(
    alloc: Global,
    line: u32,
    scope: &Scope,
    part: &Option<(Box<Int>, Box<Int>)>,
) -> Result<Option<(i64, i64)>, ElabFault>
    ensures { AnswersWith (λ bounds. bounds) result (part_bounds line scope.now (option_map bounds_of part.now)) }
{
    match part {
        None => Ok(None),
        Some((high, low)) => {
            let bounds = two_numbers(alloc, line, scope, high, low)?;
            Ok(Some(bounds))
        }
    }
}

/// The literals of an arm, one after another; each is a part.
#[tactic(auto, using(elab_base::proofs::Counting::count_steps, crate::proofs::ArmLoops::literal_steps))]
pub(crate) fn literals(
    alloc: Global,
    met: &mut Met,
    line: u32,
    scope: &Scope,
    written: &[Lit],
) -> Result<Vec<Literal>, ElabFault>
    ensures judged { Judged (λ made. made.items) result (met_of met.new) (judge (met_of met.old) (literals_walk line scope.now (map lit_of written.now) [])) }
    ensures instances { met.new.instances ≡ met.old.instances }
    ensures counts { CountsUp met.old met.new }
{
    let mut made = Vec::new(alloc);
    for literal in written {
        met.take(Count::Parts, line)?;
        made.push(literal_at(alloc, line, scope, literal)?)?;
    }
    Ok(made)
}

/// An assignment: its count, its target, the part of it, its value.
#[tactic(auto, using(elab_base::proofs::Counting::count_steps, crate::proofs::StmtCases::assigned_steps))]
pub(crate) fn assigned(
    alloc: Global,
    met: &mut Met,
    line: u32,
    scope: &Scope,
    target: &Fam,
    part: &Option<(Box<Int>, Box<Int>)>,
    value: &Expr,
) -> Result<Stmt, ElabFault>
    ensures judged { Judged (λ s. stmt_of s) result (met_of met.new)
        (judge (met_of met.old) (assigned_by line scope.now (fam_of target.now) (option_map bounds_of part.now) (source_of value.now))) }
    ensures instances { met.new.instances ≡ met.old.instances }
    ensures counts { CountsUp met.old met.new }
{
    met.take(Count::Statements, line)?;
    let target = family_name(alloc, line, scope, target)?;
    let part = part_at(alloc, line, scope, part)?;
    let value = expression(alloc, met, value, line, scope)?;
    let gens = scope.clone()?;
    Ok(assignment(line, gens, target, part, value))
}

/// A `let`: its count, its name, its value.
#[tactic(auto, using(elab_base::proofs::Counting::count_steps, crate::proofs::StmtCases::bound_steps))]
pub(crate) fn named(
    alloc: Global,
    met: &mut Met,
    line: u32,
    scope: &Scope,
    name: &Fam,
    value: &Expr,
) -> Result<Stmt, ElabFault>
    ensures judged { Judged (λ s. stmt_of s) result (met_of met.new)
        (judge (met_of met.old) (bound_by line scope.now (fam_of name.now) (source_of value.now))) }
    ensures instances { met.new.instances ≡ met.old.instances }
    ensures counts { CountsUp met.old met.new }
{
    met.take(Count::Statements, line)?;
    let name = family_name(alloc, line, scope, name)?;
    let value = expression(alloc, met, value, line, scope)?;
    let gens = scope.clone()?;
    Ok(binding(line, gens, name, value))
}

/// The count of an `if` or a `case`, and its condition or value.
#[tactic(auto, using(elab_base::proofs::Counting::count_steps, crate::proofs::StmtCases::tested_steps))]
pub(crate) fn tested(
    alloc: Global,
    met: &mut Met,
    line: u32,
    scope: &Scope,
    test: &Expr,
) -> Result<design_core::Expr, ElabFault>
    ensures judged { Judged (λ e. expr_of e) result (met_of met.new) (judge (met_of met.old) (tested_by line scope.now (source_of test.now))) }
    ensures instances { met.new.instances ≡ met.old.instances }
    ensures counts { CountsUp met.old met.new }
{
    met.take(Count::Statements, line)?;
    let test = expression(alloc, met, test, line, scope)?;
    Ok(test)
}
