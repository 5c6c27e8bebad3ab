//! The integers of elaboration: from -2^62 to 2^62, so that one operation never leaves 64 bits before it is judged.

ghost use Rattle.std.specs.Prelude.{◌≡◌, IfOk, pos, ◌+ℤ◌, ◌≤ℤ◌};
ghost use Rattle.gen_tree.specs.View.{int_of};
ghost use Rattle.elab_core.specs.Results.{AnswersWith};
ghost use Rattle.elab_core.specs.Numbers.{number, ranged, apply_op, turn_count, holds, two_numbers as two_numbers_of};
ghost use Rattle.elab_base.specs.Names.{gens_of};
ghost use Rattle.elab_base.specs.Compares.{compares};

use crate::names::Names;
use elab_core::ElabFault;
use gen_scope::{Params, Scope};
use gen_tree::{Cmp, Int, IntOp};
use std::alloc::Global;
use text_core::Text;

const LEAST: i64 = -4_611_686_018_427_387_904;

const MOST: i64 = 4_611_686_018_427_387_904;

/// The result of an operator, where it is in range.
fn combined(line: u32, op: IntOp, left: i64, right: i64) -> Result<i64, ElabFault>
    ensures { AnswersWith (λ n. n) result (ranged line (apply_op op left right)) }
{
    let number = match op {
        IntOp::Add => left.checked_add(right),
        IntOp::Sub => left.checked_sub(right),
        IntOp::Mul => left.checked_mul(right),
    };
    match number {
        Some(number) if LEAST <= number && number <= MOST => Ok(number),
        _ => Err(ElabFault::ElabRange { line }),
    }
}

/// What an integer of the source is where these names have numbers, from -2^62 to 2^62; its faults are on this line.
#[tactic(auto, using(crate::proofs::NumberSteps::number_steps))]
fn number_among(alloc: Global, line: u32, names: &Names, int: &Int) -> Result<i64, ElabFault>
    ensures { AnswersWith (λ n. n) result (number line (gens_of names.now) (int_of int.now)) }
{
    match int {
        Int::Num(number) => {
            if *number <= 4_611_686_018_427_387_904 {
                Ok(*number as i64)
            } else {
                Err(ElabFault::ElabRange { line })
            }
        }
        Int::Var(name) => match names.number_of(name.bytes()) {
            Some(number) => Ok(number),
            None => {
                let name = Text::new(alloc, name.bytes())?;
                Err(ElabFault::UnknownParameter { line, name })
            }
        },
        Int::Bin(op, left, right) => {
            let left = number_among(alloc, line, names, left)?;
            let right = number_among(alloc, line, names, right)?;
            let number = combined(line, *op, left, right)?;
            Ok(number)
        }
    }
}

/// What an integer of the source is in a scope, from -2^62 to 2^62; its faults are on this line.
pub fn number_at(alloc: Global, line: u32, scope: &Scope, int: &Int) -> Result<i64, ElabFault>
    ensures { AnswersWith (λ n. n) result (number line scope.now (int_of int.now)) }
{
    let number = number_among(alloc, line, &Names::Scope(scope), int)?;
    Ok(number)
}

/// What an integer of the source is where only these parameters have numbers, from -2^62 to 2^62; its faults are on this line.
pub fn default_at(alloc: Global, line: u32, params: &Params, int: &Int) -> Result<i64, ElabFault>
    ensures { AnswersWith (λ n. n) result (number line params.now (int_of int.now)) }
{
    let number = number_among(alloc, line, &Names::Params(params), int)?;
    Ok(number)
}

/// Two numbers, the left one first.
#[tactic(auto, unfolding(elab_core::specs::Numbers::two_numbers), using(crate::proofs::Steps::walk_steps))]
pub fn two_numbers(
    alloc: Global,
    line: u32,
    scope: &Scope,
    left: &Int,
    right: &Int,
) -> Result<(i64, i64), ElabFault>
    ensures { AnswersWith (λ pair. pair) result (two_numbers_of line scope.now (int_of left.now) (int_of right.now)) }
{
    let left = number_at(alloc, line, scope, left)?;
    let right = number_at(alloc, line, scope, right)?;
    Ok((left, right))
}

/// How many turns a loop has from one number to below another: at most 4,096.
pub(crate) fn turns_between(line: u32, from: i64, to: i64) -> Result<u32, ElabFault>
    ensures turns { AnswersWith (λ n. n) result (turn_count line from to) }
    ensures last { IfOk result (λ n. (from +ℤ pos n) ≤ℤ pos 9223372036854775807) }
{
    match to.checked_sub(from) {
        None if from < to => Err(ElabFault::ElabRange { line }),
        Some(turns) if turns > 4_096 => Err(ElabFault::ElabRange { line }),
        Some(turns) if turns >= 0 => Ok(turns as u32),
        _ => Ok(0),
    }
}

/// Whether a comparison holds.
fn compared(cmp: Cmp, left: i64, right: i64) -> bool
    ensures { result ≡ holds cmp left right }
{
    match cmp {
        Cmp::Eq => left == right,
        Cmp::Ne => left != right,
        Cmp::Lt => left < right,
        Cmp::Le => left <= right,
    }
}

/// Whether a comparison of two integers holds; their faults are on this line.
#[tactic(auto, unfolding(crate::specs::Compares::compares), using(crate::proofs::Steps::walk_steps, crate::proofs::Numbers::signed_steps))]
pub fn comparison(
    alloc: Global,
    line: u32,
    scope: &Scope,
    left: &Int,
    cmp: Cmp,
    right: &Int,
) -> Result<bool, ElabFault>
    ensures { AnswersWith (λ b. b) result (compares line scope.now (int_of left.now) cmp (int_of right.now)) }
{
    let (left, right) = two_numbers(alloc, line, scope, left, right)?;
    Ok(compared(cmp, left, right))
}
