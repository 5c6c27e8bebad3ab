//! Expressions: each is counted, then its operands from left to right, then its integers. An operand goes behind a box as soon as it
//! is made.

ghost use Rattle.std.specs.Prelude.{◌≡◌};
ghost use Rattle.gen_tree.specs.View.{expr_of as source_of};
ghost use Rattle.design_core.specs.View.{expr_of};
ghost use Rattle.elab_core.specs.Results.{Judged};
ghost use Rattle.elab_core.specs.Walk.{judge};
ghost use Rattle.elab_core.specs.Elab.{expr as walk};
ghost use Rattle.elab_base.specs.Met.{met_of, CountsUp};

use crate::build::{binary, boxed, mux, slice, unary, zext};
use elab_base::{Met, family_name, literal_at, number_at, two_numbers};
use elab_core::{Count, ElabFault};
use gen_scope::Scope;
use gen_tree::Expr;
use std::alloc::Global;
use text_core::Text;

/// An expression whose names have these numbers. Each part is counted, then come its operands and integers; all faults
/// are on this line. After an error too, no count is less than it was, and none is past its limit that was not before.
#[tactic(auto, using(elab_base::proofs::Counting::count_steps, crate::proofs::ExprCases::expr_steps))]
pub fn expression(
    alloc: Global,
    met: &mut Met,
    expr: &Expr,
    line: u32,
    scope: &Scope,
) -> Result<design_core::Expr, ElabFault>
    ensures judged { Judged (λ e. expr_of e) result (met_of met.new) (judge (met_of met.old) (walk line scope.now (source_of expr.now))) }
    ensures instances { met.new.instances ≡ met.old.instances }
    ensures counts { CountsUp met.old met.new }
{
    met.take(Count::Parts, line)?;
    match expr {
        Expr::Read(name) => Ok(design_core::Expr::Read(family_name(alloc, line, scope, name)?)),
        Expr::Out(child, output) => {
            let child = family_name(alloc, line, scope, child)?;
            let output = Text::new(alloc, output.bytes())?;
            Ok(design_core::Expr::Out(child, output))
        }
        Expr::Value(literal) => {
            let literal = literal_at(alloc, line, scope, literal)?;
            Ok(design_core::Expr::Value(literal))
        }
        Expr::Un(op, value) => {
            let value = boxed(alloc, expression(alloc, met, value, line, scope)?)?;
            Ok(unary(*op, value))
        }
        Expr::Bin(op, first, second) => {
            let first = boxed(alloc, expression(alloc, met, first, line, scope)?)?;
            let second = boxed(alloc, expression(alloc, met, second, line, scope)?)?;
            Ok(binary(*op, first, second))
        }
        Expr::Mux(test, first, second) => {
            let test = boxed(alloc, expression(alloc, met, test, line, scope)?)?;
            let first = boxed(alloc, expression(alloc, met, first, line, scope)?)?;
            let second = boxed(alloc, expression(alloc, met, second, line, scope)?)?;
            Ok(mux(test, first, second))
        }
        Expr::Zext(value, width) => {
            let value = boxed(alloc, expression(alloc, met, value, line, scope)?)?;
            let width = number_at(alloc, line, scope, width)?;
            Ok(zext(value, width))
        }
        Expr::Slice(value, high, low) => {
            let value = boxed(alloc, expression(alloc, met, value, line, scope)?)?;
            let (high, low) = two_numbers(alloc, line, scope, high, low)?;
            Ok(slice(value, high, low))
        }
    }
}
