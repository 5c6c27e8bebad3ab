//! Which widths the operators take, and the widths of their results, by the tests of the operators themselves.

ghost use Rattle.std.specs.Prelude.{◌≡◌, ◌-◌};
ghost use Rattle.bv_core.specs.Operators.{Fits1, Fits2, width1_of, width2_of};
ghost use Rattle.cond_lang.specs.Judged.{fits_one, fits_two, fits_choice};

use bv_core::{Op1, Op2, fits_mux, fits1, fits2};

/// Whether an operator takes an operand of this width.
#[tactic(auto, using(crate::proofs::Tests::one_told))]
pub(crate) fn fits_one(op: Op1, a: u8) -> bool
    ensures { result ≡ fits_one op a }
{
    fits1(op, a)
}

/// Whether an operator takes operands of these widths.
#[tactic(auto, using(crate::proofs::Tests::two_told))]
pub(crate) fn fits_two(op: Op2, a: u8, b: u8) -> bool
    ensures { result ≡ fits_two op a b }
{
    fits2(op, a, b)
}

/// Whether a choice takes a condition and two branches of these widths.
#[tactic(auto, using(crate::proofs::Tests::choice_told))]
pub(crate) fn fits_choice(test: u8, a: u8, b: u8) -> bool
    ensures { result ≡ fits_choice test a b }
{
    fits_mux(test, a, b)
}

/// The width of an operator's result.
pub(crate) fn width_one(op: Op1, a: u8) -> u8
    requires { Fits1 op a }
    ensures { result ≡ width1_of op a }
{
    match op {
        Op1::Not => a,
        Op1::All | Op1::Any | Op1::Parity => 1,
        Op1::Slice(high, low) => high - low + 1,
        Op1::Zext(to) => to,
    }
}

/// The width of an operator's result.
pub(crate) fn width_two(op: Op2, a: u8, b: u8) -> u8
    requires { Fits2 op a b }
    ensures { result ≡ width2_of op a b }
{
    match op {
        Op2::Add | Op2::Sub | Op2::Mul | Op2::And | Op2::Or | Op2::Xor => a,
        Op2::Eq | Op2::Ne | Op2::Lt | Op2::Le => 1,
        Op2::Shl | Op2::Shr => a,
        Op2::Cat => a + b,
    }
}
