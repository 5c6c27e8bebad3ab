//! The widths that operators take, and those that they give: one table, by which sources are judged.

ghost use Rattle.std.specs.Prelude.{◌≡◌, ◌+◌, ◌<◌, ◌^◌, IfOk};
ghost use Rattle.check_core.specs.Widths.{binary_width, mux_width, needed_width, part_width, slice_width, unary_width, where_same, zext_width};
ghost use Rattle.design_core.specs.declared.expr.Op.TheVariants.{Cat};

use crate::widths::bits;
use check_core::Clash;
use design_core::{Op, UnOp};

/// This width, where the right one is the left one.
fn where_same(left: u64, right: u64, this: u64) -> Result<u64, Clash>
    ensures { result ≡ where_same left right this }
{
    if left == right {
        Ok(this)
    } else {
        Err(Clash {
            have: right,
            want: left,
        })
    }
}

/// The width of an operator's result.
pub(crate) fn unary_width(op: UnOp, width: u64) -> u64
    ensures { result ≡ unary_width op width }
{
    match op {
        UnOp::Not => width,
        UnOp::All | UnOp::Any | UnOp::Parity => 1,
    }
}

/// The width of two widths side by side, at most 128.
fn cat_width(left: u64, right: u64) -> Result<u64, Clash>
    requires left { left < 2 ^ 63 }
    requires right { right < 2 ^ 63 }
    ensures { result ≡ binary_width Cat left right }
{
    let sum = left + right;
    if sum <= 128 {
        Ok(sum)
    } else {
        Err(Clash {
            have: sum,
            want: 128,
        })
    }
}

/// The width of an operator's result, where it takes these widths.
pub(crate) fn binary_width(op: Op, left: u64, right: u64) -> Result<u64, Clash>
    requires left { left < 2 ^ 63 }
    requires right { right < 2 ^ 63 }
    ensures width { result ≡ binary_width op left right }
    ensures within { IfOk result (λ width. width < 2 ^ 63) }
{
    match op {
        Op::Add | Op::Sub | Op::Mul | Op::And | Op::Or | Op::Xor => where_same(left, right, left),
        Op::Eq | Op::Ne | Op::Lt | Op::Le => where_same(left, right, 1),
        Op::Shl | Op::Shr => Ok(left),
        Op::Cat => cat_width(left, right),
    }
}

/// The width of a choice, where its condition and its branches have these widths.
pub(crate) fn mux_width(test: u64, yes: u64, no: u64) -> Result<u64, Clash>
    requires { yes < 2 ^ 63 }
    ensures width { result ≡ mux_width test yes no }
    ensures within { IfOk result (λ width. width < 2 ^ 63) }
{
    if test == 1 {
        where_same(yes, no, yes)
    } else {
        Err(Clash {
            have: test,
            want: 1,
        })
    }
}

/// The width to which one of this width is filled.
pub(crate) fn zext_width(width: u64, to: u64) -> Result<u64, Clash>
    requires { to < 2 ^ 63 }
    ensures width { result ≡ zext_width width to }
    ensures within { IfOk result (λ width. width < 2 ^ 63) }
{
    if width <= to {
        Ok(to)
    } else {
        Err(Clash {
            have: width,
            want: to,
        })
    }
}

/// The width of the bits from the first number down to the second, of one of this width.
pub(crate) fn slice_width(width: u64, high: u64, low: u64) -> Result<u64, Clash>
    requires width { width < 2 ^ 63 }
    requires high { high < 2 ^ 63 }
    ensures width { result ≡ slice_width width high low }
    ensures within { IfOk result (λ width. width < 2 ^ 63) }
{
    if high < width {
        Ok((high + 1).saturating_sub(low))
    } else {
        Err(Clash {
            have: width,
            want: high + 1,
        })
    }
}

/// The width of what is assigned, of a target of this width.
pub(crate) fn part_width(width: u64, part: Option<(i64, i64)>) -> Result<u64, Clash>
    requires { width < 2 ^ 63 }
    ensures { result ≡ part_width width part }
{
    match part {
        Some((high, low)) => slice_width(width, bits(high), bits(low)),
        None => Ok(width),
    }
}

/// A width that has to be another.
pub(crate) fn needed_width(want: u64, have: u64) -> Result<u64, Clash>
    ensures { result ≡ needed_width want have }
{
    if have == want {
        Ok(want)
    } else {
        Err(Clash { have, want })
    }
}
