//! Whether widths, literals and slices are in range, before any two widths are compared.

ghost use Rattle.std.specs.Prelude.{◌≡◌, ◌≤◌, ◌^◌, nat_lt};
ghost use Rattle.design_core.specs.View.{expr_of};
ghost use Rattle.check_core.specs.Widths.{is_declared, is_literal, is_part, is_sized, is_slice, is_width};

use design_core::{Expr, Kind, Literal};

/// Whether a number is from 1 to 128.
fn is_width(number: i64) -> bool
    ensures { result ≡ is_width number }
{
    1 <= number && number <= 128
}

/// Whether these are bits from the first down to the second, of the 128 that there may be.
fn is_slice(high: i64, low: i64) -> bool
    ensures { result ≡ is_slice high low }
{
    0 <= low && low <= high && high <= 127
}

/// Whether a value fits a width from 1 to 128.
fn fits(width: u8, value: u128) -> bool
    requires some { 1 ≤ width }
    requires most { width ≤ 128 }
    ensures { result ≡ nat_lt value (2 ^ width) }
{
    width == 128 || value >> width == 0
}

/// Whether a literal has a width from 1 to 128, and a value that is not negative and fits it.
pub(crate) fn is_literal(literal: &Literal) -> bool
    ensures { result ≡ is_literal literal.now }
{
    if !is_width(literal.width) {
        return false;
    }
    !literal.negative && fits(literal.width as u8, literal.value)
}

/// Whether all literals, widths and slices of an expression are such.
pub(crate) fn is_sized(expr: &Expr) -> bool
    ensures { result ≡ is_sized (expr_of expr.now) }
{
    match expr {
        Expr::Read(_) | Expr::Out(_, _) => true,
        Expr::Value(literal) => is_literal(literal),
        Expr::Un(_, inner) => is_sized(inner),
        Expr::Bin(_, left, right) => is_sized(left) && is_sized(right),
        Expr::Mux(test, yes, no) => is_sized(test) && is_sized(yes) && is_sized(no),
        Expr::Zext(inner, width) => is_sized(inner) && is_width(*width),
        Expr::Slice(inner, high, low) => is_sized(inner) && is_slice(*high, *low),
    }
}

/// Whether the bounds of what is assigned are such.
pub(crate) fn is_part(part: Option<(i64, i64)>) -> bool
    ensures { result ≡ is_part part }
{
    match part {
        Some((high, low)) => is_slice(high, low),
        None => true,
    }
}

/// Whether a declaration of this width has one, and a register a start value; the output of a child is declared elsewhere.
pub(crate) fn is_declared(kind: &Kind, width: i64) -> bool
    ensures { result ≡ is_declared kind.now width }
{
    match kind {
        Kind::Input | Kind::Output | Kind::Wire => is_width(width),
        Kind::Reg(start) => is_width(width) && is_literal(start),
        Kind::ChildOut(_, _) => true,
    }
}
