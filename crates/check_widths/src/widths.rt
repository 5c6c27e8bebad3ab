//! The width of an expression: operands are judged from left to right, before their operator.

ghost use Rattle.std.specs.Prelude.{◌≡◌, ◌<◌, ◌^◌, IfOk, Ok, Some, if◌then◌else◌};
ghost use Rattle.design_core.specs.View.{expr_of};
ghost use Rattle.check_core.specs.Widths.{TellsWidth, width_in, width_of};
ghost use Rattle.design_core.specs.Widths.{bits};
ghost use Rattle.check_widths.specs.WidthMaps.{widths_at, widths_in};

use crate::table::{binary_width, mux_width, slice_width, unary_width, zext_width};
use check_core::{CheckFault, Clash, Kinds, spot};
use design_core::{Expr, Signal, below};
use names::NameMap;
use std::alloc::Global;
use text_core::NoMemory;

/// A number of bits; a negative one is none.
pub(crate) fn bits(width: i64) -> u64
    ensures bits { result ≡ bits width }
    ensures within { result < 2 ^ 63 }
{
    if width < 0 { 0 } else { width as u64 }
}

/// The width of a name in a map; 0 where nothing has the name.
pub(crate) fn width_at(widths: &NameMap<i64>, name: &[u8]) -> u64
    ensures width { result ≡ width_of (widths_at widths.now) name.now }
    ensures within { result < 2 ^ 63 }
{
    match widths.get(name) {
        Some(width) => bits(width),
        None => 0,
    }
}

/// The width of a name that a block sees; 0 where nothing has the name.
pub(crate) fn width_of(lets: &NameMap<i64>, signals: &NameMap<i64>, name: &[u8]) -> u64
    ensures width { result ≡ width_of (widths_in lets.now signals.now) name.now }
    ensures within { result < 2 ^ 63 }
{
    match lets.get(name) {
        Some(width) => bits(width),
        None => width_at(signals, name),
    }
}

/// A width, or the fault at this line and name that stands in its stead.
pub(crate) fn told(
    alloc: Global,
    line: u32,
    name: &[u8],
    found: Result<u64, Clash>,
) -> Result<u64, CheckFault>
    ensures told { TellsWidth line name.now result found }
    ensures same { IfOk result (λ width. found ≡ Ok width) }
{
    match found {
        Ok(width) => Ok(width),
        Err(clash) => Err(CheckFault::WidthMismatch {
            at: spot(alloc, line, name)?,
            have: clash.have,
            want: clash.want,
        }),
    }
}

/// The width of an expression among these lets and signals, in bits below 2^63, or the first two widths in it, operands from left to
/// right before their operator, that do not go together: a fault at this line and name.
#[tactic(auto, using(crate::proofs::WidthSteps::width_steps))]
pub(crate) fn width_in(
    alloc: Global,
    lets: &NameMap<i64>,
    signals: &NameMap<i64>,
    line: u32,
    name: &[u8],
    expr: &Expr,
) -> Result<u64, CheckFault>
    ensures told { TellsWidth line name.now result (width_in (widths_in lets.now signals.now) (expr_of expr.now)) }
    ensures within { IfOk result (λ width. width < 2 ^ 63) }
{
    match expr {
        Expr::Read(read) => Ok(width_of(lets, signals, read.bytes())),
        Expr::Out(child, output) => {
            let output = below(alloc, child.bytes(), output.bytes())?;
            Ok(width_of(lets, signals, output.bytes()))
        }
        Expr::Value(literal) => Ok(bits(literal.width)),
        Expr::Un(op, inner) => {
            let width = width_in(alloc, lets, signals, line, name, inner)?;
            Ok(unary_width(*op, width))
        }
        Expr::Bin(op, left, right) => {
            let left = width_in(alloc, lets, signals, line, name, left)?;
            let right = width_in(alloc, lets, signals, line, name, right)?;
            let width = told(alloc, line, name, binary_width(*op, left, right))?;
            Ok(width)
        }
        Expr::Mux(test, yes, no) => {
            let test = width_in(alloc, lets, signals, line, name, test)?;
            let yes = width_in(alloc, lets, signals, line, name, yes)?;
            let no = width_in(alloc, lets, signals, line, name, no)?;
            let width = told(alloc, line, name, mux_width(test, yes, no))?;
            Ok(width)
        }
        Expr::Zext(inner, to) => {
            let width = width_in(alloc, lets, signals, line, name, inner)?;
            let width = told(alloc, line, name, zext_width(width, bits(*to)))?;
            Ok(width)
        }
        Expr::Slice(inner, high, low) => {
            let width = width_in(alloc, lets, signals, line, name, inner)?;
            let found = slice_width(width, bits(*high), bits(*low));
            let width = told(alloc, line, name, found)?;
            Ok(width)
        }
    }
}
