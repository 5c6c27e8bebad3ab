//! How the widths of a form are judged over the places of its names. A form begins with what stands last in the text, so an operator judges its
//! last operand first; of two that do not fit the one is told that stands first. Nothing is made of what is judged, so that a binding keeps
//! only its places.

ghost use Rattle.std.specs.Prelude.{◌≡◌, ◌≤◌, ◌-◌, get_or, length};
ghost use Rattle.bv_core.specs.Operators.{width1_of, width2_of};
ghost use Rattle.cond_lang.specs.Bound.{ref_width};
ghost use Rattle.cond_lang.specs.Judged.{fits_literal, fits_one};
ghost use Rattle.cond_lang.specs.Form.{op_of};
ghost use Rattle.cond_lang.specs.Places.{before_one, behind_one, before_two, fit, leaf_fit, one_fit, two_fit, three_fit, JudgesFirst};
ghost use Rattle.std.specs.List.{slice_get};

use crate::fits::{fits_choice, fits_one, fits_two, width_one, width_two};
use crate::form::{Part, Unary};
use crate::ops::{op_of, unary_of};
use bv_core::{Bv, Op1, Op2, Ref};

/// The width of the value at a place.
fn width_of(at: &Ref) -> u8
    ensures { result ≡ ref_width at.now }
{
    match at {
        Ref::Node(_, width) => *width,
        Ref::Const(constant) => constant.width(),
    }
}

/// The offset of the token with this number, or 0 where there is none.
fn offset(offsets: &[u32], token: usize) -> u32
    ensures { result ≡ get_or offsets.now token 0 }
{
    match offsets.get(token) {
        Some(offset) => *offset,
        None => 0,
    }
}

/// The tokens before the operand of an operator.
fn before_one(op: Unary) -> usize
    ensures { result ≡ before_one (op_of op) }
{
    match op {
        Unary::Plain(_) | Unary::Zext(_) => 2,
        Unary::Slice(_, _) => 0,
    }
}

/// The tokens behind the operand of an operator.
fn behind_one(op: Unary) -> usize
    ensures { result ≡ behind_one (op_of op) }
{
    match op {
        Unary::Plain(_) => 1,
        Unary::Zext(_) => 3,
        Unary::Slice(_, _) => 5,
    }
}

/// The tokens before the first operand of an operator.
fn before_two(op: Op2) -> usize
    ensures { result ≡ before_two op }
{
    match op {
        Op2::Cat => 2,
        _ => 1,
    }
}

/// The width of a literal, where it is from 1 to 128 and the value fits.
fn literal(width: u64, value: u128, start: u32) -> Result<u8, u32>
    ensures { result ≡ fit (fits_literal (record { width = width; value = value })) width start }
{
    let Ok(width) = u8::try_from(width) else {
        return Err(start);
    };
    match Bv::make(width, value) {
        Some(_) => Ok(width),
        None => Err(start),
    }
}

/// The width of the value at the place with this number, where it is there.
fn leaf(refs: &[Ref], place: usize, start: u32) -> Result<u8, u32>
    ensures { result ≡ leaf_fit (slice_get refs.now place) start }
{
    match refs.get(place) {
        Some(at) => Ok(width_of(at)),
        None => Err(start),
    }
}

/// Whether an operator takes an operand of this width.
fn takes(op: Unary, a: u8) -> bool
    ensures { result ≡ fits_one (op_of op) a }
{
    match op {
        Unary::Plain(op) => fits_one(unary_of(op), a),
        Unary::Zext(to) => match u8::try_from(to) {
            Ok(to) => fits_one(Op1::Zext(to), a),
            Err(_) => false,
        },
        Unary::Slice(high, low) => match (u8::try_from(high), u8::try_from(low)) {
            (Ok(high), Ok(low)) => fits_one(Op1::Slice(high, low), a),
            _ => false,
        },
    }
}

/// The width of an operator's result, where the operator takes the operand.
fn one(op: Unary, a: Result<u8, u32>, start: u32) -> Result<u8, u32>
    ensures { result ≡ one_fit (op_of op) start a }
{
    let a = a?;
    if !takes(op, a) {
        return Err(start);
    }
    Ok(width_one(op_of(op, a), a))
}

/// The width of an operator's result, where the operator takes the operands.
fn two(op: Op2, a: Result<u8, u32>, b: Result<u8, u32>, start: u32) -> Result<u8, u32>
    ensures { result ≡ two_fit op start a b }
{
    let (a, b) = (a?, b?);
    if !fits_two(op, a, b) {
        return Err(start);
    }
    Ok(width_two(op, a, b))
}

/// The width of a choice, where it takes its operands.
fn choice(
    test: Result<u8, u32>,
    a: Result<u8, u32>,
    b: Result<u8, u32>,
    start: u32,
) -> Result<u8, u32>
    ensures { result ≡ three_fit start test a b }
{
    let (test, a, b) = (test?, a?, b?);
    if !fits_choice(test, a, b) {
        return Err(start);
    }
    Ok(a)
}

/// The width of the first part of a form with its operands, whose tokens end before the one with the number `end`, or the offset of the
/// first token of the first part in it that does not fit; the parts behind it; and the number of its first token.
pub(crate) fn judge<'a>(
    parts: &'a [Part],
    refs: &[Ref],
    offsets: &[u32],
    end: usize,
) -> (Result<u8, u32>, &'a [Part], usize)
    ensures judged { JudgesFirst refs.now offsets.now parts.now end result }
    ensures shorter { length result.1.now ≤ length parts.now - 1 }
{
    let [part, rest @ ..] = parts else {
        let begin = end.saturating_sub(1);
        return (Err(offset(offsets, begin)), &[], begin);
    };
    match *part {
        Part::Const(width, value) => {
            let begin = end.saturating_sub(1);
            (literal(width, value, offset(offsets, begin)), rest, begin)
        }
        Part::Leaf(place, tokens) => {
            let begin = end.saturating_sub(tokens);
            (leaf(refs, place, offset(offsets, begin)), rest, begin)
        }
        Part::One(op) => {
            let (a, rest, begin) = judge(rest, refs, offsets, end.saturating_sub(behind_one(op)));
            let begin = begin.saturating_sub(before_one(op));
            (one(op, a, offset(offsets, begin)), rest, begin)
        }
        Part::Two(op) => {
            let (b, rest, begin) = judge(rest, refs, offsets, end.saturating_sub(1));
            let (a, rest, begin) = judge(rest, refs, offsets, begin.saturating_sub(1));
            let begin = begin.saturating_sub(before_two(op));
            (two(op, a, b, offset(offsets, begin)), rest, begin)
        }
        Part::Mux => {
            let (b, rest, begin) = judge(rest, refs, offsets, end.saturating_sub(1));
            let (a, rest, begin) = judge(rest, refs, offsets, begin.saturating_sub(1));
            let (test, rest, begin) = judge(rest, refs, offsets, begin.saturating_sub(1));
            let begin = begin.saturating_sub(2);
            (choice(test, a, b, offset(offsets, begin)), rest, begin)
        }
    }
}
