//! The operators of bit vectors against vectors that were computed apart from them.

use crate::table::{
    FITS_ONE, FITS_TWO, MUX, One, Pair, TEXTS, Two, arithmetic, bitwise, compare, join, part,
    reduce, shift,
};
use bv_core::{Bv, apply1, apply2, choose, fits_mux, fits1, fits2, text_of};
use std::test::Fail;

/// Whether a value has this width and number.
fn is(value: Bv, wanted: &Pair) -> bool {
    value.width() == wanted.0 && value.value() == wanted.1
}

/// Whether an operator has its result on one operand.
fn computes_one(case: &One) -> bool {
    let (op, operand, wanted) = case;
    let Some(value) = Bv::make(operand.0, operand.1) else {
        return false;
    };
    fits1(*op, value.width()) && is(apply1(*op, value), wanted)
}

/// Whether an operator has its result on two operands.
fn computes_two(case: &Two) -> bool {
    let (op, left, right, wanted) = case;
    let Some(a) = Bv::make(left.0, left.1) else {
        return false;
    };
    let Some(b) = Bv::make(right.0, right.1) else {
        return false;
    };
    fits2(*op, a.width(), b.width()) && is(apply2(*op, a, b), wanted)
}

/// Whether a choice has its result.
fn chooses(condition: &Pair, left: &Pair, right: &Pair, wanted: &Pair) -> bool {
    let Some(c) = Bv::make(condition.0, condition.1) else {
        return false;
    };
    let Some(a) = Bv::make(left.0, left.1) else {
        return false;
    };
    let Some(b) = Bv::make(right.0, right.1) else {
        return false;
    };
    fits_mux(c.width(), a.width(), b.width()) && is(choose(c, a, b), wanted)
}

/// The number of the first case of one operand whose result is another.
fn wrong_one(cases: &[One]) -> Option<usize> {
    for (i, case) in cases.iter().enumerate() {
        if !computes_one(case) {
            return Some(i);
        }
    }
    None
}

/// The number of the first case of two operands whose result is another.
fn wrong_two(cases: &[Two]) -> Option<usize> {
    for (i, case) in cases.iter().enumerate() {
        if !computes_two(case) {
            return Some(i);
        }
    }
    None
}

#[test]
fn operators_compute(rt: HostRuntime) {
    assert_eq!(rt; wrong_one(&reduce::CASES), None);
    assert_eq!(rt; wrong_one(&part::CASES), None);
    assert_eq!(rt; wrong_two(&arithmetic::CASES), None);
    assert_eq!(rt; wrong_two(&bitwise::CASES), None);
    assert_eq!(rt; wrong_two(&compare::CASES), None);
    assert_eq!(rt; wrong_two(&shift::CASES), None);
    assert_eq!(rt; wrong_two(&join::CASES), None);
}

#[test]
fn an_operator_takes_the_width_of_one(rt: HostRuntime) {
    for (i, (op, width, fits)) in FITS_ONE.iter().enumerate() {
        assert!(rt; fits1(*op, *width) == *fits, "case {i}");
    }
}

#[test]
fn an_operator_takes_the_widths_of_two(rt: HostRuntime) {
    for (i, (op, left, right, fits)) in FITS_TWO.iter().enumerate() {
        assert!(rt; fits2(*op, *left, *right) == *fits, "case {i}");
    }
}

#[test]
fn one_of_two_is_chosen(rt: HostRuntime) {
    for (i, (condition, left, right, wanted)) in MUX.iter().enumerate() {
        assert!(rt; chooses(condition, left, right, wanted), "case {i}");
    }
}

#[test]
fn values_are_printed(rt: HostRuntime) -> Result<(), Fail> {
    for (i, (pair, wanted)) in TEXTS.iter().enumerate() {
        let value = Bv::make(pair.0, pair.1).ok_or("a value fits its width")?;
        let Ok(text) = text_of(rt.alloc(), value) else {
            return Err("memory lasts".into());
        };
        assert!(rt; text.as_str() == *wanted, "case {i}");
    }
    Ok(())
}
