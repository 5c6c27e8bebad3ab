//! The rules of folding, as outcomes: each answers which operand or constant stands for a node. They are tables over what is constant, apart from the
//! nodes that are made.

ghost use Rattle.std.specs.Prelude.{◌≡◌, Some, None, false};
ghost use Rattle.bv_core.specs.Value.{Bits};
ghost use Rattle.bv_core.specs.Operators.{Fits1, Fits2, FitsMux, width1_of, width2_of};
ghost use Rattle.tree_core.specs.Fold.{is_zero, is_ones, slice_rule, one_outcome, beside, two_outcome, mux_outcome};
ghost use Rattle.net_core.specs.Outcomes.{outcome_of};

use bv_core::{Bv, Op1, Op2, apply1, apply2, choose};

/// What folding makes of an operator on nodes that are folded.
#[derive(Clone, Copy)]
pub(crate) enum Outcome {
    /// This constant.
    Value(Bv),
    /// The first operand.
    First,
    /// The second operand.
    Second,
    /// The third operand.
    Third,
    /// The operator on them.
    Itself,
}

/// Whether it is the constant 0.
fn is_zero(constant: &Option<Bv>) -> bool
    ensures { result ≡ is_zero constant.now }
{
    match constant {
        Some(k) => k.value() == 0,
        None => false,
    }
}

/// Whether it is the constant of all ones.
#[tactic(auto, using(bv_core::proofs::Wrapped::ones_of))]
fn is_ones(constant: &Option<Bv>) -> bool
    ensures { result ≡ is_ones constant.now }
{
    match constant {
        Some(k) => k.value() == u128::MAX >> (128 - k.width()),
        None => false,
    }
}

/// A slice of the whole gives the operand.
fn slice_rule(op: Op1, width: u8) -> Outcome
    requires { Fits1 op width }
    ensures { outcome_of result ≡ slice_rule op width }
{
    match op {
        Op1::Slice(high, low) => {
            if low == 0 && high + 1 == width {
                Outcome::First
            } else {
                Outcome::Itself
            }
        }
        Op1::Not | Op1::All | Op1::Any | Op1::Parity | Op1::Zext(_) => Outcome::Itself,
    }
}

/// What folding makes of an operator on an operand of this width, which is this constant or none.
pub(crate) fn one_outcome(op: Op1, width: u8, a: Option<Bv>) -> Outcome
    requires fits { Fits1 op width }
    requires constant { (x : Bits) → a ≡ Some x → Fits1 op x.width }
    ensures { outcome_of result ≡ one_outcome op width a }
{
    match a {
        Some(x) => Outcome::Value(apply1(op, x)),
        None => slice_rule(op, width),
    }
}

/// And with 0 gives 0, and with all ones the other.
fn beside_and(a: &Option<Bv>, b: &Option<Bv>) -> Outcome
    ensures { outcome_of result ≡ beside Op2.And a.now b.now }
{
    if is_zero(a) {
        Outcome::First
    } else if is_zero(b) {
        Outcome::Second
    } else if is_ones(a) {
        Outcome::Second
    } else if is_ones(b) {
        Outcome::First
    } else {
        Outcome::Itself
    }
}

/// Or with 0 gives the other, and with all ones all ones.
fn beside_or(a: &Option<Bv>, b: &Option<Bv>) -> Outcome
    ensures { outcome_of result ≡ beside Op2.Or a.now b.now }
{
    if is_zero(a) {
        Outcome::Second
    } else if is_zero(b) {
        Outcome::First
    } else if is_ones(a) {
        Outcome::First
    } else if is_ones(b) {
        Outcome::Second
    } else {
        Outcome::Itself
    }
}

/// A sum with 0 gives the other.
fn beside_add(a: &Option<Bv>, b: &Option<Bv>) -> Outcome
    ensures { outcome_of result ≡ beside Op2.Add a.now b.now }
{
    if is_zero(a) {
        Outcome::Second
    } else if is_zero(b) {
        Outcome::First
    } else {
        Outcome::Itself
    }
}

/// What the rules of one constant operand make of an operator.
fn beside(op: Op2, a: &Option<Bv>, b: &Option<Bv>) -> Outcome
    ensures { outcome_of result ≡ beside op a.now b.now }
{
    match op {
        Op2::And => beside_and(a, b),
        Op2::Or => beside_or(a, b),
        Op2::Add => beside_add(a, b),
        Op2::Shl | Op2::Shr => {
            if is_zero(b) {
                Outcome::First
            } else {
                Outcome::Itself
            }
        }
        Op2::Sub | Op2::Mul | Op2::Xor | Op2::Cat => Outcome::Itself,
        Op2::Eq | Op2::Ne | Op2::Lt | Op2::Le => Outcome::Itself,
    }
}

/// What folding makes of an operator on operands that are these constants or none.
pub(crate) fn two_outcome(op: Op2, a: &Option<Bv>, b: &Option<Bv>) -> Outcome
    requires { (x y : Bits) → a.now ≡ Some x → b.now ≡ Some y → Fits2 op x.width y.width }
    ensures { outcome_of result ≡ two_outcome op a.now b.now }
{
    match (a, b) {
        (Some(x), Some(y)) => Outcome::Value(apply2(op, *x, *y)),
        (Some(_), None) => beside(op, a, b),
        (None, _) => beside(op, a, b),
    }
}

/// A constant condition gives the branch.
fn branch(k: Bv) -> Outcome
    ensures { outcome_of result ≡ mux_outcome (Some k) None None false }
{
    if k.value() == 1 {
        Outcome::Second
    } else {
        Outcome::Third
    }
}

/// What folding makes of a choice whose condition and branches are these constants or none, and whose branches are
/// equal or not.
pub(crate) fn mux_outcome(c: Option<Bv>, a: Option<Bv>, b: Option<Bv>, same: bool) -> Outcome
    requires { (k x y : Bits) → c ≡ Some k → a ≡ Some x → b ≡ Some y → FitsMux k.width x.width y.width }
    ensures { outcome_of result ≡ mux_outcome c a b same }
{
    match (c, a, b) {
        (Some(k), Some(x), Some(y)) => Outcome::Value(choose(k, x, y)),
        (Some(k), Some(_), None) => branch(k),
        (Some(k), None, _) => branch(k),
        (None, _, _) => {
            if same {
                Outcome::Second
            } else {
                Outcome::Itself
            }
        }
    }
}

/// The width of an operator's result.
pub(crate) fn width1(op: Op1, a: u8) -> u8
    requires { Fits1 op a }
    ensures { result ≡ width1_of op a }
{
    match op {
        Op1::Not => a,
        Op1::All | Op1::Any | Op1::Parity => 1,
        Op1::Slice(high, low) => high - low + 1,
        Op1::Zext(to) => to,
    }
}

/// The width of an operator's result.
pub(crate) fn width2(op: Op2, a: u8, b: u8) -> u8
    requires { Fits2 op a b }
    ensures { result ≡ width2_of op a b }
{
    match op {
        Op2::Add | Op2::Sub | Op2::Mul | Op2::And | Op2::Or | Op2::Xor => a,
        Op2::Eq | Op2::Ne | Op2::Lt | Op2::Le => 1,
        Op2::Shl | Op2::Shr => a,
        Op2::Cat => a + b,
    }
}
