//! The value of a condition, from the bottom up, the last operand first, since a form begins with what stands last in the text. An operand that
//! is not known leaves nothing known, in a branch of a `mux` that is not taken too.

ghost use Rattle.std.specs.Prelude.{◌≡◌, ◌≤◌, ◌-◌, length};
ghost use Rattle.bv_core.specs.declared.NodeId as node_id;
ghost use Rattle.bv_core.specs.declared.Sample as sampled;
ghost use Rattle.bv_core.specs.declared.Sample.TheVariants as samples;
ghost use Rattle.tree_core.specs.Tree.{Leaf};
ghost use Rattle.cond_lang.specs.Bound.{EachNode, HasWidth, known, ref_width, value_at, bound_value};
ghost use Rattle.bv_core.specs.Value.{IsBits};
ghost use Rattle.cond_lang.specs.Form.{op_of, first_tree, later};
ghost use Rattle.cond_lang.specs.Places.{ref_at, trees_at};
ghost use Rattle.cond_lang.specs.Shown.{cond_tree, cond_width, truth_of};
ghost use Rattle.cond_lang.specs.Strict.{on_one, on_two, on_three};
ghost use Rattle.bv_core.specs.Operators.{apply1_of, apply2_of, choose_of};
ghost use Rattle.cond_lang.specs.Sampled.{Fits1At, Fits2At, FitsChoiceAt, IsReady, ComesTo};

use crate::Cond;
use crate::form::{Part, Unary};
use crate::ops::op_of;
use bv_core::{Bv, NodeId, Op2, Ref, Sample, Truth, apply1, apply2, choose};

/// What is found at a place.
fn sample_at<F: Fn(NodeId) -> Sample>(at: Ref, value: &F) -> Sample
    requires callable { EachNode (λ node w. F.pre value.now node) (Leaf at) }
    requires widths { EachNode (λ node w. (found : sampled.Sample) → F.post value.now node found → HasWidth w found) (Leaf at) }
    ensures width { HasWidth (ref_width at) result }
    ensures value { (samples : node_id.NodeId → sampled.Sample)
        → EachNode (λ node w. (found : sampled.Sample) → F.post value.now node found → found ≡ samples node) (Leaf at)
        → known result ≡ value_at samples at }
{
    match at {
        Ref::Node(node, _) => value(node),
        Ref::Const(constant) => Sample::Known(constant),
    }
}

/// What is found at the place with this number.
fn leaf<F: Fn(NodeId) -> Sample>(refs: &[Ref], place: usize, value: &F) -> Sample
    requires { IsReady (λ node. F.pre value.now node) (λ node found. F.post value.now node found) (Leaf (ref_at refs.now place)) }
    ensures { ComesTo (λ node found. F.post value.now node found) (Leaf (ref_at refs.now place)) result }
{
    sample_at(refs[place], value)
}

/// An operator on what may be known.
fn on_one(op: Unary, a: Sample) -> Sample
    requires { Fits1At (op_of op) a }
    ensures { known result ≡ on_one (apply1_of (op_of op)) (known a) }
{
    match a {
        Sample::Known(a) => Sample::Known(apply1(op_of(op, a.width()), a)),
        Sample::Unknown => Sample::Unknown,
    }
}

/// An operator on two of what may be known.
fn on_two(op: Op2, a: Sample, b: Sample) -> Sample
    requires { Fits2At op a b }
    ensures { known result ≡ on_two (apply2_of op) (known a) (known b) }
{
    let Sample::Known(a) = a else {
        return Sample::Unknown;
    };
    let Sample::Known(b) = b else {
        return Sample::Unknown;
    };
    Sample::Known(apply2(op, a, b))
}

/// A choice between what may be known: it is not known where one of the three is not.
fn on_three(test: Sample, a: Sample, b: Sample) -> Sample
    requires { FitsChoiceAt test a b }
    ensures { known result ≡ on_three choose_of (known test) (known a) (known b) }
{
    let Sample::Known(test) = test else {
        return Sample::Unknown;
    };
    let Sample::Known(a) = a else {
        return Sample::Unknown;
    };
    let Sample::Known(b) = b else {
        return Sample::Unknown;
    };
    Sample::Known(choose(test, a, b))
}

/// A literal that is a value.
fn literal(width: u64, value: u128) -> Sample
    requires { IsBits (record { width = width; value = value }) }
    ensures { result ≡ samples.Known (record { width = width; value = value }) }
{
    match Bv::make(width as u8, value) {
        Some(constant) => Sample::Known(constant),
        None => Sample::Unknown,
    }
}

/// What the first tree of a form comes to, and the parts behind it.
fn sampled<'a, F: Fn(NodeId) -> Sample>(
    parts: &'a [Part],
    refs: &[Ref],
    value: &F,
) -> (Sample, &'a [Part])
    requires { IsReady (λ node. F.pre value.now node) (λ node found. F.post value.now node found) (first_tree (trees_at refs.now parts.now)) }
    ensures shorter { length result.1.now ≤ length parts.now - 1 }
    ensures value { ComesTo (λ node found. F.post value.now node found) (first_tree (trees_at refs.now parts.now)) result.0 }
    ensures rest { trees_at refs.now result.1.now ≡ later (trees_at refs.now parts.now) }
{
    let [part, rest @ ..] = parts else {
        return (Sample::Unknown, &[]);
    };
    match *part {
        Part::Const(width, value) => (literal(width, value), rest),
        Part::Leaf(place, _) => (leaf(refs, place, value), rest),
        Part::One(op) => {
            let (a, rest) = sampled(rest, refs, value);
            (on_one(op, a), rest)
        }
        Part::Two(op) => {
            let (b, rest) = sampled(rest, refs, value);
            let (a, rest) = sampled(rest, refs, value);
            (on_two(op, a, b), rest)
        }
        Part::Mux => {
            let (b, rest) = sampled(rest, refs, value);
            let (a, rest) = sampled(rest, refs, value);
            let (test, rest) = sampled(rest, refs, value);
            (on_three(test, a, b), rest)
        }
    }
}

impl Cond {
    /// The width of the condition's value in bits, from 1 to 128 where the nodes of its names have such widths. Takes no memory.
    pub fn width(&self) -> u8
        ensures { result ≡ cond_width self.now }
    {
        self.width
    }
}

/// The value of a condition, where nodes have the values that `value` gives; it is not known where that of a name is not, in a
/// branch of a `mux` that is not taken too. `value` is called once for each name in the text. Takes no memory, and a number of
/// steps that is linear in the condition; it goes no deeper than the brackets of the text, of which at most 64 are open at once.
pub fn value_of<F: Fn(NodeId) -> Sample>(cond: &Cond, value: &F) -> Sample
    requires callable { EachNode (λ node w. F.pre value.now node) (cond_tree cond.now) }
    requires widths { EachNode (λ node w. (found : sampled.Sample) → F.post value.now node found → HasWidth w found) (cond_tree cond.now) }
    ensures width { HasWidth (cond_width cond.now) result }
    ensures value { (samples : node_id.NodeId → sampled.Sample)
        → EachNode (λ node w. (found : sampled.Sample) → F.post value.now node found → found ≡ samples node) (cond_tree cond.now)
        → known result ≡ bound_value samples (cond_tree cond.now) }
{
    let (found, _) = sampled(&cond.form.parts, &cond.refs, value);
    found
}

/// Whether a condition holds, where nodes have the values that `value` gives. Takes no memory, as `value_of`.
pub fn truth<F: Fn(NodeId) -> Sample>(cond: &Cond, value: &F) -> Truth
    requires bit { cond_width cond.now ≡ 1 }
    requires callable { EachNode (λ node w. F.pre value.now node) (cond_tree cond.now) }
    requires widths { EachNode (λ node w. (found : sampled.Sample) → F.post value.now node found → HasWidth w found) (cond_tree cond.now) }
    ensures { (samples : node_id.NodeId → sampled.Sample) → EachNode (λ node w. (found : sampled.Sample) → F.post value.now node found
        → found ≡ samples node) (cond_tree cond.now) → result ≡ truth_of (bound_value samples (cond_tree cond.now)) }
{
    truth_of(value_of(cond, value))
}

/// Whether a value is 1.
fn truth_of(value: Sample) -> Truth
    ensures { result ≡ truth_of (known value) }
{
    match value {
        Sample::Known(value) => {
            if value.value() == 1 {
                Truth::True
            } else {
                Truth::False
            }
        }
        Sample::Unknown => Truth::Unknown,
    }
}
