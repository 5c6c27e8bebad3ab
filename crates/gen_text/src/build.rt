//! Expressions and integers made of parts that stand behind boxes. A part goes behind its box as soon as it was read: what a
//! reader lets go where it fails later is then a box, and not each variant of what the box holds; and no variant is made in
//! place by a function that may fail, since the proofs of such functions are many times as long.

ghost use Rattle.std.specs.Prelude.{◌≡◌, IfOk};
ghost use Rattle.gen_tree.specs.View.{int_of, fam_of, expr_of};
ghost use Rattle.gen_tree.specs.Tree as tree;

use gen_tree::{Expr, Fam, Int, IntOp, Op, UnOp};
use std::alloc::Global;
use std::boxed::Box;
use text_core::{NoMemory, Text};

/// A value behind a box.
pub(crate) fn boxed(alloc: Global, value: Expr) -> Result<Box<Expr>, NoMemory>
    ensures { IfOk result (λ made. expr_of made.value ≡ expr_of value) }
{
    Ok(Box::new(alloc, value)?)
}

/// An integer behind a box.
pub(crate) fn boxed_int(alloc: Global, int: Int) -> Result<Box<Int>, NoMemory>
    ensures { IfOk result (λ made. int_of made.value ≡ int_of int) }
{
    Ok(Box::new(alloc, int)?)
}

/// A child's name behind a box.
pub(crate) fn boxed_fam(alloc: Global, fam: Fam) -> Result<Box<Fam>, NoMemory>
    ensures { IfOk result (λ made. fam_of made.value ≡ fam_of fam) }
{
    Ok(Box::new(alloc, fam)?)
}

/// A signal or a `let`.
pub(crate) fn read(fam: Fam) -> Expr
    ensures { expr_of result ≡ tree.read (fam_of fam) }
{
    Expr::Read(fam)
}

/// An output of a child.
pub(crate) fn output(child: Box<Fam>, output: Text) -> Expr
    ensures { expr_of result ≡ tree.out (fam_of child.value) output }
{
    Expr::Out(child, output)
}

/// An operator between two integers.
pub(crate) fn computed(op: IntOp, left: Box<Int>, right: Box<Int>) -> Int
    ensures { int_of result ≡ tree.bin op (int_of left.value) (int_of right.value) }
{
    Int::Bin(op, left, right)
}

/// An operator on a value.
pub(crate) fn unary(op: UnOp, value: Box<Expr>) -> Expr
    ensures { expr_of result ≡ tree.unary op (expr_of value.value) }
{
    Expr::Un(op, value)
}

/// An operator between two values.
pub(crate) fn binary(op: Op, first: Box<Expr>, second: Box<Expr>) -> Expr
    ensures { expr_of result ≡ tree.binary op (expr_of first.value) (expr_of second.value) }
{
    Expr::Bin(op, first, second)
}

/// A choice between two values.
pub(crate) fn mux(test: Box<Expr>, first: Box<Expr>, second: Box<Expr>) -> Expr
    ensures { expr_of result ≡ tree.mux (expr_of test.value) (expr_of first.value) (expr_of second.value) }
{
    Expr::Mux(test, first, second)
}

/// A value, made wider.
pub(crate) fn zext(value: Box<Expr>, width: Int) -> Expr
    ensures { expr_of result ≡ tree.zext (expr_of value.value) (int_of width) }
{
    Expr::Zext(value, width)
}

/// Some of the bits of a value.
pub(crate) fn slice(value: Box<Expr>, high: Box<Int>, low: Box<Int>) -> Expr
    ensures { expr_of result ≡ tree.slice (expr_of value.value) (int_of high.value) (int_of low.value) }
{
    Expr::Slice(value, high, low)
}
