//! The operators of a text, as operators on values.

ghost use Rattle.std.specs.Prelude.{◌≡◌};
ghost use Rattle.bv_core.specs.Operators.{Fits1};
ghost use Rattle.cond_lang.specs.Form.{op_of};
ghost use Rattle.cond_lang.specs.Meaning.{unary_of, binary_of};

use crate::form::Unary;
use bv_core::{Op1, Op2};
use gen_tree::{Op, UnOp};

/// The operator on values.
pub(crate) fn unary_of(op: UnOp) -> Op1
    ensures { result ≡ unary_of op }
{
    match op {
        UnOp::Not => Op1::Not,
        UnOp::All => Op1::All,
        UnOp::Any => Op1::Any,
        UnOp::Parity => Op1::Parity,
    }
}

/// The operator on two values.
pub(crate) fn binary_of(op: Op) -> Op2
    ensures { result ≡ binary_of op }
{
    match op {
        Op::Add => Op2::Add,
        Op::Sub => Op2::Sub,
        Op::Mul => Op2::Mul,
        Op::And => Op2::And,
        Op::Or => Op2::Or,
        Op::Xor => Op2::Xor,
        Op::Eq => Op2::Eq,
        Op::Ne => Op2::Ne,
        Op::Lt => Op2::Lt,
        Op::Le => Op2::Le,
        Op::Shl => Op2::Shl,
        Op::Shr => Op2::Shr,
        Op::Cat => Op2::Cat,
    }
}

/// The operator on a value whose width it takes.
pub(crate) fn op_of(op: Unary, width: u8) -> Op1
    requires { Fits1 (op_of op) width }
    ensures { result ≡ op_of op }
{
    match op {
        Unary::Plain(op) => unary_of(op),
        Unary::Zext(to) => Op1::Zext(to as u8),
        Unary::Slice(high, low) => Op1::Slice(high as u8, low as u8),
    }
}
