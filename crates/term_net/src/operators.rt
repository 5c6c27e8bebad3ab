//! The operators of the language as those of nodes.

ghost use Rattle.std.specs.Prelude.{◌≡◌};
ghost use Rattle.design_exec.specs.Processes.{binary_of, unary_of};

use bv_core::{Op1, Op2};
use design_core::{Op, UnOp};

/// The operator of nodes for one on a term.
pub(crate) fn unary(op: UnOp) -> Op1
    ensures { result ≡ unary_of op }
{
    match op {
        UnOp::Not => Op1::Not,
        UnOp::All => Op1::All,
        UnOp::Any => Op1::Any,
        UnOp::Parity => Op1::Parity,
    }
}

/// The operator of nodes for one on two terms.
pub(crate) fn binary(op: Op) -> Op2
    ensures { result ≡ binary_of op }
{
    match op {
        Op::Add => Op2::Add,
        Op::Sub => Op2::Sub,
        Op::Mul => Op2::Mul,
        Op::And => Op2::And,
        Op::Or => Op2::Or,
        Op::Xor => Op2::Xor,
        Op::Eq => Op2::Eq,
        Op::Ne => Op2::Ne,
        Op::Lt => Op2::Lt,
        Op::Le => Op2::Le,
        Op::Shl => Op2::Shl,
        Op::Shr => Op2::Shr,
        Op::Cat => Op2::Cat,
    }
}
