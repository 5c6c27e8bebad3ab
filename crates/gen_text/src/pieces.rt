//! An expression as a list of its pieces, operands before their operator. Who reads an expression puts its pieces behind others and makes
//! nothing else, so that a reader of conditions, which wants no tree, has none made and let go.

ghost use Rattle.std.specs.Prelude.{◌≡◌, OnOk};
ghost use Rattle.gen_text.specs.Pieces.{with_piece, exprs_of};

use gen_tree::{Int, Lit, Op, UnOp};
use std::boxed::Box;
use text_core::NoMemory;

/// A piece of an expression: what reads or is a value, or an operator on the last of the values that stand before it.
#[derive(Drop)]
pub enum Piece<'a> {
    /// A signal or a `let`: its name, and its index if it is a member of a family.
    Read(&'a [u8], Option<Box<Int>>),
    /// An output of a child: the child's name and index, and the output's name.
    Out(&'a [u8], Option<Box<Int>>, &'a [u8]),
    Value(Lit),
    Un(UnOp),
    Bin(Op),
    /// `mux(test, first, second)`
    Mux,
    /// `zext(value, width)`
    Zext(Int),
    /// `value[high:low]`
    Slice(Box<Int>, Box<Int>),
}

/// Puts a piece behind others.
#[tactic(auto, using(crate::proofs::Piles::one_behind))]
pub(crate) fn push<'a>(pieces: &mut Vec<Piece<'a>>, piece: Piece<'a>) -> Result<(), NoMemory>
    ensures { OnOk result (exprs_of pieces.new.items ≡ with_piece piece.entry (exprs_of pieces.old.items)) }
{
    pieces.push(piece)?;
    Ok(())
}
