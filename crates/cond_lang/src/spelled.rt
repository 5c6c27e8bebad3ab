//! The form of an expression that was read, made piece by piece from left to right, so that its names come in the order of the text.

ghost use Rattle.std.specs.Prelude.{◌≡◌, [], reverse, IfOk, OnOk};
ghost use Rattle.gen_tree.specs.View.{lit_of};
ghost use Rattle.gen_text.specs.Pieces.{exprs_of};
ghost use Rattle.cond_lang.specs.Form.{const_of, part_of, noted_by, all_names, seats, seats_of};
ghost use Rattle.cond_lang.specs.Meaning.{literal};

use crate::counts::{index_tokens, number};
use crate::distinct::{DistinctNames, fam_place, output_place};
use crate::form::{Part, Unary};
use crate::ops::binary_of;
use gen_text::Piece;
use gen_tree::Lit;
use std::alloc::Global;
use text_core::NoMemory;

/// A literal, whether it is a value or not.
fn literal(lit: &Lit) -> Part
    ensures { result ≡ const_of (literal (lit_of lit.now)) }
{
    match lit {
        Lit::Plain { width, value } => Part::Const(*width, *value),
        Lit::Bits { width, value } => Part::Const(number(width), u128::from(number(value))),
    }
}

/// The part that a piece is. Its name is put behind the others if it is not among them.
fn part_of(
    alloc: Global,
    names: &mut DistinctNames,
    spelled: &mut Vec<u8>,
    piece: &Piece<'_>,
) -> Result<Part, NoMemory>
    requires { names.old.list.items ≡ names.old.known }
    ensures part { IfOk result (λ part. part ≡ part_of names.old.known piece.now) }
    ensures known { OnOk result (names.new.known ≡ noted_by names.old.known piece.now) }
    ensures same { OnOk result (names.new.list.items ≡ names.new.known) }
{
    match piece {
        Piece::Read(name, index) => {
            let place = fam_place(alloc, names, spelled, name, index)?;
            Ok(Part::Leaf(place, index_tokens(index)))
        }
        Piece::Out(name, index, output) => {
            let place = output_place(alloc, names, spelled, name, index, output)?;
            Ok(Part::Leaf(place, index_tokens(index) + 2))
        }
        Piece::Value(lit) => Ok(literal(lit)),
        Piece::Un(op) => Ok(Part::One(Unary::Plain(*op))),
        Piece::Bin(op) => Ok(Part::Two(binary_of(*op))),
        Piece::Mux => Ok(Part::Mux),
        Piece::Zext(width) => Ok(Part::One(Unary::Zext(number(width)))),
        Piece::Slice(high, low) => Ok(Part::One(Unary::Slice(number(high), number(low)))),
    }
}

/// The parts that pieces are, from the last to the first, and their names.
pub(crate) fn parts_of(
    alloc: Global,
    names: &mut DistinctNames,
    pieces: &[Piece<'_>],
) -> Result<Vec<Part>, NoMemory>
    requires none { names.old.known ≡ [] }
    requires same { names.old.list.items ≡ names.old.known }
    ensures parts { IfOk result (λ parts. seats parts.items ≡ seats_of (exprs_of pieces.now)) }
    ensures names { OnOk result (names.new.list.items ≡ all_names (exprs_of pieces.now)) }
{
    let mut parts = Vec::with_capacity(alloc, pieces.len())?;
    let mut spelled = Vec::new(alloc);
    for piece in pieces {
        let part = part_of(alloc, names, &mut spelled, piece)?;
        parts.push(part)?;
    }
    parts.reverse();
    Ok(parts)
}
