//! The tree of an expression, made of its pieces from the last to the first.

ghost use Rattle.std.specs.Prelude.{◌≡◌, ◌≤◌, IfOk, OnOk, length, option_map};
ghost use Rattle.gen_tree.specs.declared.Dialect.TheVariants as dialect;
ghost use Rattle.gen_token.specs.Words.{placed};
ghost use Rattle.gen_tree.specs.View.{int_of, fam_of, expr_of};
ghost use Rattle.gen_text.specs.Faults.{Gives, with_rest};
ghost use Rattle.gen_text.specs.Pieces.{top, below, exprs_of};
ghost use Rattle.gen_text.specs.Reading as list;

use crate::build::{self, boxed, boxed_fam};
use crate::exprs;
use crate::fault::ReadFault;
use crate::pieces::Piece;
use gen_token::Placed;
use gen_tree::{Dialect, Expr, Fam, Int, Lit};
use std::alloc::Global;
use std::boxed::Box;
use text_core::{NoMemory, Text};

/// A name with an index or without.
fn named(alloc: Global, name: &[u8], index: Option<Box<Int>>) -> Result<Fam, NoMemory>
    ensures { IfOk result (λ fam. fam_of fam ≡ list.fam_of_name name.now (option_map (λ index. int_of index.value) index)) }
{
    let name = Text::new(alloc, name)?;
    Ok(Fam { name, index })
}

/// The last expression of pieces, which are taken away from them.
#[cycle(trees)]
#[tactic(auto, using(crate::proofs::Piles::one_behind))]
fn tree(alloc: Global, pieces: &mut Vec<Piece<'_>>) -> Result<Expr, NoMemory>
    ensures tree { IfOk result (λ tree. expr_of tree ≡ top (exprs_of pieces.old.items)) }
    ensures rest { OnOk result (exprs_of pieces.new.items ≡ below (exprs_of pieces.old.items)) }
    ensures fewer { length pieces.new.items ≤ length pieces.old.items }
{
    match pieces.pop() {
        None => Ok(Expr::Value(Lit::Plain { width: 0, value: 0 })),
        Some(Piece::Read(name, index)) => Ok(build::read(named(alloc, name, index)?)),
        Some(Piece::Out(name, index, output)) => {
            let child = boxed_fam(alloc, named(alloc, name, index)?)?;
            Ok(build::output(child, Text::new(alloc, output)?))
        }
        Some(Piece::Value(lit)) => Ok(Expr::Value(lit)),
        Some(Piece::Un(op)) => Ok(build::unary(op, boxed_tree(alloc, pieces)?)),
        Some(Piece::Bin(op)) => {
            let second = boxed_tree(alloc, pieces)?;
            let first = boxed_tree(alloc, pieces)?;
            Ok(build::binary(op, first, second))
        }
        Some(Piece::Mux) => {
            let second = boxed_tree(alloc, pieces)?;
            let first = boxed_tree(alloc, pieces)?;
            let test = boxed_tree(alloc, pieces)?;
            Ok(build::mux(test, first, second))
        }
        Some(Piece::Zext(width)) => Ok(build::zext(boxed_tree(alloc, pieces)?, width)),
        Some(Piece::Slice(high, low)) => { Ok(build::slice(boxed_tree(alloc, pieces)?, high, low)) }
    }
}

/// The same, behind a box.
#[cycle(trees)]
fn boxed_tree(alloc: Global, pieces: &mut Vec<Piece<'_>>) -> Result<Box<Expr>, NoMemory>
    ensures tree { IfOk result (λ tree. expr_of tree.value ≡ top (exprs_of pieces.old.items)) }
    ensures rest { OnOk result (exprs_of pieces.new.items ≡ below (exprs_of pieces.old.items)) }
    ensures fewer { length pieces.new.items ≤ length pieces.old.items }
{
    boxed(alloc, tree(alloc, pieces)?)
}

/// The expression in front, as a tree, and what follows it. `room` brackets may still be opened.
pub(crate) fn expr_tree<'t, 'a>(
    alloc: Global,
    room: usize,
    tokens: &'t [Placed<'a>],
) -> Result<(Expr, &'t [Placed<'a>]), ReadFault>
    ensures { Gives (with_rest expr_of) result (list.expr_at dialect.Source room (placed tokens.now)) }
{
    let mut pieces = Vec::new(alloc);
    let rest = exprs::expr(alloc, Dialect::Source, room, &mut pieces, tokens)?;
    let expr = tree(alloc, &mut pieces)?;
    Ok((expr, rest))
}
