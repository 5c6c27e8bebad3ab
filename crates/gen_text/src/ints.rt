//! Integers of a source, and names with an index.

ghost use Rattle.std.specs.Prelude.{◌≡◌, option_map};
ghost use Rattle.gen_token.specs.Words.{placed, word_of};
ghost use Rattle.gen_tree.specs.View.{int_of, fam_of};
ghost use Rattle.gen_text.specs.Faults.{Gives, with_rest};
ghost use Rattle.gen_text.specs.Forms.{int_op_form, cmp_form};
ghost use Rattle.gen_text.specs.Reading as list;

use crate::build::{self, boxed_int};
use crate::fault::ReadFault;
use crate::words::{closed, is_mark, name};
use gen_token::{Mark, Placed, Token};
use gen_tree::{Cmp, Dialect, Fam, Int, IntOp};
use std::alloc::Global;
use std::boxed::Box;
use text_core::Text;

/// The operator between integers that a token is.
fn int_op_of(token: Token<'_>) -> Option<IntOp>
    ensures { result ≡ int_op_form (word_of token.entry) }
{
    match token {
        Token::Mark(Mark::Plus) => Some(IntOp::Add),
        Token::Mark(Mark::Minus) => Some(IntOp::Sub),
        Token::Mark(Mark::Star) => Some(IntOp::Mul),
        _ => None,
    }
}

/// The operator between integers in front, and what follows it.
fn int_op<'t, 'a>(tokens: &'t [Placed<'a>]) -> Result<(IntOp, &'t [Placed<'a>]), ReadFault>
    ensures { Gives (with_rest (λ op. op)) result (list.int_op_at (placed tokens.now)) }
{
    match tokens {
        [first, rest @ ..] => match int_op_of(first.token) {
            Some(op) => Ok((op, rest)),
            None => Err(ReadFault::At { left: tokens.len() }),
        },
        [] => Err(ReadFault::At { left: 0 }),
    }
}

/// The comparison of integers that a token is.
fn cmp_of(token: Token<'_>) -> Option<Cmp>
    ensures { result ≡ cmp_form (word_of token.entry) }
{
    match token {
        Token::Mark(Mark::EqualsEquals) => Some(Cmp::Eq),
        Token::Mark(Mark::NotEquals) => Some(Cmp::Ne),
        Token::Mark(Mark::Less) => Some(Cmp::Lt),
        Token::Mark(Mark::LessEquals) => Some(Cmp::Le),
        _ => None,
    }
}

/// The comparison of integers in front, and what follows it.
pub(crate) fn cmp<'t, 'a>(tokens: &'t [Placed<'a>]) -> Result<(Cmp, &'t [Placed<'a>]), ReadFault>
    ensures { Gives (with_rest (λ cmp. cmp)) result (list.cmp_at (placed tokens.now)) }
{
    match tokens {
        [first, rest @ ..] => match cmp_of(first.token) {
            Some(cmp) => Ok((cmp, rest)),
            None => Err(ReadFault::At { left: tokens.len() }),
        },
        [] => Err(ReadFault::At { left: 0 }),
    }
}

/// The integer in front, and what follows it. `room` brackets may still be opened.
#[cycle(ints)]
#[tactic(auto, using(crate::proofs::IntsRead::int_opened))]
pub(crate) fn int<'t, 'a>(
    alloc: Global,
    dialect: Dialect,
    room: usize,
    tokens: &'t [Placed<'a>],
) -> Result<(Int, &'t [Placed<'a>]), ReadFault>
    ensures { Gives (with_rest int_of) result (list.int_at dialect room (placed tokens.now)) }
{
    int_form(alloc, dialect, room, tokens)
}

/// The same, by the token in front.
#[cycle(ints)]
fn int_form<'t, 'a>(
    alloc: Global,
    dialect: Dialect,
    room: usize,
    tokens: &'t [Placed<'a>],
) -> Result<(Int, &'t [Placed<'a>]), ReadFault>
    ensures { Gives (with_rest int_of) result (list.int_step dialect room (list.inner_int dialect room) (placed tokens.now)) }
{
    match tokens {
        [first, rest @ ..] => match first.token {
            Token::Number(number) => Ok((Int::Num(number), rest)),
            Token::Name(name) => {
                if dialect == Dialect::Condition {
                    return Err(ReadFault::At { left: tokens.len() });
                }
                Ok((Int::Var(Text::new(alloc, name)?), rest))
            }
            Token::Mark(Mark::LeftParen) => {
                if dialect == Dialect::Condition || room == 0 {
                    return Err(ReadFault::At { left: tokens.len() });
                }
                int_group(alloc, dialect, room - 1, rest)
            }
            _ => Err(ReadFault::At { left: tokens.len() }),
        },
        [] => Err(ReadFault::At { left: 0 }),
    }
}

/// What stands behind the bracket of an integer, and what follows it.
#[cycle(ints)]
fn int_group<'t, 'a>(
    alloc: Global,
    dialect: Dialect,
    room: usize,
    tokens: &'t [Placed<'a>],
) -> Result<(Int, &'t [Placed<'a>]), ReadFault>
    ensures { Gives (with_rest int_of) result (list.group_at (list.int_at dialect room) (placed tokens.now)) }
{
    let (left, rest) = int(alloc, dialect, room, tokens)?;
    let left = boxed_int(alloc, left)?;
    let (op, rest) = int_op(rest)?;
    let (right, rest) = closed(int(alloc, dialect, room, rest)?, Mark::RightParen)?;
    let right = boxed_int(alloc, right)?;
    Ok((build::computed(op, left, right), rest))
}

/// The index behind a name, or none, and what follows it.
pub(crate) fn index<'t, 'a>(
    alloc: Global,
    dialect: Dialect,
    room: usize,
    tokens: &'t [Placed<'a>],
) -> Result<(Option<Box<Int>>, &'t [Placed<'a>]), ReadFault>
    ensures { Gives (with_rest (option_map (λ index. int_of index.value))) result (list.index_at dialect room (placed tokens.now)) }
{
    match tokens {
        [first, rest @ ..] => {
            if is_mark(first.token, Mark::Hash) {
                let (index, rest) = int(alloc, dialect, room, rest)?;
                let index = boxed_int(alloc, index)?;
                return Ok((Some(index), rest));
            }
            Ok((None, tokens))
        }
        [] => Ok((None, tokens)),
    }
}

/// A name with what stands behind it, and what follows.
pub(crate) fn fam_rest<'t, 'a>(
    alloc: Global,
    dialect: Dialect,
    room: usize,
    name: &[u8],
    tokens: &'t [Placed<'a>],
) -> Result<(Fam, &'t [Placed<'a>]), ReadFault>
    ensures { Gives (with_rest fam_of) result (list.fam_rest_at dialect room name.now (placed tokens.now)) }
{
    let (index, rest) = index(alloc, dialect, room, tokens)?;
    let name = Text::new(alloc, name)?;
    Ok((Fam { name, index }, rest))
}

/// The name with an index or without in front, and what follows it.
pub(crate) fn fam<'t, 'a>(
    alloc: Global,
    room: usize,
    tokens: &'t [Placed<'a>],
) -> Result<(Fam, &'t [Placed<'a>]), ReadFault>
    ensures { Gives (with_rest fam_of) result (list.fam_at room (placed tokens.now)) }
{
    let (name, rest) = name(tokens)?;
    fam_rest(alloc, Dialect::Source, room, name, rest)
}
