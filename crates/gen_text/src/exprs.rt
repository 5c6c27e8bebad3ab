//! Expressions, read from left to right with one token ahead, as lists of pieces. `room` is how many brackets may still be opened.

ghost use Rattle.std.specs.Prelude.{◌≡◌, [], ◌∷◌, List, IfOk, OnOk, option_map};
ghost use Rattle.gen_token.specs.Words.{placed, word_of};
ghost use Rattle.gen_tree.specs.Tree as tree;
ghost use Rattle.gen_tree.specs.View.{bounds_of, int_of, lit_of};
ghost use Rattle.gen_text.specs.Faults.{Gives, with_rest};
ghost use Rattle.gen_text.specs.Forms.{op_form};
ghost use Rattle.gen_text.specs.Pieces.{top, below, with_piece, exprs_of};
ghost use Rattle.gen_text.specs.Reading as list;

use crate::build::boxed_int;
use crate::fault::ReadFault;
use crate::ints::{index, int};
use crate::pieces::{Piece, push};
use crate::words::{begins_mark, closed, mark, name, open};
use gen_token::{Keyword, Mark, Placed, Token};
use gen_tree::{Dialect, Int, Lit, Op, UnOp};
use std::alloc::Global;
use std::boxed::Box;
use text_core::NoMemory;

/// What stands behind `bits`, and what follows it.
fn bits<'t, 'a>(
    alloc: Global,
    dialect: Dialect,
    room: usize,
    tokens: &'t [Placed<'a>],
) -> Result<(Lit, &'t [Placed<'a>]), ReadFault>
    ensures { Gives (with_rest lit_of) result (list.bits_at dialect room (placed tokens.now)) }
{
    let rest = open(tokens, Mark::LeftParen, room)?;
    let (width, rest) = closed(int(alloc, dialect, room - 1, rest)?, Mark::Comma)?;
    let width = boxed_int(alloc, width)?;
    let (value, rest) = closed(int(alloc, dialect, room - 1, rest)?, Mark::RightParen)?;
    let value = boxed_int(alloc, value)?;
    Ok((Lit::Bits { width, value }, rest))
}

/// The literal in front, and what follows it.
pub(crate) fn lit<'t, 'a>(
    alloc: Global,
    dialect: Dialect,
    room: usize,
    tokens: &'t [Placed<'a>],
) -> Result<(Lit, &'t [Placed<'a>]), ReadFault>
    ensures { Gives (with_rest lit_of) result (list.lit_at dialect room (placed tokens.now)) }
{
    match tokens {
        [first, rest @ ..] => match first.token {
            Token::Literal { width, value } => Ok((Lit::Plain { width, value }, rest)),
            Token::Keyword(Keyword::Bits) => {
                if dialect == Dialect::Condition {
                    return Err(ReadFault::At { left: tokens.len() });
                }
                bits(alloc, dialect, room, rest)
            }
            _ => Err(ReadFault::At { left: tokens.len() }),
        },
        [] => Err(ReadFault::At { left: 0 }),
    }
}

/// The name of an output behind a child's name, or none, and what follows it.
fn dot<'t, 'a>(tokens: &'t [Placed<'a>]) -> Result<(Option<&'a [u8]>, &'t [Placed<'a>]), ReadFault>
    ensures { Gives (with_rest (option_map (λ output. output.now))) result (list.dot_at (placed tokens.now)) }
{
    if !begins_mark(tokens, Mark::Dot) {
        return Ok((None, tokens));
    }
    let (output, rest) = name(&tokens[1..])?;
    Ok((Some(output), rest))
}

/// A signal, or an output of a child.
fn read_of<'a>(name: &'a [u8], index: Option<Box<Int>>, output: Option<&'a [u8]>) -> Piece<'a>
    ensures { (es : List tree.Expr) → with_piece result es ≡ list.read_of (list.fam_of_name name.now (option_map (λ index. int_of index.value) index))
        (option_map (λ output. output.now) output.entry) ∷ es }
{
    match output {
        Some(output) => Piece::Out(name, index, output),
        None => Piece::Read(name, index),
    }
}

/// Puts what stands behind a name behind other pieces: a signal, a `let`, or a child's output; and what follows it.
fn read<'t, 'a>(
    alloc: Global,
    dialect: Dialect,
    room: usize,
    name: &'a [u8],
    pieces: &mut Vec<Piece<'a>>,
    tokens: &'t [Placed<'a>],
) -> Result<&'t [Placed<'a>], ReadFault>
    ensures reads { Gives (λ rest. (top (exprs_of pieces.new.items), placed rest.now)) result (list.read_at dialect room name.now (placed tokens.now)) }
    ensures behind { OnOk result (exprs_of pieces.new.items ≡ top (exprs_of pieces.new.items) ∷ exprs_of pieces.old.items) }
{
    let (index, rest) = index(alloc, dialect, room, tokens)?;
    let (output, rest) = dot(rest)?;
    push(pieces, read_of(name, index, output))?;
    Ok(rest)
}

/// The operator between expressions that a token is.
fn op_of(token: Token<'_>) -> Option<Op>
    ensures { result ≡ op_form (word_of token.entry) }
{
    match token {
        Token::Mark(Mark::Plus) => Some(Op::Add),
        Token::Mark(Mark::Minus) => Some(Op::Sub),
        Token::Mark(Mark::Star) => Some(Op::Mul),
        Token::Mark(Mark::Ampersand) => Some(Op::And),
        Token::Mark(Mark::Bar) => Some(Op::Or),
        Token::Mark(Mark::Caret) => Some(Op::Xor),
        Token::Mark(Mark::EqualsEquals) => Some(Op::Eq),
        Token::Mark(Mark::NotEquals) => Some(Op::Ne),
        Token::Mark(Mark::Less) => Some(Op::Lt),
        Token::Mark(Mark::LessEquals) => Some(Op::Le),
        Token::Mark(Mark::LessLess) => Some(Op::Shl),
        Token::Mark(Mark::GreaterGreater) => Some(Op::Shr),
        _ => None,
    }
}

/// The operator between expressions in front, and what follows it.
fn op<'t, 'a>(tokens: &'t [Placed<'a>]) -> Result<(Op, &'t [Placed<'a>]), ReadFault>
    ensures { Gives (with_rest (λ op. op)) result (list.op_at (placed tokens.now)) }
{
    match tokens {
        [first, rest @ ..] => match op_of(first.token) {
            Some(op) => Ok((op, rest)),
            None => Err(ReadFault::At { left: tokens.len() }),
        },
        [] => Err(ReadFault::At { left: 0 }),
    }
}

/// Puts the pieces of the expression in front behind others; and what follows it. `room` brackets may still be opened.
#[cycle(exprs)]
#[tactic(auto, using(crate::proofs::OnlyExprs::expr_opened))]
pub(crate) fn expr<'t, 'a>(
    alloc: Global,
    dialect: Dialect,
    room: usize,
    pieces: &mut Vec<Piece<'a>>,
    tokens: &'t [Placed<'a>],
) -> Result<&'t [Placed<'a>], ReadFault>
    ensures reads { Gives (λ rest. (top (exprs_of pieces.new.items), placed rest.now)) result (list.expr_at dialect room (placed tokens.now)) }
    ensures behind { OnOk result (exprs_of pieces.new.items ≡ top (exprs_of pieces.new.items) ∷ exprs_of pieces.old.items) }
{
    let rest = prim(alloc, dialect, room, pieces, tokens)?;
    slice(alloc, dialect, room, pieces, rest)
}

/// The expression in front, up to a slice at its end, and what follows it.
#[cycle(exprs)]
fn prim<'t, 'a>(
    alloc: Global,
    dialect: Dialect,
    room: usize,
    pieces: &mut Vec<Piece<'a>>,
    tokens: &'t [Placed<'a>],
) -> Result<&'t [Placed<'a>], ReadFault>
    ensures reads { Gives (λ rest. (top (exprs_of pieces.new.items), placed rest.now)) result
        (list.prim_step dialect room (list.inner_expr dialect room) (placed tokens.now)) }
    ensures behind { OnOk result (exprs_of pieces.new.items ≡ top (exprs_of pieces.new.items) ∷ exprs_of pieces.old.items) }
{
    match tokens {
        [first, rest @ ..] => match first.token {
            Token::Name(name) => read(alloc, dialect, room, name, pieces, rest),
            Token::Mark(Mark::LeftParen) => bracket(alloc, dialect, room, pieces, tokens),
            Token::Mark(Mark::Tilde) => unary(alloc, dialect, room, UnOp::Not, pieces, rest),
            Token::Keyword(Keyword::All) => unary(alloc, dialect, room, UnOp::All, pieces, rest),
            Token::Keyword(Keyword::Any) => unary(alloc, dialect, room, UnOp::Any, pieces, rest),
            Token::Keyword(Keyword::Parity) => {
                unary(alloc, dialect, room, UnOp::Parity, pieces, rest)
            }
            Token::Keyword(Keyword::Cat) => cat(alloc, dialect, room, pieces, rest),
            Token::Keyword(Keyword::Mux) => mux(alloc, dialect, room, pieces, rest),
            Token::Keyword(Keyword::Zext) => zext(alloc, dialect, room, pieces, rest),
            _ => {
                let (lit, rest) = lit(alloc, dialect, room, tokens)?;
                push(pieces, Piece::Value(lit))?;
                Ok(rest)
            }
        },
        [] => Err(ReadFault::At { left: 0 }),
    }
}

/// Two values with an operator between them, in brackets, and what follows them.
#[cycle(exprs)]
fn bracket<'t, 'a>(
    alloc: Global,
    dialect: Dialect,
    room: usize,
    pieces: &mut Vec<Piece<'a>>,
    tokens: &'t [Placed<'a>],
) -> Result<&'t [Placed<'a>], ReadFault>
    ensures reads { Gives (λ rest. (top (exprs_of pieces.new.items), placed rest.now)) result
        (list.bracket_at room (list.inner_expr dialect room) (placed tokens.now)) }
    ensures behind { OnOk result (exprs_of pieces.new.items ≡ top (exprs_of pieces.new.items) ∷ exprs_of pieces.old.items) }
{
    let rest = open(tokens, Mark::LeftParen, room)?;
    let rest = expr(alloc, dialect, room - 1, pieces, rest)?;
    let (op, rest) = op(rest)?;
    let rest = expr(alloc, dialect, room - 1, pieces, rest)?;
    let rest = mark(rest, Mark::RightParen)?;
    push(pieces, Piece::Bin(op))?;
    Ok(rest)
}

/// What stands behind an operator on one value, and what follows it.
#[cycle(exprs)]
fn unary<'t, 'a>(
    alloc: Global,
    dialect: Dialect,
    room: usize,
    op: UnOp,
    pieces: &mut Vec<Piece<'a>>,
    tokens: &'t [Placed<'a>],
) -> Result<&'t [Placed<'a>], ReadFault>
    ensures reads { Gives (λ rest. (top (exprs_of pieces.new.items), placed rest.now)) result
        (list.unary_at room (list.inner_expr dialect room) op (placed tokens.now)) }
    ensures behind { OnOk result (exprs_of pieces.new.items ≡ top (exprs_of pieces.new.items) ∷ exprs_of pieces.old.items) }
{
    let rest = open(tokens, Mark::LeftParen, room)?;
    let rest = expr(alloc, dialect, room - 1, pieces, rest)?;
    let rest = mark(rest, Mark::RightParen)?;
    push(pieces, Piece::Un(op))?;
    Ok(rest)
}

/// What stands behind `cat`, and what follows it.
#[cycle(exprs)]
fn cat<'t, 'a>(
    alloc: Global,
    dialect: Dialect,
    room: usize,
    pieces: &mut Vec<Piece<'a>>,
    tokens: &'t [Placed<'a>],
) -> Result<&'t [Placed<'a>], ReadFault>
    ensures reads { Gives (λ rest. (top (exprs_of pieces.new.items), placed rest.now)) result
        (list.cat_at room (list.inner_expr dialect room) (placed tokens.now)) }
    ensures behind { OnOk result (exprs_of pieces.new.items ≡ top (exprs_of pieces.new.items) ∷ exprs_of pieces.old.items) }
{
    let rest = open(tokens, Mark::LeftParen, room)?;
    let rest = expr(alloc, dialect, room - 1, pieces, rest)?;
    let rest = mark(rest, Mark::Comma)?;
    let rest = expr(alloc, dialect, room - 1, pieces, rest)?;
    let rest = mark(rest, Mark::RightParen)?;
    push(pieces, Piece::Bin(Op::Cat))?;
    Ok(rest)
}

/// What stands behind `zext`, and what follows it.
#[cycle(exprs)]
fn zext<'t, 'a>(
    alloc: Global,
    dialect: Dialect,
    room: usize,
    pieces: &mut Vec<Piece<'a>>,
    tokens: &'t [Placed<'a>],
) -> Result<&'t [Placed<'a>], ReadFault>
    ensures reads { Gives (λ rest. (top (exprs_of pieces.new.items), placed rest.now)) result
        (list.zext_at dialect room (list.inner_expr dialect room) (placed tokens.now)) }
    ensures behind { OnOk result (exprs_of pieces.new.items ≡ top (exprs_of pieces.new.items) ∷ exprs_of pieces.old.items) }
{
    let rest = open(tokens, Mark::LeftParen, room)?;
    let rest = expr(alloc, dialect, room - 1, pieces, rest)?;
    let rest = mark(rest, Mark::Comma)?;
    let (width, rest) = closed(int(alloc, dialect, room - 1, rest)?, Mark::RightParen)?;
    push(pieces, Piece::Zext(width))?;
    Ok(rest)
}

/// What stands behind `mux`, and what follows it.
#[cycle(exprs)]
fn mux<'t, 'a>(
    alloc: Global,
    dialect: Dialect,
    room: usize,
    pieces: &mut Vec<Piece<'a>>,
    tokens: &'t [Placed<'a>],
) -> Result<&'t [Placed<'a>], ReadFault>
    ensures reads { Gives (λ rest. (top (exprs_of pieces.new.items), placed rest.now)) result
        (list.mux_at room (list.inner_expr dialect room) (placed tokens.now)) }
    ensures behind { OnOk result (exprs_of pieces.new.items ≡ top (exprs_of pieces.new.items) ∷ exprs_of pieces.old.items) }
{
    let rest = open(tokens, Mark::LeftParen, room)?;
    let rest = expr(alloc, dialect, room - 1, pieces, rest)?;
    let rest = mark(rest, Mark::Comma)?;
    let rest = expr(alloc, dialect, room - 1, pieces, rest)?;
    let rest = mark(rest, Mark::Comma)?;
    let rest = expr(alloc, dialect, room - 1, pieces, rest)?;
    let rest = mark(rest, Mark::RightParen)?;
    push(pieces, Piece::Mux)?;
    Ok(rest)
}

/// Puts a slice that stands in front behind the pieces of its value, or nothing where none stands there; and what follows it.
fn slice<'t, 'a>(
    alloc: Global,
    dialect: Dialect,
    room: usize,
    pieces: &mut Vec<Piece<'a>>,
    tokens: &'t [Placed<'a>],
) -> Result<&'t [Placed<'a>], ReadFault>
    requires { exprs_of pieces.old.items ≡ top (exprs_of pieces.old.items) ∷ below (exprs_of pieces.old.items) }
    ensures reads { Gives (λ rest. (top (exprs_of pieces.new.items), placed rest.now)) result
        (list.slice_at dialect room (top (exprs_of pieces.old.items)) (placed tokens.now)) }
    ensures behind { OnOk result (exprs_of pieces.new.items ≡ top (exprs_of pieces.new.items) ∷ below (exprs_of pieces.old.items)) }
{
    if !begins_mark(tokens, Mark::LeftBracket) {
        return Ok(tokens);
    }
    let ((high, low), rest) = bounds(alloc, dialect, room, tokens)?;
    push(pieces, Piece::Slice(high, low))?;
    Ok(rest)
}

/// The bounds of a slice, whatever it is of, and what follows them.
pub(crate) fn bounds<'t, 'a>(
    alloc: Global,
    dialect: Dialect,
    room: usize,
    tokens: &'t [Placed<'a>],
) -> Result<((Box<Int>, Box<Int>), &'t [Placed<'a>]), ReadFault>
    ensures { Gives (with_rest bounds_of) result (list.range_at dialect room (placed tokens.now)) }
{
    let rest = open(tokens, Mark::LeftBracket, room)?;
    let (high, rest) = closed(int(alloc, dialect, room - 1, rest)?, Mark::Colon)?;
    let high = boxed_int(alloc, high)?;
    let (low, rest) = closed(int(alloc, dialect, room - 1, rest)?, Mark::RightBracket)?;
    let low = boxed_int(alloc, low)?;
    Ok(((high, low), rest))
}

/// The pieces of the expression in front, and what follows it. `room` brackets may still be opened.
///
/// The list takes its room once, for as many pieces as so many tokens can be.
///
/// # Errors
///
/// `At` with how many tokens are left from the first on that no expression goes on with, and `NoMemory`.
pub fn pieces_of<'t, 'a>(
    alloc: Global,
    dialect: Dialect,
    room: usize,
    tokens: &'t [Placed<'a>],
) -> Result<(Vec<Piece<'a>>, &'t [Placed<'a>]), ReadFault>
    ensures reads { Gives (λ read. (top (exprs_of read.0.items), placed read.1.now)) result (list.expr_at dialect room (placed tokens.now)) }
    ensures one { IfOk result (λ read. exprs_of read.0.items ≡ top (exprs_of read.0.items) ∷ []) }
{
    let mut pieces = Vec::with_capacity(alloc, tokens.len() / 2 + 1)?;
    let rest = expr(alloc, dialect, room, &mut pieces, tokens)?;
    Ok((pieces, rest))
}
