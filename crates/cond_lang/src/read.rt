//! How a text is read as a condition, by the reader of sources in its dialect for conditions. Of all the places at which a text stops being
//! one the least is told, so the tokens before a bad one are read too.

ghost use Rattle.std.specs.Prelude.{◌≡◌, ◌<◌, ◌≤◌, ◌^◌, [], ◌∷◌, IfOk, IfErr, length};
ghost use Rattle.gen_token.specs.Words.{placed};
ghost use Rattle.gen_tree.specs.Tree.{Expr};
ghost use Rattle.gen_text.specs.Pieces.{exprs_of, top};
ghost use Rattle.gen_text.specs.Faults.{Gives};
ghost use Rattle.cond_lang.specs.Faults.{IsCause, IsFormCause, or_other};
ghost use Rattle.cond_lang.specs.declared.fault.CondFault.TheVariants as cond_faults;
ghost use Rattle.cond_lang.specs.Reader.{cond_at, whole_expr};
ghost use Rattle.cond_lang.specs.Reading.{Reads, ReadsForm, offset_of};
ghost use Rattle.cond_lang.specs.TextShown.{text_expr, text_offsets};

use crate::fault::CondFault;
use crate::text::{CondText, cond_text};
use crate::tokens::{Tokens, tokens_at};
use gen_text::{Piece, ReadFault, pieces_of};
use gen_token::{Placed, first_other_byte};
use gen_tree::Dialect;
use std::alloc::Global;

/// Texts of so many bytes or more are not looked at: 2^30.
const TEXT_MAX: usize = 1 << 30;

/// How many brackets may be open at once.
const ROOM: usize = 64;

/// That nothing stands behind an expression.
fn whole(rest: &[Placed<'_>]) -> Result<(), ReadFault>
    ensures { (e : Expr) → Gives (λ _. e) result (whole_expr (e, placed rest.now)) }
{
    if rest.is_empty() {
        return Ok(());
    }
    Err(ReadFault::At { left: rest.len() })
}

/// The pieces of the condition that tokens are, or how many tokens are left from the bad one on.
fn read_tokens<'a>(alloc: Global, tokens: &[Placed<'a>]) -> Result<Vec<Piece<'a>>, ReadFault>
    ensures reads { Gives (λ pieces. top (exprs_of pieces.items)) result (cond_at 64 (placed tokens.now)) }
    ensures one { IfOk result (λ pieces. exprs_of pieces.items ≡ top (exprs_of pieces.items) ∷ []) }
{
    let (pieces, rest) = pieces_of(alloc, Dialect::Condition, ROOM, tokens)?;
    whole(rest)?;
    Ok(pieces)
}

/// The offset of the token that stands so many tokens before the end, or of the end.
fn offset_at(found: &Tokens<'_>, left: usize) -> u32
    requires { left ≤ length found.now.offsets.items }
    ensures { result ≡ offset_of found.now.offsets.items found.now.end left }
{
    if left == 0 {
        return found.end;
    }
    let at = found.offsets.len() - left;
    found.offsets[at]
}

/// That a text is no condition from this offset on.
fn fault_at(offset: u32) -> CondFault
    ensures { result ≡ cond_faults.At offset }
{
    CondFault::At {
        offset: u64::from(offset),
    }
}

/// The pieces of the expression that the tokens of a text are, with the tokens' offsets.
///
/// # Errors
///
/// `At` with the least of the places that the tokens have, and `NoMemory`.
fn read_form<'a>(alloc: Global, text: &'a [u8]) -> Result<(Vec<Piece<'a>>, Vec<u32>), CondFault>
    requires { length text.now < 2 ^ 30 }
    ensures found { IfOk result (λ read. ReadsForm text.now (top (exprs_of read.0.items)) read.1.items) }
    ensures one { IfOk result (λ read. exprs_of read.0.items ≡ top (exprs_of read.0.items) ∷ []) }
    ensures refused { IfErr result (IsFormCause text.now) }
{
    let found = tokens_at(alloc, text)?;
    match read_tokens(alloc, &found.tokens) {
        Err(ReadFault::NoMemory) => Err(CondFault::NoMemory),
        Err(ReadFault::At { left }) => Err(fault_at(offset_at(&found, left))),
        Ok(pieces) => {
            if !found.is_whole {
                drop(pieces);
                return Err(fault_at(found.end));
            }
            Ok((pieces, found.offsets))
        }
    }
}

/// The fault, or the earlier place of a byte that no source holds.
fn or_other(fault: CondFault, other: Option<usize>) -> CondFault
    ensures { result ≡ or_other fault other }
{
    match (fault, other) {
        (CondFault::At { offset }, Some(other)) => CondFault::At {
            offset: offset.min(other as u64),
        },
        _ => fault,
    }
}

/// The condition that a text is.
///
/// # Errors
///
/// `At` with the offset of the least place at which it stops being one, and `NoMemory`; a text of 2^30 bytes or more is
/// answered so, without being looked at.
pub fn read_cond(alloc: Global, text: &[u8]) -> Result<CondText, CondFault>
    ensures found { IfOk result (λ read. Reads text.now (text_expr read) (text_offsets read)) }
    ensures refused { IfErr result (IsCause text.now) }
{
    if text.len() >= TEXT_MAX {
        return Err(CondFault::NoMemory);
    }
    let other = first_other_byte(text);
    match read_form(alloc, text) {
        Err(fault) => Err(or_other(fault, other)),
        Ok((pieces, offsets)) => match other {
            Some(offset) => {
                drop(pieces);
                Err(CondFault::At {
                    offset: offset as u64,
                })
            }
            None => Ok(cond_text(alloc, text, &pieces, offsets)?),
        },
    }
}
