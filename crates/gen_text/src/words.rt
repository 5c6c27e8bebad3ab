//! Single tokens in front of others. A bracket that is opened takes of the room for brackets, by which no text recurs deeper than 64.

ghost use Rattle.std.specs.Prelude.{◌≡◌, ◌<◌, IfOk};
ghost use Rattle.gen_token.specs.Words.{placed, word_of};
ghost use Rattle.gen_text.specs.Faults.{Gives, with_rest};
ghost use Rattle.gen_text.specs.Forms.{is_mark, is_keyword};
ghost use Rattle.gen_text.specs.Reading.{mark_at, keyword_at, open_at, name_at, begins, begins_arm};

use crate::fault::ReadFault;
use gen_token::{Keyword, Mark, Placed, Token};

/// Whether a token is this mark.
pub(crate) fn is_mark(token: Token<'_>, mark: Mark) -> bool
    ensures { result ≡ is_mark mark (word_of token.entry) }
{
    match token {
        Token::Mark(found) => found == mark,
        _ => false,
    }
}

/// Whether a token is this keyword.
pub(crate) fn is_keyword(token: Token<'_>, keyword: Keyword) -> bool
    ensures { result ≡ is_keyword keyword (word_of token.entry) }
{
    match token {
        Token::Keyword(found) => found == keyword,
        _ => false,
    }
}

/// Whether this mark stands in front.
pub(crate) fn begins_mark(tokens: &[Placed<'_>], mark: Mark) -> bool
    ensures { result ≡ begins (is_mark mark) (placed tokens.now) }
{
    match tokens {
        [first, ..] => is_mark(first.token, mark),
        [] => false,
    }
}

/// What follows this mark.
pub(crate) fn mark<'t, 'a>(
    tokens: &'t [Placed<'a>],
    mark: Mark,
) -> Result<&'t [Placed<'a>], ReadFault>
    ensures { Gives (λ rest. placed rest.now) result (mark_at mark (placed tokens.now)) }
{
    match tokens {
        [first, rest @ ..] => {
            if is_mark(first.token, mark) {
                return Ok(rest);
            }
            Err(ReadFault::At { left: tokens.len() })
        }
        [] => Err(ReadFault::At { left: 0 }),
    }
}

/// What was read, where this mark stands behind it, and what follows the mark. What is read goes through here, so that a
/// reader has nothing to let go where the mark is not there.
pub(crate) fn closed<'t, 'a, T: Drop>(
    read: (T, &'t [Placed<'a>]),
    by: Mark,
) -> Result<(T, &'t [Placed<'a>]), ReadFault>
    ensures exact { Gives (λ found. placed found.1.now) result (mark_at by (placed read.entry.1.now)) }
    ensures same { IfOk result (λ found. found.0 ≡ read.entry.0) }
{
    let (found, tokens) = read;
    let rest = mark(tokens, by)?;
    Ok((found, rest))
}

/// What follows this keyword.
pub(crate) fn keyword<'t, 'a>(
    tokens: &'t [Placed<'a>],
    keyword: Keyword,
) -> Result<&'t [Placed<'a>], ReadFault>
    ensures { Gives (λ rest. placed rest.now) result (keyword_at keyword (placed tokens.now)) }
{
    match tokens {
        [first, rest @ ..] => {
            if is_keyword(first.token, keyword) {
                return Ok(rest);
            }
            Err(ReadFault::At { left: tokens.len() })
        }
        [] => Err(ReadFault::At { left: 0 }),
    }
}

/// What follows this opening bracket, for which there is to be room.
pub(crate) fn open<'t, 'a>(
    tokens: &'t [Placed<'a>],
    bracket: Mark,
    room: usize,
) -> Result<&'t [Placed<'a>], ReadFault>
    ensures exact { Gives (λ rest. placed rest.now) result (open_at bracket room (placed tokens.now)) }
    ensures room { IfOk result (λ rest. 0 < room) }
{
    if room == 0 {
        return Err(ReadFault::At { left: tokens.len() });
    }
    mark(tokens, bracket)
}

/// The bytes of the name in front, and what follows it.
pub(crate) fn name<'t, 'a>(
    tokens: &'t [Placed<'a>],
) -> Result<(&'a [u8], &'t [Placed<'a>]), ReadFault>
    ensures { Gives (with_rest (λ name. name.now)) result (name_at (placed tokens.now)) }
{
    match tokens {
        [first, rest @ ..] => match first.token {
            Token::Name(name) => Ok((name, rest)),
            _ => Err(ReadFault::At { left: tokens.len() }),
        },
        [] => Err(ReadFault::At { left: 0 }),
    }
}

/// Whether this keyword stands in front.
pub(crate) fn begins_keyword(tokens: &[Placed<'_>], keyword: Keyword) -> bool
    ensures { result ≡ begins (is_keyword keyword) (placed tokens.now) }
{
    match tokens {
        [first, ..] => is_keyword(first.token, keyword),
        [] => false,
    }
}

/// Whether a literal of a source stands in front.
pub(crate) fn begins_lit(tokens: &[Placed<'_>]) -> bool
    ensures { result ≡ begins_arm (placed tokens.now) }
{
    match tokens {
        [first, ..] => match first.token {
            Token::Literal { .. } => true,
            Token::Keyword(Keyword::Bits) => true,
            _ => false,
        },
        [] => false,
    }
}
