//! A text as tokens. Each is as long as it can be; blanks and comments separate them.

ghost use Rattle.std.specs.Prelude.{◌≡◌, ◌≤◌, ◌<◌, ◌+◌, ◌^◌, false, Some, IfOk, IfErr, IfSome, length};
ghost use Rattle.gen_token.specs.Tokens.{word_or, name_at, mark_at, token_at, skip, AreTokensIn, IsCause};
ghost use Rattle.gen_token.specs.Words.{word_of, placed, found_as};
ghost use Rattle.gen_token.specs.Bytes.{is_name_byte};
ghost use Rattle.gen_token.specs.Keywords.{keyword_of};
ghost use Rattle.std.specs.List.{prefix_len};

use crate::bytes::{is_blank, is_letter, name_len};
use crate::keyword::keyword_of;
use crate::mark::mark_of;
use crate::number::number_at;
use crate::{Placed, Token, TokenFault};
use places::place;
use std::alloc::Global;
use text_core::is_digit;

/// The tokens of the text of a file, which has less than 2^30 bytes, with their places: the lines of file 0 count from 1.
/// Blanks and comments only separate tokens.
///
/// # Errors
///
/// `BadToken` with the place of the first line on which somewhere no token begins, and `NoMemory`.
pub fn tokens_of(alloc: Global, file: u32, text: &[u8]) -> Result<Vec<Placed<'_>>, TokenFault>
    requires file { file < 64 }
    requires fits { length text.now < 2 ^ 30 }
    ensures found { IfOk result (λ tokens. AreTokensIn file text.now (placed tokens.items)) }
    ensures refused { IfErr result (IsCause file text.now) }
{
    let mut tokens = Vec::new(alloc);
    let (mut line, mut rest) = skip(text, place(file, 1));
    while !rest.is_empty() {
        let Some((token, after)) = token_at(rest) else {
            return Err(TokenFault::BadToken { line });
        };
        tokens.push(Placed { line, token })?;
        (line, rest) = skip(after, line);
    }
    Ok(tokens)
}

/// The token in front of a text, as long as it can be, and what follows it; None where no token begins. Blanks and comments are
/// no tokens: `skip` goes over them. Takes no memory.
#[tactic(auto, unfolding(crate::specs::Tokens::token_at))]
pub fn token_at(text: &[u8]) -> Option<(Token<'_>, &[u8])>
    ensures token { found_as result ≡ token_at text.now }
    ensures shorter { IfSome result (λ found. length found.1.now < length text.now) }
{
    let [byte, ..] = text else {
        return None;
    };
    if is_letter(*byte) {
        return Some(name_at(text));
    }
    if is_digit(*byte) {
        return number_at(text);
    }
    mark_at(text)
}

/// A name or a keyword in front of a text, and what follows it.
#[tactic(auto, unfolding(crate::specs::Tokens::name_at))]
fn name_at(text: &[u8]) -> (Token<'_>, &[u8])
    ensures token { (word_of result.0, result.1.now) ≡ name_at text.now }
    ensures rest { length result.1.now + prefix_len is_name_byte text.now ≡ length text.now }
{
    let (word, rest) = text.split_at(name_len(text));
    (word_token(word), rest)
}

/// The keyword that a word is; else a name.
fn word_token(word: &[u8]) -> Token<'_>
    ensures { word_of result ≡ word_or (keyword_of word.now) word.now }
{
    match keyword_of(word) {
        Some(keyword) => Token::Keyword(keyword),
        None => Token::Name(word),
    }
}

/// The longest mark in front of a text, and what follows it.
#[tactic(auto, unfolding(crate::specs::Tokens::mark_at))]
fn mark_at(text: &[u8]) -> Option<(Token<'_>, &[u8])>
    ensures token { found_as result ≡ mark_at text.now }
    ensures shorter { IfSome result (λ found. length found.1.now < length text.now) }
{
    let mark = mark_of(text)?;
    Some((Token::Mark(mark), &text[mark.text().len()..]))
}

/// The line and the text behind blanks and comments, of a text that begins on this line. Takes no memory.
#[tactic(auto, unfolding(crate::specs::Tokens::skip))]
pub fn skip(text: &[u8], line: u32) -> (u32, &[u8])
    requires { line + length text.now < 2 ^ 32 }
    ensures skipped { (result.0, result.1.now) ≡ skip false line text.now }
    ensures shorter { length result.1.now ≤ length text.now }
    ensures lines { result.0 + length result.1.now ≤ line + length text.now }
{
    let mut rest = text;
    let mut line = line;
    let mut comment = false;
    while let [byte, after @ ..] = rest {
        if *byte == b'\n' {
            line += 1;
            comment = false;
        } else if !comment && !is_blank(*byte) {
            if !matches!(rest, [b'/', b'/', ..]) {
                break;
            }
            comment = true;
        }
        rest = after;
    }
    (line, rest)
}
