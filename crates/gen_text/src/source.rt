//! A source from its bytes: the order of the refusals of a text is decided here.

ghost use Rattle.std.specs.Prelude.{◌≡◌, ◌≤◌, ◌<◌, ◌-◌, ◌^◌, IfOk, IfErr, length, drop};
ghost use Rattle.gen_token.specs.Words.{placed};
ghost use Rattle.gen_tree.specs.Places.{line_of};
ghost use Rattle.gen_tree.specs.View.{source_of};
ghost use Rattle.gen_text.specs.Source.{IsSourceText, Reads, IsCause, IsRead, IsReadCause, end_line};

use crate::TextFault;
use crate::fault::ReadFault;
use crate::imports::source;
use gen_token::{Placed, first_other_byte, tokens_of};
use gen_tree::Source;
use places::place;
use std::alloc::Global;

/// The most bytes that a source has: 1 MiB.
const SOURCE_MAX: usize = 1_048_576;

/// The source that the text of a file is. Its parts have their places in that file.
///
/// # Errors
///
/// `TooLong`, `NotAscii`, `BadToken` and `Syntax`, the first of these in this order that holds anywhere in the text; and
/// `NoMemory`.
pub fn read_source(alloc: Global, file: u32, text: &[u8]) -> Result<Source, TextFault>
    requires { file < 64 }
    ensures found { IfOk result (λ source. Reads file text.now (source_of source)) }
    ensures refused { IfErr result (IsCause file text.now) }
{
    if text.len() > SOURCE_MAX {
        return Err(TextFault::TooLong);
    }
    match first_other_byte(text) {
        Some(offset) => Err(TextFault::NotAscii {
            offset: offset as u64,
        }),
        None => read_text(alloc, file, text),
    }
}

/// The source that the text of a file of at most 1 MiB is, of the bytes that a source holds.
fn read_text(alloc: Global, file: u32, text: &[u8]) -> Result<Source, TextFault>
    requires file { file < 64 }
    requires is_text { IsSourceText text.now }
    ensures found { IfOk result (λ source. Reads file text.now (source_of source)) }
    ensures refused { IfErr result (IsCause file text.now) }
{
    let tokens = tokens_of(alloc, file, text)?;
    read_tokens(alloc, &tokens, end_line(file, text))
}

/// The source that tokens are; `end` is the place of the text's end.
fn read_tokens(alloc: Global, tokens: &[Placed<'_>], end: u32) -> Result<Source, TextFault>
    ensures found { IfOk result (λ source. IsRead (placed tokens.now) (source_of source)) }
    ensures refused { IfErr result (IsReadCause (placed tokens.now) end) }
{
    match source(alloc, tokens) {
        Ok(source) => Ok(source),
        Err(ReadFault::NoMemory) => Err(TextFault::NoMemory),
        Err(ReadFault::At { left }) => Err(TextFault::Syntax {
            line: line_at(tokens, left, end),
        }),
    }
}

/// The place of the token that stands so many tokens before the end, or of the end.
fn line_at(tokens: &[Placed<'_>], left: usize, end: u32) -> u32
    requires { left ≤ length tokens.now }
    ensures { result ≡ line_of end (drop (length tokens.now - left) (placed tokens.now)) }
{
    if left == 0 {
        return end;
    }
    let at = tokens.len() - left;
    tokens[at].line
}

/// The place of the end of a file's text: that of its first line, and the number of its line feeds.
fn end_line(file: u32, text: &[u8]) -> u32
    requires file { file < 64 }
    requires fits { length text.now < 2 ^ 30 }
    ensures { result ≡ end_line file text.now }
{
    let mut line = place(file, 1);
    for byte in text {
        if *byte == b'\n' {
            line += 1;
        }
    }
    line
}
