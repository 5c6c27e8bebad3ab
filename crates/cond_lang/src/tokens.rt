//! Tokens with their offsets. The tokens of a source have lines alone; here each also has what of the text lies before it.

ghost use Rattle.std.specs.Prelude.{◌<◌, ◌^◌, IfOk, length};
ghost use Rattle.gen_token.specs.Words.{placed};
ghost use Rattle.cond_lang.specs.Reading.{AreTaken};

use gen_token::{Placed, skip, token_at};
use std::alloc::Global;
use text_core::NoMemory;

/// The tokens of a text up to its end, or up to the first place where none begins, with their offsets in bytes from 0.
#[derive(Drop)]
pub(crate) struct Tokens<'a> {
    pub(crate) tokens: Vec<Placed<'a>>,
    pub(crate) offsets: Vec<u32>,
    /// The offset of that end or place.
    pub(crate) end: u32,
    /// Whether it is the text's end.
    pub(crate) is_whole: bool,
}

/// The tokens of a text. An offset is what of the text no longer lies before a token.
pub(crate) fn tokens_at(alloc: Global, text: &[u8]) -> Result<Tokens<'_>, NoMemory>
    requires { length text.now < 2 ^ 30 }
    ensures { IfOk result (λ found. AreTaken text.now (placed found.tokens.items) found.offsets.items found.end found.is_whole) }
{
    let mut tokens = Vec::with_capacity(alloc, text.len())?;
    let mut offsets = Vec::with_capacity(alloc, text.len())?;
    let (mut line, mut rest) = skip(text, 1);
    while let Some((token, after)) = token_at(rest) {
        tokens.push(Placed { line, token })?;
        offsets.push((text.len() - rest.len()) as u32)?;
        (line, rest) = skip(after, line);
    }
    Ok(Tokens {
        tokens,
        offsets,
        end: (text.len() - rest.len()) as u32,
        is_whole: rest.is_empty(),
    })
}
