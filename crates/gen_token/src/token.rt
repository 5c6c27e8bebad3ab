//! Tokens, which borrow their names from the text, and where each stands. A number too large for the language is no token, so that no later reader meets
//! one.

use crate::{Keyword, Mark};

/// A token. Its text and its numbers are what a source says; nothing of where it stands.
#[derive(Clone, Copy)]
pub enum Token<'a> {
    /// A letter, then letters, digits and `_`, and no keyword.
    Name(&'a [u8]),
    /// A number, from 0 to 2^62.
    Number(u64),
    /// A value, from 0 to 2^128 - 1, and how wide it is said to be, from 0 to 2^62. The value may not fit the width.
    Literal { width: u64, value: u128 },
    /// A word that is no name.
    Keyword(Keyword),
    /// A sign between names and numbers.
    Mark(Mark),
}

/// A token, and the line that it stands on; lines count from 1.
#[derive(Clone, Copy)]
pub struct Placed<'a> {
    pub line: u32,
    pub token: Token<'a>,
}
