//! The marks between names and numbers. The longest one in front is taken: `<=` is never `<` and `=`.

ghost use Rattle.std.specs.Prelude.{◌≡◌, ◌≤◌, IfSome, length};
ghost use Rattle.gen_token.specs.Marks.{mark_text, mark_of};

/// A sign between names and numbers.
#[derive(Clone, Copy, PartialEq, Eq)]
pub enum Mark {
    LeftBrace,
    RightBrace,
    LeftParen,
    RightParen,
    LeftBracket,
    RightBracket,
    Semicolon,
    Colon,
    Comma,
    Dot,
    DotDot,
    Equals,
    EqualsEquals,
    NotEquals,
    Less,
    LessEquals,
    LessLess,
    GreaterGreater,
    Plus,
    Minus,
    Star,
    Ampersand,
    Bar,
    Caret,
    Tilde,
    Hash,
}

impl Mark {
    /// How a source spells it.
    pub fn text(self) -> &'static str
        ensures text { result.now ≡ mark_text self }
        ensures some { 1 ≤ length result.now }
    {
        match self {
            Mark::LeftBrace => "{",
            Mark::RightBrace => "}",
            Mark::LeftParen => "(",
            Mark::RightParen => ")",
            Mark::LeftBracket => "[",
            Mark::RightBracket => "]",
            Mark::Semicolon => ";",
            Mark::Colon => ":",
            Mark::Comma => ",",
            Mark::Dot => ".",
            Mark::DotDot => "..",
            Mark::Equals => "=",
            Mark::EqualsEquals => "==",
            Mark::NotEquals => "!=",
            Mark::Less => "<",
            Mark::LessEquals => "<=",
            Mark::LessLess => "<<",
            Mark::GreaterGreater => ">>",
            Mark::Plus => "+",
            Mark::Minus => "-",
            Mark::Star => "*",
            Mark::Ampersand => "&",
            Mark::Bar => "|",
            Mark::Caret => "^",
            Mark::Tilde => "~",
            Mark::Hash => "#",
        }
    }
}

/// The longest mark in front of a text: of two bytes where both are there, else of one.
pub(crate) fn mark_of(text: &[u8]) -> Option<Mark>
    ensures mark { result ≡ mark_of text.now }
    ensures within { IfSome result (λ mark. length (mark_text mark) ≤ length text.now) }
{
    match text {
        [b'.', b'.', ..] => Some(Mark::DotDot),
        [b'.', ..] => Some(Mark::Dot),
        [b'=', b'=', ..] => Some(Mark::EqualsEquals),
        [b'=', ..] => Some(Mark::Equals),
        [b'!', b'=', ..] => Some(Mark::NotEquals),
        [b'<', b'=', ..] => Some(Mark::LessEquals),
        [b'<', b'<', ..] => Some(Mark::LessLess),
        [b'<', ..] => Some(Mark::Less),
        [b'>', b'>', ..] => Some(Mark::GreaterGreater),
        [b'{', ..] => Some(Mark::LeftBrace),
        [b'}', ..] => Some(Mark::RightBrace),
        [b'(', ..] => Some(Mark::LeftParen),
        [b')', ..] => Some(Mark::RightParen),
        [b'[', ..] => Some(Mark::LeftBracket),
        [b']', ..] => Some(Mark::RightBracket),
        [b';', ..] => Some(Mark::Semicolon),
        [b':', ..] => Some(Mark::Colon),
        [b',', ..] => Some(Mark::Comma),
        [b'+', ..] => Some(Mark::Plus),
        [b'-', ..] => Some(Mark::Minus),
        [b'*', ..] => Some(Mark::Star),
        [b'&', ..] => Some(Mark::Ampersand),
        [b'|', ..] => Some(Mark::Bar),
        [b'^', ..] => Some(Mark::Caret),
        [b'~', ..] => Some(Mark::Tilde),
        [b'#', ..] => Some(Mark::Hash),
        _ => None,
    }
}
