//! A source in pieces, without its comments: the letters, digits and `_` that stand together, and the byte behind them.

/// A piece of a source.
#[derive(Clone, Copy)]
pub struct Piece<'a> {
    /// The letters, digits and `_`; often none.
    pub word: &'a [u8],
    /// The byte behind them, a line end at the end of the source.
    pub behind: u8,
    /// The line of the word, from 1.
    pub line: u64,
}

/// What is left of a source.
#[derive(Drop)]
pub struct Pieces<'a> {
    rest: &'a [u8],
    line: u64,
}

/// Whether a byte stands in names and numbers.
fn is_name_byte(byte: u8) -> bool {
    byte.is_ascii_alphanumeric() || byte == b'_'
}

/// A text from the first byte 10 on, or nothing of it.
fn from_line_end(text: &[u8]) -> &[u8] {
    let place = text.iter().position(|byte| *byte == b'\n');
    place.and_then(|place| text.get(place..)).unwrap_or(&[])
}

impl<'a> Pieces<'a> {
    /// All pieces of a source.
    pub fn new(source: &'a [u8]) -> Pieces<'a> {
        Pieces {
            rest: source,
            line: 1,
        }
    }

    /// The next piece, or none at the end. A comment is passed over.
    pub fn take(&mut self) -> Option<Piece<'a>> {
        if self.rest.is_empty() {
            return None;
        }
        let len = self.rest.iter().position(|byte| !is_name_byte(*byte));
        let (word, rest) = self.rest.split_at_checked(len.unwrap_or(self.rest.len()))?;
        let rest = if rest.starts_with(b"//") {
            from_line_end(rest)
        } else {
            rest
        };
        let line = self.line;
        let behind = rest.first().copied().unwrap_or(b'\n');
        if behind == b'\n' {
            self.line = self.line.saturating_add(1);
        }
        self.rest = rest.get(1..).unwrap_or(&[]);
        Some(Piece { word, behind, line })
    }
}
