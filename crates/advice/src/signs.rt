//! What a line has that no source has, and what is written in its place: hints for a line with no token or with one that cannot stand there.
//!
//! They are found by their looks alone, so a line may have one of them and be at fault for another reason.

use crate::pieces::Pieces;

/// A text that no source has outside of comments, and what stands in its place.
const MARKS: [(&str, &str); 7] = [
    ("&&", "there is no '&&': write (a & b)"),
    ("||", "there is no '||': write (a | b)"),
    (
        "else if",
        "there is no 'else if': write else { if .. { .. } }",
    ),
    (" > ", "there is no '>': exchange the sides and write <"),
    (">=", "there is no '>=': exchange the sides and write <="),
    ("!(", "there is no '!': write ~(a)"),
    ("?", "there is no '?': write mux(condition, a, b)"),
];

/// Words behind which a name is declared.
const DECLARING: [&[u8]; 8] = [
    b"module", b"input", b"output", b"wire", b"reg", b"inst", b"let", b"for",
];

/// Keywords that somebody may want as a name.
const KEYWORDS: [&[u8]; 14] = [
    b"in", b"clk", b"all", b"any", b"case", b"default", b"import", b"gen", b"bits", b"cat", b"mux",
    b"parity", b"ff", b"reg",
];

/// The hints on a line: each of them once, in order.
#[derive(Clone, Copy)]
pub struct Signs {
    /// A mark that no source has.
    pub mark: Option<&'static str>,
    /// A keyword stands where a name is declared.
    pub keyword: bool,
    /// A slice has one bound.
    pub one_bound: bool,
}

/// A line without its comment.
fn without_comment(line: &str) -> &str {
    match line.split_once("//") {
        Some((front, _)) => front,
        None => line,
    }
}

/// The hint on the first mark that a line has.
fn mark_in(line: &str) -> Option<&'static str> {
    for (mark, hint) in MARKS {
        if line.contains(mark) {
            return Some(hint);
        }
    }
    None
}

/// Whether a word is one of these.
fn is_one_of(word: &[u8], words: &[&[u8]]) -> bool {
    for it in words {
        if *it == word {
            return true;
        }
    }
    false
}

/// Whether a keyword stands behind a word that declares a name.
fn names_keyword(line: &[u8]) -> bool {
    let mut pieces = Pieces::new(line);
    let mut declares = false;
    for _ in 0..u64::MAX {
        let Some(piece) = pieces.take() else {
            return false;
        };
        if !piece.word.is_empty() {
            if declares && is_one_of(piece.word, &KEYWORDS) {
                return true;
            }
            declares = is_one_of(piece.word, &DECLARING);
        }
    }
    false
}

/// Whether some `[` is followed by a `]` with no `:` between them.
fn has_one_bound(line: &[u8]) -> bool {
    let mut open = false;
    for byte in line {
        match *byte {
            b'[' => open = true,
            b':' => open = false,
            b']' if open => return true,
            _ => {}
        }
    }
    false
}

/// The hints on a line of a source.
pub fn signs_of(line: &str) -> Signs {
    let line = without_comment(line);
    Signs {
        mark: mark_in(line),
        keyword: names_keyword(line.as_bytes()),
        one_bound: has_one_bound(line.as_bytes()),
    }
}
