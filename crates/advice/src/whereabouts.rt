//! Where a source declares a name, found by the words alone: behind `input`, `output`, `wire` or `reg`, in the module around a line, or in that
//! of an instance by its path.

use crate::pieces::{Piece, Pieces};

/// As what a name is declared.
#[derive(Clone, Copy, PartialEq, Eq)]
pub enum Declared {
    Input,
    Output,
    Wire,
    Reg,
}

/// The words behind which a signal is declared.
const DECLARING: [(&[u8], Declared); 4] = [
    (b"input", Declared::Input),
    (b"output", Declared::Output),
    (b"wire", Declared::Wire),
    (b"reg", Declared::Reg),
];

/// The words behind which the name of a module and of a child stand.
const MODULE: &[u8] = b"module";

const INST: &[u8] = b"inst";

/// What a word declares.
fn declares(word: &[u8]) -> Option<Declared> {
    for (it, declared) in DECLARING {
        if it == word {
            return Some(declared);
        }
    }
    None
}

/// As what the module around a line declares a name, where it does. Of a module that begins in this line, behind another one, nothing is told.
pub fn declared_as(source: &[u8], line: u64, name: &str) -> Option<Declared> {
    let mut pieces = Pieces::new(source);
    let mut last: &[u8] = &[];
    let mut found = None;
    for _ in 0..u64::MAX {
        let Some(piece) = pieces.take() else {
            return found;
        };
        if !piece.word.is_empty() {
            if piece.word == MODULE && piece.line >= line {
                return if piece.line > line { found } else { None };
            }
            if piece.word == MODULE {
                found = None;
            } else if piece.word == name.as_bytes() && found.is_none() {
                found = declares(last);
            }
            last = piece.word;
        }
    }
    found
}

/// By which mark a name is assigned.
#[derive(Clone, Copy, PartialEq, Eq)]
pub enum Assigned {
    /// By `=`, as wires and outputs are.
    Equals,
    /// By `<=`, as registers are.
    Arrow,
}

/// By which mark a text assigns a name that stands at its front.
fn assigned_first(text: &str, name: &str) -> Option<Assigned> {
    let rest = text.trim_start().strip_prefix(name)?.trim_start();
    if rest.starts_with("<=") {
        Some(Assigned::Arrow)
    } else if rest.starts_with('=') && !rest.starts_with("==") {
        Some(Assigned::Equals)
    } else {
        None
    }
}

/// Whether a statement of a line assigns a name by this mark.
pub fn assigns(line: &str, name: &str, by: Assigned) -> bool {
    for text in line.split([';', '{', '}'].as_slice()) {
        if assigned_first(text, name).is_some_and(|found| found == by) {
            return true;
        }
    }
    false
}

/// What a part of a path is in a module.
enum Part<'a> {
    /// A child of this module.
    Child(&'a [u8]),
    /// A signal that is declared in this line.
    Signal(u64),
}

/// How far the search for a part has come.
#[derive(Clone, Copy, PartialEq, Eq)]
enum Search {
    /// Before the module, or in it.
    Part,
    /// Behind the name of the child; its module comes behind a colon.
    Colon,
    /// Behind the colon.
    Module,
}

/// The search for a part of a path.
#[derive(Drop)]
struct Seeker<'a> {
    module: &'a [u8],
    part: &'a [u8],
    last: &'a [u8],
    inside: bool,
    search: Search,
}

impl<'a> Seeker<'a> {
    /// Looks at a piece, and tells the part where it is found.
    fn look(&mut self, piece: Piece<'a>) -> Option<Part<'a>> {
        if !piece.word.is_empty() {
            if self.search == Search::Module {
                return Some(Part::Child(piece.word));
            }
            if self.last == MODULE {
                self.inside = piece.word == self.module;
            } else if self.inside && piece.word == self.part {
                if declares(self.last).is_some() {
                    return Some(Part::Signal(piece.line));
                }
                if self.last == INST {
                    self.search = Search::Colon;
                }
            }
            self.last = piece.word;
        }
        if self.search == Search::Colon && piece.behind == b':' {
            self.search = Search::Module;
        }
        None
    }
}

/// A part of a path in the module of this name.
fn part_of<'a>(source: &'a [u8], module: &'a [u8], part: &'a [u8]) -> Option<Part<'a>> {
    let mut pieces = Pieces::new(source);
    let mut seeker = Seeker {
        module,
        part,
        last: &[],
        inside: false,
        search: Search::Part,
    };
    for _ in 0..u64::MAX {
        if let Some(found) = seeker.look(pieces.take()?) {
            return Some(found);
        }
    }
    None
}

/// A part of a path without the number of a member of a family.
fn family_of(part: &str) -> &[u8] {
    match part.split_once('#') {
        Some((family, _)) => family.as_bytes(),
        None => part.as_bytes(),
    }
}

/// The line in which the signal of a path is declared: the top's module, children, and the signal, joined by dots.
pub fn declared_line<'a>(source: &'a [u8], path: &'a str) -> Option<u64> {
    let mut module: Option<&'a [u8]> = None;
    for part in path.split('.') {
        match module {
            None => module = Some(part.as_bytes()),
            Some(name) => match part_of(source, name, family_of(part))? {
                Part::Child(child) => module = Some(child),
                Part::Signal(line) => return Some(line),
            },
        }
    }
    None
}
