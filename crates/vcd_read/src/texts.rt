//! Many short texts in one buffer. A dump file has as many names and digits as lines, and a growth for each would cost more than reading it.

ghost use Rattle.std.specs.Prelude.{◌≡◌, ◌≤◌, ◌<◌, ◌++◌, ◌∷◌, [], length, slice_get, slice_range, Some, get_or, IfOk, OnOk, OnErr};

use std::alloc::Global;
use std::marker::Model;
use text_core::NoMemory;

/// A place in a column. Refused where 32 bits do not hold it, since a text of 64 MiB fills no column so far.
pub(crate) fn place_of(place: usize) -> Result<u32, NoMemory>
    ensures { IfOk result (λ found. found ≡ place) }
{
    u32::try_from(place).map_err(|_| NoMemory)
}

/// A part of some bytes.
pub(crate) fn part_of(bytes: &[u8], start: usize, end: usize) -> &[u8]
    requires order { start ≤ end }
    requires within { end ≤ length bytes.now }
    ensures { result.now ≡ slice_range bytes.now start end }
{
    &bytes[start..end]
}

/// Where a text begins, by the ends of all.
fn start_of(ends: &[u32], i: usize) -> usize
    requires { i < length ends.now }
    ensures { result ≡ get_or (0 ∷ ends.now) i 0 }
{
    if i == 0 {
        return 0;
    }
    ends[i - 1] as usize
}

/// Where a text ends.
fn end_of(ends: &[u32], i: usize) -> usize
    requires { i < length ends.now }
    ensures { result ≡ get_or ends.now i 0 }
{
    ends[i] as usize
}

/// A list of texts, one behind the other in one buffer, by the place where each ends. Contracts see the texts.
#[derive(Drop)]
pub(crate) struct Texts {
    letters: Vec<u8>,
    ends: Vec<u32>,
}

impl Model for Texts {
    ghost use Rattle.std.specs.Prelude.{List, ℕ, length};
    ghost use Rattle.vcd_read.specs.Texts.{texts_of, AreEnds};

    ghost Value = { List (List ℕ) };

    ghost view = { λ t. texts_of t.letters.items 0 t.ends.items };

    ghost invariant = { λ t. AreEnds (length t.letters.items) 0 t.ends.items };
}

impl Texts {
    /// No texts, with room for so many of so many bytes in all.
    pub(crate) fn new(alloc: Global, bytes: usize, count: usize) -> Result<Texts, NoMemory>
        ensures { IfOk result (λ texts. texts ≡ []) }
    {
        Ok(Texts {
            letters: Vec::with_capacity(alloc, bytes)?,
            ends: Vec::with_capacity(alloc, count)?,
        })
    }

    /// How many texts there are.
    pub(crate) fn len(&self) -> usize
        ensures { result ≡ length self.now }
    {
        self.ends.len()
    }

    /// A text, by its place.
    pub(crate) fn text(&self, i: usize) -> &[u8]
        requires { i < length self.now }
        ensures { slice_get self.now i ≡ Some result.now }
    {
        let start = start_of(&self.ends, i);
        let end = end_of(&self.ends, i);
        part_of(&self.letters, start, end)
    }

    /// Puts a text last.
    pub(crate) fn push(&mut self, text: &[u8]) -> Result<(), NoMemory>
        ensures ok { OnOk result (self.new ≡ self.old ++ text.now ∷ []) }
        ensures err { OnErr result (self.new ≡ self.old) }
    {
        let before = self.letters.len();
        let end = place_of(before + text.len())?;
        self.letters.extend_from_slice(text)?;
        if self.ends.push(end).is_err() {
            self.letters.truncate(before);
            return Err(NoMemory);
        }
        Ok(())
    }
}
