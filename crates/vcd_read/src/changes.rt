//! The changes of a dump file, in columns. A change is 12 bytes and its digits, and its time is kept once for all changes of a time.

ghost use Rattle.std.specs.Prelude.{◌≡◌, ◌<◌, ◌++◌, ◌∷◌, [], length, ◌≤◌, slice_get, slice_range, Some, OnOk, IfOk};
ghost use Rattle.std.specs.Option.{option_map};
ghost use Rattle.vcd_read.specs.Changes.{no_story, timed, changed};
ghost use Rattle.vcd_read.specs.Columns.{start_at};
ghost use Rattle.vcd_read.specs.Results.{Gives};
ghost use Rattle.vcd_read.specs.Seen.{word_of};

use crate::VcdFault;
use crate::codes::Codes;
use crate::numbers::time_of;
use crate::texts::{part_of, place_of};
use crate::words::Word;
use std::alloc::Global;
use std::marker::Model;
use text_core::NoMemory;

/// A change, in places of the columns: its time, its code, and the end of its digits, which begin where those of the
/// change before end.
#[derive(Clone, Copy)]
struct Row {
    step: u32,
    code: u32,
    end: u32,
}

/// The changes so far, and the time now. Contracts see the changes as a list.
#[derive(Drop)]
pub(crate) struct Changes {
    time: u64,
    times: Vec<u64>,
    digits: Vec<u8>,
    rows: Vec<Row>,
}

impl Model for Changes {
    ghost use Rattle.vcd_read.specs.Changes.{Story};
    ghost use Rattle.vcd_read.specs.Columns.{changes_of, AreColumns};

    ghost Value = { Story };

    ghost view = { λ c. record { time = c.time; changes = changes_of c.times.items c.digits.items 0 c.rows.items } };

    ghost invariant = { λ c. AreColumns c.time c.times.items c.digits.items c.rows.items };
}

/// The row of a place.
fn row_at(rows: &[Row], i: usize) -> Row
    requires { i < length rows.now }
    ensures { slice_get rows.now i ≡ Some result }
{
    rows[i]
}

/// Where the digits of a row begin.
fn start_of(rows: &[Row], i: usize) -> usize
    requires { i < length rows.now }
    ensures { result ≡ start_at 0 rows.now i }
{
    if i == 0 {
        return 0;
    }
    let before = row_at(rows, i - 1);
    before.end as usize
}

impl Changes {
    /// No changes at time 0, with room for all changes that a text of so many bytes can have: each takes three bytes
    /// of it at least, but for the last, and its digits stand in it.
    pub(crate) fn new(alloc: Global, bytes: usize) -> Result<Changes, NoMemory>
        ensures { IfOk result (λ changes. changes ≡ no_story) }
    {
        let mut times = Vec::new(alloc);
        times.push(0)?;
        Ok(Changes {
            time: 0,
            times,
            digits: Vec::with_capacity(alloc, bytes)?,
            rows: Vec::with_capacity(alloc, bytes / 3 + 1)?,
        })
    }

    /// How many changes there are.
    pub(crate) fn len(&self) -> usize
        ensures { result ≡ length self.now.changes }
    {
        self.rows.len()
    }

    /// Puts a change of a code last, at the time now.
    fn push(&mut self, code: u32, digits: &[u8]) -> Result<(), NoMemory>
        ensures { OnOk result (self.new ≡ record self.old {
          changes = self.old.changes ++ record
              { time = self.old.time; code = code; digits = digits.now } ∷ [];
        }) }
    {
        let before = self.digits.len();
        let step = place_of(self.times.len() - 1)?;
        let end = place_of(before + digits.len())?;
        self.digits.extend_from_slice(digits)?;
        if self.rows.push(Row { step, code, end }).is_err() {
            self.digits.truncate(before);
            return Err(NoMemory);
        }
        Ok(())
    }

    /// Makes a later time the time now.
    fn push_time(&mut self, time: u64) -> Result<(), NoMemory>
        ensures { OnOk result (self.new ≡ record self.old { time = time }) }
    {
        self.times.push(time)?;
        self.time = time;
        Ok(())
    }

    /// Sets the time, by a word of these digits.
    pub(crate) fn set_time(&mut self, word: &Word<'_>, digits: &[u8]) -> Result<(), VcdFault>
        ensures { Gives (λ _. self.new) result (timed self.old (word_of word.now) digits.now) }
    {
        let Some(new) = time_of(digits) else {
            return Err(word.bad());
        };
        let old = self.time;
        if new < old {
            let offset = word.at;
            return Err(VcdFault::TimeBack { offset, old, new });
        }
        if new == old {
            return Ok(());
        }
        self.push_time(new)?;
        Ok(())
    }

    /// Adds a change, of which the value's word stands at the first offset and the code at the second.
    pub(crate) fn change(
        &mut self,
        codes: &Codes,
        at: u64,
        digits: &[u8],
        code_at: u64,
        code: &[u8],
    ) -> Result<(), VcdFault>
        ensures { Gives (λ _. self.new) result (changed codes.now self.old at digits.now code_at code.now) }
    {
        let Some((number, size)) = codes.find(code) else {
            return Err(VcdFault::UnknownCode { offset: code_at });
        };
        if digits.len() > size as usize {
            return Err(VcdFault::TooWide {
                offset: at,
                digits: digits.len() as u64,
                size,
            });
        }
        self.push(number, digits)?;
        Ok(())
    }

    /// The time of a change.
    pub(crate) fn time(&self, i: usize) -> u64
        requires { i < length self.now.changes }
        ensures { option_map (λ change. change.time) (slice_get self.now.changes i) ≡ Some result }
    {
        let row = row_at(&self.rows, i);
        let times: &[u64] = &self.times;
        times[row.step as usize]
    }

    /// The number of the code of a change.
    pub(crate) fn code(&self, i: usize) -> u32
        requires { i < length self.now.changes }
        ensures { option_map (λ change. change.code) (slice_get self.now.changes i) ≡ Some result }
    {
        let row = row_at(&self.rows, i);
        row.code
    }

    /// The digits of a change.
    pub(crate) fn digits(&self, i: usize) -> &[u8]
        requires { i < length self.now.changes }
        ensures { option_map (λ change. change.digits) (slice_get self.now.changes i) ≡ Some result.now }
    {
        let row = row_at(&self.rows, i);
        let start = start_of(&self.rows, i);
        part_of(&self.digits, start, row.end as usize)
    }
}
