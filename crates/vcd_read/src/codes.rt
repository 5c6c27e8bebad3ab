//! The codes of a dump file, found by a hash of their bytes. A code belongs to as many variables as share it, so its size is kept with it.

ghost use Rattle.std.specs.Prelude.{◌≡◌, ◌≢◌, ◌<◌, ◌++◌, ◌∷◌, ℕ, List, [], length, get_or, slice_get, Some, None, IfOk, IfSome, IfNone};
ghost use Rattle.std.specs.List.{list_all};
ghost use Rattle.vcd_read.specs.Buckets.{hash_of, bucket_of, sizes_of, IsSought};
ghost use Rattle.vcd_read.specs.Head.{is_code_byte, known, with_code};
ghost use Rattle.vcd_read.specs.Results.{Gives};
ghost use Rattle.vcd_read.specs.Seen.{word_of};

use crate::VcdFault;
use crate::texts::{Texts, place_of};
use crate::words::Word;
use std::alloc::Global;
use std::marker::Model;
use text_core::NoMemory;

/// A code but for its bytes: the size of its variables, and the code before it in its bucket, by its number and one
/// more; 0 where there is none.
#[derive(Clone, Copy)]
pub(crate) struct CodeRow {
    size: u32,
    next: u32,
}

/// The codes that are declared, found by a hash of their bytes, and the size of the variables of each. Contracts see
/// them in the order of their numbers.
#[derive(Drop)]
pub(crate) struct Codes {
    /// For each bucket its last code, by its number and one more; 0 where there is none.
    heads: Vec<u32>,
    texts: Texts,
    rows: Vec<CodeRow>,
}

impl Model for Codes {
    ghost use Rattle.std.specs.Prelude.{List};
    ghost use Rattle.vcd_read.specs.Buckets.{codes_of, sizes_of, AreCodes};
    ghost use Rattle.vcd_read.specs.Head.{Code};

    ghost Value = { List Code };

    ghost view = { λ c. codes_of c.texts (sizes_of c.rows.items) };

    ghost invariant = { λ c. AreCodes c.heads.items c.texts c.rows.items };
}

/// Whether a byte is a printable character.
fn is_code_byte(byte: u8) -> bool
    ensures { result ≡ is_code_byte byte }
{
    matches!(byte, 33..=126)
}

/// Whether bytes may be a code.
fn are_code_bytes(bytes: &[u8]) -> bool
    ensures { result ≡ list_all is_code_byte bytes.now }
{
    bytes.iter().all(|byte| is_code_byte(*byte))
}

/// Mixes bytes into one number.
#[tactic(auto, unfolding(crate::specs::Buckets::hash_of))]
fn hash_of(bytes: &[u8]) -> u64
    ensures { result ≡ hash_of bytes.now }
{
    bytes.iter().fold(14695981039346656037, |hash: u64, byte| {
        (hash ^ u64::from(*byte)).wrapping_mul(1099511628211)
    })
}

/// The bucket, of so many, in which a code stands.
fn bucket_of(count: usize, code: &[u8]) -> usize
    requires { 0 < count }
    ensures bucket { result ≡ bucket_of count code.now }
    ensures within { result < count }
{
    (hash_of(code) % count as u64) as usize
}

/// The row of a place.
fn row_at(rows: &[CodeRow], i: usize) -> CodeRow
    requires { i < length rows.now }
    ensures { slice_get rows.now i ≡ Some result }
{
    rows[i]
}

/// Finds a code from the last of its bucket on: its number and its size.
fn find_from(texts: &Texts, rows: &[CodeRow], last: u32, code: &[u8]) -> Option<(u32, u32)>
    requires { IsSought texts.now rows.now code.now last }
    ensures found { IfSome result (λ found. (found.0 < length texts.now) × (get_or texts.now found.0 [] ≡ code.now)
        × (found.1 ≡ get_or (sizes_of rows.now) found.0 0)) }
    ensures none { IfNone result ((n : ℕ) → n < length texts.now → get_or texts.now n [] ≢ code.now) }
{
    let mut last = last;
    while last > 0 {
        let number = last - 1;
        let row = row_at(rows, number as usize);
        if texts.text(number as usize) == code {
            return Some((number, row.size));
        }
        last = row.next;
    }
    None
}

impl Codes {
    /// No codes, with room for all that a text of so many bytes can declare: each takes 18 bytes of it at least. There is
    /// a bucket for each 64 bytes, so that the buckets of a text of changes take little.
    pub(crate) fn new(alloc: Global, bytes: usize) -> Result<Codes, NoMemory>
        ensures { IfOk result (λ codes. codes ≡ []) }
    {
        let count = bytes / 18 + 1;
        Ok(Codes {
            heads: vec![in alloc; 0; bytes / 64 + 1]?,
            texts: Texts::new(alloc, bytes, count)?,
            rows: Vec::with_capacity(alloc, count)?,
        })
    }

    /// The number and the size of a code; none where it was not declared.
    pub(crate) fn find(&self, code: &[u8]) -> Option<(u32, u32)>
        ensures { result ≡ known code.now self.now }
    {
        let heads: &[u32] = &self.heads;
        let last = heads[bucket_of(heads.len(), code)];
        find_from(&self.texts, &self.rows, last, code)
    }

    /// Puts a code last, with its size.
    fn push(&mut self, code: &[u8], size: u32) -> Result<u32, NoMemory>
        requires { known code.now self.old ≡ None }
        ensures { IfOk result (λ number. (number ≡ length self.old) × (self.new ≡ self.old ++ (code.now, size) ∷ [])) }
    {
        let number = self.rows.len();
        let last = place_of(number + 1)?;
        let heads: &[u32] = &self.heads;
        let bucket = bucket_of(heads.len(), code);
        let next = heads[bucket];
        self.rows.push(CodeRow { size, next })?;
        if self.texts.push(code).is_err() {
            self.rows.truncate(number);
            return Err(NoMemory);
        }
        self.heads[bucket] = last;
        Ok(number as u32)
    }

    /// The number of a code that is declared with this size: of a new one, or of one that has this size already.
    pub(crate) fn declare(&mut self, word: &Word<'_>, size: u32) -> Result<u32, VcdFault>
        ensures { Gives (λ number. (number, self.new)) result (with_code size (word_of word.now) self.old) }
    {
        if !are_code_bytes(word.bytes) {
            return Err(word.bad());
        }
        let Some((number, have)) = self.find(word.bytes) else {
            return Ok(self.push(word.bytes, size)?);
        };
        if have != size {
            return Err(word.bad());
        }
        Ok(number)
    }
}
