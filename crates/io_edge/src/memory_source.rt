//! Input in memory, cut into pieces by whoever makes it, so that what reads it can be tried on every cutting.

ghost use Rattle.std.specs.Prelude.{◌≡◌, ◌≤◌, [], ◌++◌, true, Some, All, IfOk, OnErr, IsErrOf, length};
ghost use Rattle.io_edge.specs.Faults.{Rose};
ghost use Rattle.io_edge.specs.MemorySource.{IsPiece, after_more, bytes_of, left_in, next_more_fails, next_piece, other_pieces};

use crate::{Source, SourceEnd};
use std::alloc::Global;
use std::marker::Model;
use text_core::NoMemory;

/// Input in memory, which tells all of its meanings. A call fails where its number is one of those that the input is made to fail in, and in
/// no other case; it then takes nothing, and the count of faults rises by one.
#[derive(Drop)]
pub struct MemSource {
    pieces: Vec<Vec<u8>>,
    taken: usize,
    failing: Vec<u64>,
    calls: u64,
    faults: u64,
}

impl Model for MemSource {
    ghost use Rattle.std.specs.Prelude.{All, drop};
    ghost use Rattle.io_edge.specs.MemorySource.{IsPiece, SourceInMemory, bytes_of};

    ghost Value = { SourceInMemory };

    ghost view = { λ s. record {
      pieces = bytes_of (drop s.taken s.pieces.items);
      failing = s.failing.items;
      calls = s.calls;
      faults = s.faults;
    } };

    ghost invariant = { λ s. All IsPiece (bytes_of (drop s.taken s.pieces.items)) };
}

impl MemSource {
    /// These pieces, one after the other. The calls of `more` whose number, from 0, is in `failing` fail; a number stays at 2^64 - 1, and a call
    /// that finds no memory has none.
    pub fn new(pieces: Vec<Vec<u8>>, failing: Vec<u64>) -> Result<MemSource, NoMemory>
        requires pieces { All IsPiece (bytes_of pieces.items) }
        ensures { IfOk result (λ made. made ≡ record { pieces = bytes_of pieces.items; failing = failing.items; calls = 0; faults = 0 }) }
    {
        Ok(MemSource {
            pieces,
            taken: 0,
            failing,
            calls: 0,
            faults: 0,
        })
    }

    /// Whether the next call is one of those that fail.
    fn next_fails(&self) -> bool
        ensures { result ≡ next_more_fails self.now }
    {
        self.failing.contains(&self.calls)
    }

    /// Takes the piece that comes next; nothing at the end.
    fn take(&mut self, alloc: Global) -> Result<Vec<u8>, NoMemory>
        ensures piece { IfOk result (λ piece. piece.items ≡ next_piece self.old.pieces) }
        ensures after { IfOk result (λ piece. self.new ≡ record self.old { pieces = other_pieces self.old.pieces }) }
        ensures kept { OnErr result (self.new ≡ self.old) }
    {
        if self.taken >= self.pieces.len() {
            return Ok(Vec::new(alloc));
        }
        let piece = self.pieces[self.taken].to_vec(alloc)?;
        self.taken += 1;
        Ok(piece)
    }
}

impl Source for MemSource {
    ghost left = { λ s. Some (left_in s.pieces) };

    ghost fault_count = { λ s. s.faults };

    fn faults(&self) -> u64 {
        self.faults
    }

    fn more(&mut self, alloc: Global) -> Result<Vec<u8>, SourceEnd>
        // What the input is before the call decides the answer, and the answer what the call leaves.
        ensures piece { IfOk result (λ piece. piece.items ≡ next_piece self.old.pieces) }
        ensures cause { IsErrOf result SourceEnd.Failed → next_more_fails self.old ≡ true }
        ensures fault { next_more_fails self.old ≡ true → IsErrOf result SourceEnd.Failed }
        ensures after { self.new ≡ after_more result self.old }

        // What holds of all input.
        ensures next { IfOk result (λ piece. left_in self.old.pieces ≡ piece.items ++ left_in self.new.pieces) }
        ensures within { IfOk result (λ piece. length piece.items ≤ 65536) }
        ensures end { IfOk result (λ piece. piece.items ≡ [] → left_in self.new.pieces ≡ []) }
        ensures kept { OnErr result (left_in self.new.pieces ≡ left_in self.old.pieces) }
        ensures later { self.old.faults ≤ self.new.faults }
        ensures failed { IsErrOf result SourceEnd.Failed → Rose self.old.faults self.new.faults }
    {
        if self.next_fails() {
            self.calls = self.calls.saturating_add(1);
            self.faults = self.faults.saturating_add(1);
            return Err(SourceEnd::Failed);
        }
        let piece = self.take(alloc)?;
        self.calls = self.calls.saturating_add(1);
        Ok(piece)
    }
}
