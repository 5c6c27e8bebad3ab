//! Input that comes piece by piece: who takes it learns nothing of when a piece comes, only that the pieces in order are the input.

ghost use Rattle.std.specs.Prelude.{◌≡◌, ◌≤◌, [], List, ℕ, Option, IfOk, OnErr, IsErrOf, length};
ghost use Rattle.std.specs.Io.KnownBytes.{Consumes, IsAtEnd, Keeps};
ghost use Rattle.io_edge.specs.Faults.{Rose};
ghost use Rattle.io_edge.specs.declared.source.SourceEnd.TheVariants.{NoMemory};

use std::alloc::{AllocError, AllocFailed, Global};

/// Why no bytes were answered.
#[derive(Clone, Copy, PartialEq, Eq)]
pub enum SourceEnd {
    /// The input was not read; the count of faults rose.
    Failed,
    /// Memory ran out.
    NoMemory,
}

impl From<AllocError> for SourceEnd {
    ghost from_gives = { λ _ end. end ≡ NoMemory };

    fn from(_: AllocError) -> Self {
        SourceEnd::NoMemory
    }
}

impl From<text_core::NoMemory> for SourceEnd {
    ghost from_gives = { λ _ end. end ≡ NoMemory };

    fn from(_: text_core::NoMemory) -> Self {
        SourceEnd::NoMemory
    }
}

impl<T: Drop> From<AllocFailed<T>> for SourceEnd {
    ghost from_gives = { λ _ end. end ≡ NoMemory };

    fn from(_: AllocFailed<T>) -> Self {
        SourceEnd::NoMemory
    }
}

/// The most bytes that a piece of the input has: 64 KiB.
pub const MOST_PIECE: usize = 64 * 1024;

/// Input that is taken from its front.
pub trait Source {
    /// The bytes that are left, where the object tells them.
    ghost left: { Self → Option (List ℕ) };

    /// How many calls have failed, from 0 to 2^64 - 1.
    ghost fault_count: { Self → ℕ };

    /// The count of faults. It never falls, and stays at 2^64 - 1.
    fn faults(&self) -> u64
        ensures { result ≡ fault_count self.now };

    /// The next bytes: 1 to 65,536 of them, or none at the end of the input and nowhere else. It may wait until some are there.
    ///
    /// Errors: `Failed`, where the count of faults rose, and `NoMemory`. An error takes nothing.
    fn more(&mut self, alloc: Global) -> Result<Vec<u8>, SourceEnd>
        ensures next { IfOk result (λ piece. Consumes (left self.old) (left self.new) piece.items) }
        ensures within { IfOk result (λ piece. length piece.items ≤ 65536) }
        ensures end { IfOk result (λ piece. piece.items ≡ [] → IsAtEnd (left self.new)) }
        ensures kept { OnErr result (Keeps (left self.old) (left self.new)) }
        ensures later { fault_count self.old ≤ fault_count self.new }
        ensures failed { IsErrOf result SourceEnd.Failed → Rose (fault_count self.old) (fault_count self.new) };
}
