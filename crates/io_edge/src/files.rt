//! What the program may expect of files. The meanings are optional: an adapter of the system tells none, and then no clause speaks of content.

ghost use Rattle.std.specs.Prelude.{◌≡◌, ◌≤◌, List, ℕ, Option, IfOk, IfSome, IsErrOf, length};
ghost use Rattle.std.specs.Option.{option_map};
ghost use Rattle.io_edge.specs.Faults.{Rose};
ghost use Rattle.io_edge.specs.Files.{Reads, asked_after};

use std::alloc::{AllocError, AllocFailed, Global};

/// Why the bytes of a file were not answered.
#[derive(Clone, Copy, PartialEq, Eq)]
pub enum FileEnd {
    /// The file is missing or was not read; the count of faults rose.
    Failed,
    /// The file has more bytes than the call would take.
    TooLong,
    /// Memory ran out.
    NoMemory,
}

impl From<AllocError> for FileEnd {
    ghost use Rattle.std.specs.Prelude.{◌≡◌};
    ghost use Rattle.io_edge.specs.declared.files.FileEnd.TheVariants.{NoMemory};

    ghost from_gives = { λ _ end. end ≡ NoMemory };

    fn from(_: AllocError) -> Self {
        FileEnd::NoMemory
    }
}

impl<T: Drop> From<AllocFailed<T>> for FileEnd {
    ghost use Rattle.std.specs.Prelude.{◌≡◌};
    ghost use Rattle.io_edge.specs.declared.files.FileEnd.TheVariants.{NoMemory};

    ghost from_gives = { λ _ end. end ≡ NoMemory };

    fn from(_: AllocFailed<T>) -> Self {
        FileEnd::NoMemory
    }
}

/// Files that are read by their names.
pub trait Files {
    /// The bytes of each file by its name, where the object tells them. No call changes them.
    ghost told: { Self → Option (List ℕ → Option (List ℕ)) };

    /// The names that were asked for, in order, where the object tells them.
    ghost asked: { Self → Option (List (List ℕ)) };

    /// How many reads have failed, from 0 to 2^64 - 1.
    ghost fault_count: { Self → ℕ };

    /// The count of faults. It never falls, and stays at 2^64 - 1.
    fn faults(&self) -> u64
        ensures { result ≡ fault_count self.now };

    /// The bytes of a file, if there are no more than `most`. A missing file is a fault. Each call that does not answer
    /// `NoMemory` adds its name to those asked for.
    fn read_all(&mut self, alloc: Global, name: &str, most: usize) -> Result<Vec<u8>, FileEnd>
        ensures bytes { IfSome (told self.old) (λ files. Reads files name.now most result) }
        ensures within { IfOk result (λ bytes. length bytes.items ≤ most) }
        ensures same { told self.new ≡ told self.old }
        ensures asked { asked self.new ≡ option_map (asked_after name.now result) (asked self.old) }
        ensures later { fault_count self.old ≤ fault_count self.new }
        ensures failed { IsErrOf result FileEnd.Failed → Rose (fault_count self.old) (fault_count self.new) };
}
