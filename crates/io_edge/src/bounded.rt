//! Reads a file up to a bound, and has the bounds of all files that are read: who judges a file need not know how a read ends.

ghost use Rattle.std.specs.Prelude.{◌≡◌, ◌≤◌, [], ◌∷◌, IfOk, IfSome, OnOk, IsErrOf, length};
ghost use Rattle.io_edge.specs.Faults.{Rose};
ghost use Rattle.io_edge.specs.Files.{Finds};
ghost use Rattle.io_edge.specs.Taken.{Appends, AppendsFront};
ghost use Rattle.io_edge.specs.Unread.{StopsAt};
ghost use Rattle.io_edge.specs.declared.bounded.ReadEnd.TheVariants.{NoMemory};

use crate::{FileEnd, Files};
use std::alloc::Global;

/// A source has at most 1 MiB.
pub const MOST_SOURCE: usize = 1024 * 1024;

/// Requests have at most 16 MiB.
pub const MOST_REQUESTS: usize = 16 * 1024 * 1024;

/// A stimulus, a symbol file and a value change dump file have at most 64 MiB.
pub const MOST_BYTES: usize = 64 * 1024 * 1024;

/// Why a file was not judged.
#[derive(Clone, Copy, PartialEq, Eq)]
pub enum ReadEnd {
    /// It was not read; the files' count of faults rose.
    Failed,
    /// Memory ran out.
    NoMemory,
}

impl From<text_core::NoMemory> for ReadEnd {
    ghost from_gives = { λ _ e. e ≡ NoMemory };

    fn from(_: text_core::NoMemory) -> Self {
        ReadEnd::NoMemory
    }
}

/// The bytes of the file of this name, or None where there are more than `most`. The name is asked for once, unless memory runs out.
///
/// Errors: `Failed`, where the file was not read, and its name is the last that was asked for; and `NoMemory`.
pub fn read_file<F: Files>(
    alloc: Global,
    files: &mut F,
    name: &str,
    most: usize,
) -> Result<Option<Vec<u8>>, ReadEnd>
    ensures found { IfOk result (λ found. IfSome (F.told files.old) (λ told. Finds (told name.now) most found)) }
    ensures within { IfOk result (λ found. IfSome found (λ bytes. length bytes.items ≤ most)) }
    ensures same { F.told files.new ≡ F.told files.old }
    ensures asked { OnOk result (Appends (F.asked files.old) (F.asked files.new) (name.now ∷ [])) }
    ensures front { AppendsFront (F.asked files.old) (F.asked files.new) (name.now ∷ []) }
    ensures failed { IsErrOf result ReadEnd.Failed → Rose (F.fault_count files.old) (F.fault_count files.new) }
    ensures unread { IsErrOf result ReadEnd.Failed → StopsAt F.asked F.fault_count files.old files.new (name.now ∷ []) }
    ensures later { F.fault_count files.old ≤ F.fault_count files.new }
{
    match files.read_all(alloc, name, most) {
        Ok(bytes) => Ok(Some(bytes)),
        Err(FileEnd::TooLong) => Ok(None),
        Err(FileEnd::Failed) => Err(ReadEnd::Failed),
        Err(FileEnd::NoMemory) => Err(ReadEnd::NoMemory),
    }
}
