//! Why the files of a design are not its sources.

ghost use Rattle.std.specs.Prelude.{◌≡◌};
ghost use Rattle.project_read.specs.declared.end.ProjectEnd.TheVariants.{NoMemory};
ghost use Rattle.project_read.specs.Ends.{end_of};

use gen_text::TextFault;
use io_edge::ReadEnd;
use std::alloc::{AllocError, AllocFailed};
use text_core::Text as Name;

/// Why no sources were answered.
#[derive(Drop)]
pub enum ProjectEnd {
    /// The text of the file of this number is no source.
    Text { file: u32, fault: TextFault },
    /// There are 64 files, which is the limit, and an import, at this place, names another one.
    TooManyFiles { line: u32, name: Name, limit: u64 },
    /// A file was not read; the files' count of faults rose.
    ReadFault,
    /// Memory ran out.
    NoMemory,
}

impl From<ReadEnd> for ProjectEnd {
    ghost from_gives = { λ end e. e ≡ end_of end };

    fn from(end: ReadEnd) -> Self {
        match end {
            ReadEnd::Failed => ProjectEnd::ReadFault,
            ReadEnd::NoMemory => ProjectEnd::NoMemory,
        }
    }
}

impl From<text_core::NoMemory> for ProjectEnd {
    ghost from_gives = { λ _ e. e ≡ NoMemory };

    fn from(_: text_core::NoMemory) -> Self {
        ProjectEnd::NoMemory
    }
}

impl From<AllocError> for ProjectEnd {
    ghost from_gives = { λ _ e. e ≡ NoMemory };

    fn from(_: AllocError) -> Self {
        ProjectEnd::NoMemory
    }
}

impl<T: Drop> From<AllocFailed<T>> for ProjectEnd {
    ghost from_gives = { λ _ e. e ≡ NoMemory };

    fn from(_: AllocFailed<T>) -> Self {
        ProjectEnd::NoMemory
    }
}
