//! Why a dump file is refused: the first fault in the text, and where.

ghost use Rattle.std.specs.Prelude.{◌≡◌};
ghost use Rattle.vcd_read.specs.declared.fault.VcdFault.TheVariants.{NoMemory};

use std::alloc::{AllocError, AllocFailed};
use thiserror::Error;

/// Why a value change dump file is refused. Offsets count the bytes of the text from 0. But for `TooLong`, it is the
/// first fault in the text.
#[derive(Clone, Copy, Debug, PartialEq, Eq, Error)]
pub enum VcdFault {
    /// The text has more than 64 MiB.
    #[error("the file is too long")]
    TooLong,
    /// The word at this offset is not what may stand in its place.
    #[error("the word at offset {offset} may not stand there")]
    BadWord { offset: u64 },
    /// The text ends within a command, within a comment, or before the code of a value.
    #[error("the file ends too early")]
    CutShort,
    /// The code at this offset was not declared.
    #[error("the code at offset {offset} was not declared")]
    UnknownCode { offset: u64 },
    /// The value whose word stands at this offset has more digits than its code's variables have bits.
    #[error("the value at offset {offset} has {digits} digits, where {size} are the most")]
    TooWide { offset: u64, digits: u64, size: u32 },
    /// The time that is set by the word at this offset is before the one that was set last.
    #[error("the time at offset {offset} goes back from {old} to {new}")]
    TimeBack { offset: u64, old: u64, new: u64 },
    /// The text ends before `$enddefinitions`.
    #[error("the file has no end of its definitions")]
    NoEndDefinitions,
    /// Memory ran out.
    #[error("out of memory")]
    NoMemory,
}

impl From<AllocError> for VcdFault {
    ghost from_gives = { λ _ e. e ≡ NoMemory };

    fn from(_: AllocError) -> Self {
        VcdFault::NoMemory
    }
}

impl<T: Drop> From<AllocFailed<T>> for VcdFault {
    ghost from_gives = { λ _ e. e ≡ NoMemory };

    fn from(_: AllocFailed<T>) -> Self {
        VcdFault::NoMemory
    }
}

impl From<text_core::NoMemory> for VcdFault {
    ghost from_gives = { λ _ e. e ≡ NoMemory };

    fn from(_: text_core::NoMemory) -> Self {
        VcdFault::NoMemory
    }
}
