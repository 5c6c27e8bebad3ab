//! Why a text is not read: its size, a byte, or the place of the first token with which no source goes on.

ghost use Rattle.std.specs.Prelude.{◌≡◌};
ghost use Rattle.gen_text.specs.Faults.{text_fault_of};
ghost use Rattle.gen_text.specs.declared.fault.ReadFault.TheVariants as read_faults;

use gen_token::TokenFault;
use std::alloc::{AllocError, AllocFailed};
use text_core::NoMemory;

/// Why a text is not read.
#[derive(Clone, Copy, PartialEq, Eq)]
pub enum TextFault {
    /// It has more than 1,048,576 bytes.
    TooLong,
    /// The first byte that no source holds stands at this offset, counted from 0. A source holds the bytes 9, 10, 13
    /// and 32 to 126 alone.
    NotAscii { offset: u64 },
    /// Somewhere no token begins. This is the place of the first line with such a spot.
    BadToken { line: u32 },
    /// The tokens are no source, or more than 64 brackets are open at once. This is the place of the first token with
    /// which no source goes on, of the 65th open bracket, or of the end of the text.
    Syntax { line: u32 },
    /// Want of memory.
    NoMemory,
}

/// Why tokens are not read.
#[derive(Clone, Copy, PartialEq, Eq)]
pub enum ReadFault {
    /// No form goes on with the token that stands so many tokens before the end; 0 at the end.
    At { left: usize },
    /// Want of memory.
    NoMemory,
}

impl From<NoMemory> for ReadFault {
    ghost from_gives = { λ _ e. e ≡ read_faults.NoMemory };

    fn from(_: NoMemory) -> Self {
        ReadFault::NoMemory
    }
}

impl From<AllocError> for ReadFault {
    ghost from_gives = { λ _ e. e ≡ read_faults.NoMemory };

    fn from(_: AllocError) -> Self {
        ReadFault::NoMemory
    }
}

impl<T: Drop> From<AllocFailed<T>> for ReadFault {
    ghost from_gives = { λ _ e. e ≡ read_faults.NoMemory };

    fn from(_: AllocFailed<T>) -> Self {
        ReadFault::NoMemory
    }
}

impl From<TokenFault> for TextFault {
    ghost from_gives = { λ fault e. e ≡ text_fault_of fault };

    fn from(fault: TokenFault) -> Self {
        match fault {
            TokenFault::BadToken { line } => TextFault::BadToken { line },
            TokenFault::NoMemory => TextFault::NoMemory,
        }
    }
}
