//! Why a text gives no tokens. Of several bad spots the first line is told, since a reader mends from the top.

ghost use Rattle.std.specs.Prelude.{◌≡◌};
ghost use Rattle.gen_token.specs.declared.fault.TokenFault.TheVariants as faults;

use std::alloc::{AllocError, AllocFailed};
use text_core::NoMemory;

/// Why a text gave no tokens.
#[derive(Clone, Copy, PartialEq, Eq)]
pub enum TokenFault {
    /// Somewhere in the text no token begins. This is the place of the first line with such a spot.
    BadToken { line: u32 },
    /// Want of memory.
    NoMemory,
}

impl From<NoMemory> for TokenFault {
    ghost from_gives = { λ _ e. e ≡ faults.NoMemory };

    fn from(_: NoMemory) -> Self {
        TokenFault::NoMemory
    }
}

impl From<AllocError> for TokenFault {
    ghost from_gives = { λ _ e. e ≡ faults.NoMemory };

    fn from(_: AllocError) -> Self {
        TokenFault::NoMemory
    }
}

impl<T: Drop> From<AllocFailed<T>> for TokenFault {
    ghost from_gives = { λ _ e. e ≡ faults.NoMemory };

    fn from(_: AllocFailed<T>) -> Self {
        TokenFault::NoMemory
    }
}
