//! Why a text is no condition, and why a condition is none at a place.

ghost use Rattle.std.specs.Prelude.{◌≡◌};
ghost use Rattle.cond_lang.specs.declared.fault.CondFault.TheVariants as cond_faults;
ghost use Rattle.cond_lang.specs.declared.fault.BindEnd.TheVariants as bind_ends;

use std::alloc::{AllocError, AllocFailed};
use text_core::{NoMemory, Text};

/// Why a text is not read as a condition.
#[derive(Clone, Copy, PartialEq, Eq)]
pub enum CondFault {
    /// It is no condition. This is the offset in bytes, from 0, of the least of these places that there are: a byte that no source
    /// holds; the first place where no token begins, where a wrong number or literal counts from its first digit; the first token
    /// with which no condition goes on, however many brackets are open; the 65th bracket that is open at once; and the text's
    /// length, where its tokens only begin a condition.
    At { offset: u64 },
    /// Want of memory, and a text of 2^30 bytes or more, which is not looked at.
    NoMemory,
}

impl From<NoMemory> for CondFault {
    ghost from_gives = { λ _ e. e ≡ cond_faults.NoMemory };

    fn from(_: NoMemory) -> Self {
        CondFault::NoMemory
    }
}

impl From<AllocError> for CondFault {
    ghost from_gives = { λ _ e. e ≡ cond_faults.NoMemory };

    fn from(_: AllocError) -> Self {
        CondFault::NoMemory
    }
}

/// Why a condition is not bound at a place.
#[derive(Drop)]
pub enum BindEnd {
    /// The first name in the text that has no value there is not in scope.
    Unknown { name: Text },
    /// That name's value was not kept.
    Removed { name: Text },
    /// Some path to the place does not assign that name.
    Unset { name: Text },
    /// All names have values, and the widths do not fit. This is the offset in bytes, from 0, of the first token of the first part
    /// that does not fit, operands from left to right before their operator.
    Width { offset: u64 },
    /// Want of memory.
    NoMemory,
}

impl From<NoMemory> for BindEnd {
    ghost from_gives = { λ _ e. e ≡ bind_ends.NoMemory };

    fn from(_: NoMemory) -> Self {
        BindEnd::NoMemory
    }
}

impl From<AllocError> for BindEnd {
    ghost from_gives = { λ _ e. e ≡ bind_ends.NoMemory };

    fn from(_: AllocError) -> Self {
        BindEnd::NoMemory
    }
}

impl<T: Drop> From<AllocFailed<T>> for BindEnd {
    ghost from_gives = { λ _ e. e ≡ bind_ends.NoMemory };

    fn from(_: AllocFailed<T>) -> Self {
        BindEnd::NoMemory
    }
}
