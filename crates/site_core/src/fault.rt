//! Why nothing is found for a line, a path and a text.

ghost use Rattle.std.specs.Prelude.{◌≡◌};
ghost use Rattle.site_core.specs.declared.fault.SiteFault.TheVariants as site_faults;

use std::alloc::{AllocError, AllocFailed};
use text_core::{NoMemory, Text};

/// Why nothing is found for a line, a path and a text: each but the last stands for the answer of a session that has its name.
#[derive(Drop)]
pub enum SiteFault {
    /// No statement is on the line.
    NoSite { line: u64 },
    /// No instance of this path, or none that has a statement on the line.
    NoInstance { instance: Text },
    /// A text that is no expression, whose widths do not fit, or that is no bit where one is wanted, from this offset on, in bytes.
    BadCondAt { offset: u64 },
    /// A name that is not in scope.
    BadCondName { name: Text },
    /// A name of which nothing was kept there.
    CondRemoved { name: Text, slot: u32 },
    /// A name that some path to the statement does not assign.
    CondUnset { name: Text, slot: u32 },
    /// Want of memory.
    NoMemory,
}

impl From<NoMemory> for SiteFault {
    ghost from_gives = { λ _ e. e ≡ site_faults.NoMemory };

    fn from(_: NoMemory) -> Self {
        SiteFault::NoMemory
    }
}

impl From<AllocError> for SiteFault {
    ghost from_gives = { λ _ e. e ≡ site_faults.NoMemory };

    fn from(_: AllocError) -> Self {
        SiteFault::NoMemory
    }
}

impl<T: Drop> From<AllocFailed<T>> for SiteFault {
    ghost from_gives = { λ _ e. e ≡ site_faults.NoMemory };

    fn from(_: AllocFailed<T>) -> Self {
        SiteFault::NoMemory
    }
}
