//! Why a watch is not armed.

ghost use Rattle.std.specs.Prelude.{◌≡◌};
ghost use Rattle.site_core.specs.declared.fault.SiteFault.TheVariants.{NoMemory};
ghost use Rattle.watch.specs.declared.fault.WatchFault.TheVariants.{Site};

use site_core::SiteFault;
use std::alloc::{AllocError, AllocFailed};

/// Why a watch is not armed.
#[derive(Drop)]
pub enum WatchFault {
    /// Nothing is found to wait for, or memory ran out.
    Site(SiteFault),
    /// So many watches are armed already, or the last number was given.
    TooManyWatches { limit: u64 },
}

impl From<SiteFault> for WatchFault {
    ghost from_gives = { λ fault e. e ≡ Site fault };

    fn from(fault: SiteFault) -> Self {
        WatchFault::Site(fault)
    }
}

impl From<AllocError> for WatchFault {
    ghost from_gives = { λ _ e. e ≡ Site NoMemory };

    fn from(_: AllocError) -> Self {
        WatchFault::Site(SiteFault::NoMemory)
    }
}

impl<T: Drop> From<AllocFailed<T>> for WatchFault {
    ghost from_gives = { λ _ e. e ≡ Site NoMemory };

    fn from(_: AllocFailed<T>) -> Self {
        WatchFault::Site(SiteFault::NoMemory)
    }
}
