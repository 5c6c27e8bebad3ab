//! Why a breakpoint is not armed.

ghost use Rattle.std.specs.Prelude.{◌≡◌};
ghost use Rattle.site_core.specs.declared.fault.SiteFault.TheVariants.{NoMemory};
ghost use Rattle.slot_sched.specs.declared.fault.ArmFault.TheVariants.{Site};

use site_core::SiteFault;
use std::alloc::{AllocError, AllocFailed};

/// Why a breakpoint is not armed.
#[derive(Drop)]
pub enum ArmFault {
    /// Nothing is found to wait for, or memory ran out.
    Site(SiteFault),
    /// So many breakpoints are armed already, or so many numbers were given.
    TooMany { limit: u64 },
}

impl From<SiteFault> for ArmFault {
    ghost from_gives = { λ fault e. e ≡ Site fault };

    fn from(fault: SiteFault) -> Self {
        ArmFault::Site(fault)
    }
}

impl From<AllocError> for ArmFault {
    ghost from_gives = { λ _ e. e ≡ Site NoMemory };

    fn from(_: AllocError) -> Self {
        ArmFault::Site(SiteFault::NoMemory)
    }
}

impl<T: Drop> From<AllocFailed<T>> for ArmFault {
    ghost from_gives = { λ _ e. e ≡ Site NoMemory };

    fn from(_: AllocFailed<T>) -> Self {
        ArmFault::Site(SiteFault::NoMemory)
    }
}
