//! Why a file is refused. The order of the causes is defined in `specs/Refused.antt`.

ghost use Rattle.std.specs.Prelude.{◌≡◌};
ghost use Rattle.vcd_trace.specs.declared.fault.BindFault.TheVariants.{NoMemory};

use std::alloc::{AllocError, AllocFailed};
use text_core::Text;

/// Why a value change dump file does not trace a table in one of its scopes: the first of these causes, in this order; of
/// variables the clock goes first, and then the nodes go by number.
#[derive(Drop)]
pub enum BindFault {
    /// No scope of the file has this path.
    NoScope,
    /// The scope has no variable of this name whose values are bits.
    MissingSignal { name: Text },
    /// The first variable of this name there has `have` bits, where `want` are needed.
    SizeDiffers { name: Text, have: u32, want: u32 },
    /// Memory ran out.
    NoMemory,
}

impl From<AllocError> for BindFault {
    ghost from_gives = { λ _ e. e ≡ NoMemory };

    fn from(_: AllocError) -> Self {
        BindFault::NoMemory
    }
}

impl<T: Drop> From<AllocFailed<T>> for BindFault {
    ghost from_gives = { λ _ e. e ≡ NoMemory };

    fn from(_: AllocFailed<T>) -> Self {
        BindFault::NoMemory
    }
}

impl From<text_core::NoMemory> for BindFault {
    ghost from_gives = { λ _ e. e ≡ NoMemory };

    fn from(_: text_core::NoMemory) -> Self {
        BindFault::NoMemory
    }
}
