//! Why a design has no order: a loop of signals, or want of memory.

ghost use Rattle.std.specs.Prelude.{◌≡◌};
ghost use Rattle.dep_order.specs.declared.answer.OrderFault.TheVariants.{NoMemory as OutOfMemory};

use std::alloc::{AllocError, AllocFailed};
use text_core::NoMemory;

/// Why a design has no order.
#[derive(Drop)]
pub enum OrderFault {
    /// Different signals, each depending on the next and the last on the first, beginning with the one that stands first in
    /// the design; each as the number of its instance and its place among the signals of the instance.
    CombLoop { cycle: Vec<(u32, u32)> },
    /// Memory ran out.
    NoMemory,
}

impl From<NoMemory> for OrderFault {
    ghost from_gives = { λ _ e. e ≡ OutOfMemory };

    fn from(_: NoMemory) -> OrderFault {
        OrderFault::NoMemory
    }
}

impl From<AllocError> for OrderFault {
    ghost from_gives = { λ _ e. e ≡ OutOfMemory };

    fn from(_: AllocError) -> OrderFault {
        OrderFault::NoMemory
    }
}

impl<T: Drop> From<AllocFailed<T>> for OrderFault {
    ghost from_gives = { λ _ e. e ≡ OutOfMemory };

    fn from(_: AllocFailed<T>) -> OrderFault {
        OrderFault::NoMemory
    }
}
