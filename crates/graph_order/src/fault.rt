//! Why a graph has no order. The cycle begins at its least vertex, so that what is told does not depend on where a search began.

ghost use Rattle.std.specs.Prelude.{◌≡◌};
ghost use Rattle.graph_order.specs.declared.fault.GraphFault.TheVariants.{NoMemory};

use std::alloc::{AllocError, AllocFailed};

/// Why a graph has no order.
#[derive(Drop)]
pub enum GraphFault {
    /// Different vertices, each with an edge to the next and the last to the first, which is the least of them.
    Cycle(Vec<u32>),
    /// Memory ran out.
    NoMemory,
}

impl From<AllocError> for GraphFault {
    ghost from_gives = { λ _ e. e ≡ NoMemory };

    fn from(_: AllocError) -> GraphFault {
        GraphFault::NoMemory
    }
}

impl<T: Drop> From<AllocFailed<T>> for GraphFault {
    ghost from_gives = { λ _ e. e ≡ NoMemory };

    fn from(_: AllocFailed<T>) -> GraphFault {
        GraphFault::NoMemory
    }
}
