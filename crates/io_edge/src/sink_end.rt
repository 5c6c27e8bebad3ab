//! Why a text was not written to its end.

ghost use Rattle.std.specs.Prelude.{◌≡◌};
ghost use Rattle.io_edge.specs.declared.sink_end.SinkEnd.TheVariants.{Failed as the_failed, NoMemory as the_no_memory};

use crate::Failed;
use std::alloc::{AllocError, AllocFailed};

/// Why a text was not written to its end.
#[derive(Clone, Copy, PartialEq, Eq)]
pub enum SinkEnd {
    /// The sink failed; its count of faults rose.
    Failed,
    /// Memory ran out.
    NoMemory,
}

impl From<Failed> for SinkEnd {
    ghost from_gives = { λ _ e. e ≡ the_failed };

    fn from(_: Failed) -> Self {
        SinkEnd::Failed
    }
}

impl From<text_core::NoMemory> for SinkEnd {
    ghost from_gives = { λ _ e. e ≡ the_no_memory };

    fn from(_: text_core::NoMemory) -> Self {
        SinkEnd::NoMemory
    }
}

impl From<AllocError> for SinkEnd {
    ghost from_gives = { λ _ e. e ≡ the_no_memory };

    fn from(_: AllocError) -> Self {
        SinkEnd::NoMemory
    }
}

impl<T: Drop> From<AllocFailed<T>> for SinkEnd {
    ghost from_gives = { λ _ e. e ≡ the_no_memory };

    fn from(_: AllocFailed<T>) -> Self {
        SinkEnd::NoMemory
    }
}
