//! Why a test cannot go on. A test ends with what it prints of an error, and the libraries' errors are not made to be printed.

use std::alloc::{AllocError, AllocFailed};
use stim_text::StimFault;
use text_core::NoMemory;

/// What a test needs is not there.
#[derive(Clone, Copy, Debug)]
pub(crate) struct Missing;

impl From<NoMemory> for Missing {
    fn from(_: NoMemory) -> Self {
        Missing
    }
}

impl From<AllocError> for Missing {
    fn from(_: AllocError) -> Self {
        Missing
    }
}

impl<T: Drop> From<AllocFailed<T>> for Missing {
    fn from(_: AllocFailed<T>) -> Self {
        Missing
    }
}

impl From<StimFault> for Missing {
    fn from(_: StimFault) -> Self {
        Missing
    }
}
