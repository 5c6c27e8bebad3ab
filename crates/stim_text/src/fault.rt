//! Why a stimulus is refused, and where.

ghost use Rattle.std.specs.Prelude.{◌≡◌};
ghost use Rattle.stim_text.specs.declared.fault.StimFault.TheVariants.{NoMemory};

use std::alloc::{AllocError, AllocFailed};
use thiserror::Error;

/// Why a stimulus is refused. Rows and columns are counted from 0; the first line is no row.
#[derive(Clone, Copy, Debug, PartialEq, Eq, Error)]
pub enum StimFault {
    /// There is no line, or the fields of the first are not the names of the inputs in order.
    #[error("the first line does not name the inputs in order")]
    HeaderMismatch,
    /// The line has not one field for each input, or a field is not a number.
    #[error("row {row} has not one number for each input")]
    BadRow { row: u64 },
    /// The number is not below 2 to the power of its input's width.
    #[error("row {row} has a number in column {column} that does not fit its input")]
    DoesNotFit { row: u64, column: u64 },
    /// The text has more than 64 MiB; or there are more than 1,000,000 rows; or the rows times the inputs and
    /// registers are more than 16,000,000.
    #[error("the stimulus is too long")]
    TooLong,
    /// Memory ran out.
    #[error("out of memory")]
    NoMemory,
}

impl From<AllocError> for StimFault {
    ghost from_gives = { λ _ e. e ≡ NoMemory };

    fn from(_: AllocError) -> Self {
        StimFault::NoMemory
    }
}

impl<T: Drop> From<AllocFailed<T>> for StimFault {
    ghost from_gives = { λ _ e. e ≡ NoMemory };

    fn from(_: AllocFailed<T>) -> Self {
        StimFault::NoMemory
    }
}

impl From<text_core::NoMemory> for StimFault {
    ghost from_gives = { λ _ e. e ≡ NoMemory };

    fn from(_: text_core::NoMemory) -> Self {
        StimFault::NoMemory
    }
}
