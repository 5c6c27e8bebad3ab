//! Why a run ends early, and the status that tells it.

ghost use Rattle.std.specs.Prelude.{◌≡◌, ◌≤◌, IsTrue};
ghost use Rattle.io_edge.specs.declared.sink_end.SinkEnd.TheVariants as sink;
ghost use Rattle.dbg_app.specs.declared.halt.Halt.TheVariants.{WriteFault, NoMemory};
ghost use Rattle.dbg_app.specs.Outcome.{is_status, halt_status};

use io_edge::{Failed, ReadEnd, SinkEnd};
use run_status::Ending;
use std::alloc::{AllocError, AllocFailed};

/// Why a run ends before its text is written.
#[derive(Clone, Copy, PartialEq, Eq)]
pub(crate) enum Halt {
    /// A file was not read; the files' count of faults rose.
    ReadFault,
    /// The sink failed; its count of faults rose.
    WriteFault,
    /// Memory ran out.
    NoMemory,
}

impl Halt {
    /// The status of the program.
    pub(crate) fn status(self) -> u8
        ensures status { result ≡ halt_status self }
        ensures known { IsTrue (is_status result) }
        ensures late { 7 ≤ result }
    {
        match self {
            Halt::ReadFault => Ending::NotRead.status(),
            Halt::WriteFault => Ending::NotTaken.status(),
            Halt::NoMemory => Ending::OutOfMemory.status(),
        }
    }
}

impl From<Failed> for Halt {
    ghost from_gives = { λ _ e. e ≡ WriteFault };

    fn from(_: Failed) -> Self {
        Halt::WriteFault
    }
}

impl From<ReadEnd> for Halt {
    ghost use Rattle.dbg_app.specs.Ends.{read_halt};

    ghost from_gives = { λ end e. e ≡ read_halt end };

    fn from(end: ReadEnd) -> Self {
        match end {
            ReadEnd::Failed => Halt::ReadFault,
            ReadEnd::NoMemory => Halt::NoMemory,
        }
    }
}

impl From<SinkEnd> for Halt {
    ghost use Rattle.dbg_app.specs.Ends.{halt_of};

    ghost from_gives = { λ end e. e ≡ halt_of end };

    fn from(end: SinkEnd) -> Self {
        match end {
            SinkEnd::Failed => Halt::WriteFault,
            SinkEnd::NoMemory => Halt::NoMemory,
        }
    }
}

impl From<text_core::NoMemory> for Halt {
    ghost from_gives = { λ _ e. e ≡ NoMemory };

    fn from(_: text_core::NoMemory) -> Self {
        Halt::NoMemory
    }
}

impl From<AllocError> for Halt {
    ghost from_gives = { λ _ e. e ≡ NoMemory };

    fn from(_: AllocError) -> Self {
        Halt::NoMemory
    }
}

impl<T: Drop> From<AllocFailed<T>> for Halt {
    ghost from_gives = { λ _ e. e ≡ NoMemory };

    fn from(_: AllocFailed<T>) -> Self {
        Halt::NoMemory
    }
}
