//! What a design can be refused for, in the order in which it is judged; and where.

ghost use Rattle.std.specs.Prelude.{◌≡◌};
ghost use Rattle.check_core.specs.declared.fault.CheckFault.TheVariants.{NoMemory};

use std::alloc::{AllocError, AllocFailed};
use text_core::Text;

/// A place in a design: the line of it, counted from 1, a name, and the path of an instance.
#[derive(Drop)]
pub struct Spot {
    pub line: u32,
    pub name: Text,
    pub instance: Text,
}

/// What an elaborated design is refused for, in the order in which it is tested.
#[derive(Clone, Copy, PartialEq, Eq)]
pub enum Refusal {
    UnknownName,
    DuplicateName,
    BadWidth,
    UnknownPort,
    UnboundInput,
    WidthMismatch,
    TwoDrivers,
    Undriven,
    Latch,
    ReadBeforeWrite,
}

/// Why an elaborated design is refused, and where.
#[derive(Drop)]
pub enum CheckFault {
    /// A read names no signal and no earlier `let` of its block; or a target is no wire, output or register of the module; or
    /// a child is read that is not there.
    UnknownName(Spot),
    /// A second signal, child or `let` of this name.
    DuplicateName(Spot),
    /// A width is not from 1 to 128, the value of a literal does not fit its width, or a slice does not lie from 0 to 127.
    BadWidth(Spot),
    /// A connection to what is no input, or a read of what is no output.
    UnknownPort(Spot),
    /// An input of a child has no connection.
    UnboundInput(Spot),
    /// Widths that do not go together: the width that stands there, and the one that is needed, in bits.
    WidthMismatch { at: Spot, have: u64, want: u64 },
    /// A second block that assigns a signal, or a second connection of an input; and the line of the first.
    TwoDrivers { at: Spot, first: u32 },
    /// No block assigns a wire or an output.
    Undriven(Spot),
    /// Some path through a `comb` leaves its target unassigned.
    Latch(Spot),
    /// A target or a `let` is read where some path has not assigned it.
    ReadBeforeWrite(Spot),
    /// Want of memory.
    NoMemory,
}

/// Two widths that do not go together: the one that stands there, and the one that is needed, in bits.
#[derive(Clone, Copy, PartialEq, Eq)]
pub struct Clash {
    pub have: u64,
    pub want: u64,
}

impl From<text_core::NoMemory> for CheckFault {
    ghost from_gives = { λ _ e. e ≡ NoMemory };

    fn from(_: text_core::NoMemory) -> CheckFault {
        CheckFault::NoMemory
    }
}

impl From<AllocError> for CheckFault {
    ghost from_gives = { λ _ e. e ≡ NoMemory };

    fn from(_: AllocError) -> CheckFault {
        CheckFault::NoMemory
    }
}

impl<T: Drop> From<AllocFailed<T>> for CheckFault {
    ghost from_gives = { λ _ e. e ≡ NoMemory };

    fn from(_: AllocFailed<T>) -> CheckFault {
        CheckFault::NoMemory
    }
}
