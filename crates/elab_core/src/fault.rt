//! What elaboration counts, and why sources have no design. Each fault has the place that a user has to look at.

ghost use Rattle.std.specs.Prelude.{◌≡◌};
ghost use Rattle.elab_core.specs.declared.fault.ElabFault.TheVariants.{NoMemory};

use std::alloc::{AllocError, AllocFailed};
use text_core::Text;

/// What elaboration counts.
#[derive(Clone, Copy, PartialEq, Eq)]
pub enum Count {
    /// At most 4,096, with the top.
    Instances,
    /// At most 1,000,000 in all loops.
    Turns,
    /// At most 200,000, each time that a body is taken.
    Statements,
    /// At most 200,000, with the outputs of children as signals of their parents.
    Signals,
    /// The operators and operands of expressions: at most 2,000,000.
    Parts,
    /// The pairs of a statement and a name in scope, over all instances: at most 4,000,000.
    Cells,
}

/// Why sources have no elaborated design, with the place of it in them; 0 stands for the top and its parameters.
#[derive(Drop)]
pub enum ElabFault {
    /// Not exactly one module has the name.
    UnknownModule { line: u32, name: Text },
    /// An integer names nothing in scope; or an argument names no parameter, or is given twice; or a parameter is declared
    /// twice.
    UnknownParameter { line: u32, name: Text },
    /// An integer leaves the range from -2^62 to 2^62, a loop has more than 4,096 turns, or the index of a family is
    /// negative.
    ElabRange { line: u32 },
    /// An instance is 33 below the top.
    TooDeep { line: u32, name: Text },
    /// More of this than the limit.
    TooLarge { line: u32, what: Count, limit: u64 },
    /// Want of memory.
    NoMemory,
}

impl From<text_core::NoMemory> for ElabFault {
    ghost from_gives = { λ _ e. e ≡ NoMemory };

    fn from(_: text_core::NoMemory) -> ElabFault {
        ElabFault::NoMemory
    }
}

impl From<AllocError> for ElabFault {
    ghost from_gives = { λ _ e. e ≡ NoMemory };

    fn from(_: AllocError) -> ElabFault {
        ElabFault::NoMemory
    }
}

impl<T: Drop> From<AllocFailed<T>> for ElabFault {
    ghost from_gives = { λ _ e. e ≡ NoMemory };

    fn from(_: AllocFailed<T>) -> ElabFault {
        ElabFault::NoMemory
    }
}
