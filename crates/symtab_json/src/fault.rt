//! Why a symbol file is refused.

ghost use Rattle.std.specs.Prelude.{◌≡◌};
ghost use Rattle.symtab_json.specs.declared.fault.TableFault.TheVariants.{NoMemory};
ghost use Rattle.symtab_json.specs.Paths.{path_of};

use std::alloc::{AllocError, AllocFailed};
use std::fmt;
use thiserror::Error;

/// The part of a symbol file that breaks a rule of shape.
#[derive(Clone, Copy, Debug, PartialEq, Eq)]
pub enum Part {
    /// The text is no object.
    Whole,
    /// The version is missing or no whole number.
    Version,
    /// The instances.
    Instances,
    /// The nodes.
    Nodes,
    /// The slots.
    Slots,
    /// The path of instance 0.
    Top,
    /// The variants.
    Variants,
}

impl Part {
    /// The key of the part; empty for the whole.
    pub fn path(self) -> &'static str
        ensures { result.now ≡ path_of self }
    {
        match self {
            Part::Whole => "",
            Part::Version => "version",
            Part::Instances => "instances",
            Part::Nodes => "nodes",
            Part::Slots => "slots",
            Part::Top => "top",
            Part::Variants => "variants",
        }
    }
}

impl fmt::Display for Part {
    fn fmt<W: fmt::Write>(&self, f: &mut fmt::Formatter<W>) -> fmt::Result {
        f.write_str(self.path())
    }
}

/// Why a symbol file is refused. The order of the causes is `TooLong`, `NotJson`, `Version`, `BadShape`, `BadReference`; but
/// a text that is no object, or that has no version, is refused for that before its version is judged.
#[derive(Clone, Copy, Debug, PartialEq, Eq, Error)]
pub enum TableFault {
    /// The text is no UTF-8, or no JSON value that nests at most 127 deep.
    #[error("the file is no JSON")]
    NotJson,
    /// The first part, in the order of their names, that is missing, has in it anything missing, of a wrong kind or of a
    /// wrong length, or breaks a rule of shape.
    #[error("the part '{path}' of the file is missing or breaks a rule of shape")]
    BadShape { path: Part },
    /// The first number of a node or a variant that is outside its list, with the size of the list.
    #[error("the number {id} is outside its list, whose size is {size}")]
    BadReference { id: u64, size: u64 },
    /// The version is neither 1 nor 2.
    #[error("the version is {found}, where 1 and 2 are known")]
    Version { found: u64 },
    /// The text has more than 64 MiB.
    #[error("the file is too long")]
    TooLong,
    /// Memory ran out.
    #[error("out of memory")]
    NoMemory,
}

impl From<AllocError> for TableFault {
    ghost from_gives = { λ _ e. e ≡ NoMemory };

    fn from(_: AllocError) -> Self {
        TableFault::NoMemory
    }
}

impl<T: Drop> From<AllocFailed<T>> for TableFault {
    ghost from_gives = { λ _ e. e ≡ NoMemory };

    fn from(_: AllocFailed<T>) -> Self {
        TableFault::NoMemory
    }
}

impl From<text_core::NoMemory> for TableFault {
    ghost from_gives = { λ _ e. e ≡ NoMemory };

    fn from(_: text_core::NoMemory) -> Self {
        TableFault::NoMemory
    }
}
