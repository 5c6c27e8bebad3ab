//! The parts of a symbol table as they are handed over, before they are judged: a table is made of parts that keep every rule (`shape.rt`), and of no
//! others.

use crate::{Cells, Names};
use bv_core::Ref;
use std::alloc::AllocError;
use text_core::{Listed, NoMemory, Text};

/// A node of the design: its name, and its width in bits. In a table the widths are 1 to 128.
#[derive(Drop)]
pub struct NodeName {
    pub name: Text,
    pub width: u8,
}

/// A generator variable and its number. In a table the numbers are from -2^62 to 2^62.
#[derive(Drop)]
pub struct GenVariable {
    pub name: Text,
    pub value: i64,
}

/// A variant of a module: the module's name, and the generator variables that it was made with.
#[derive(Drop)]
pub struct VariantParts {
    pub module: Text,
    pub gens: Listed<GenVariable>,
}

/// An instance: its path, and the number of its variant.
#[derive(Drop)]
pub struct InstanceParts {
    pub path: Text,
    pub variant: u32,
}

/// What one instance has at a statement: where the enable is found, and what each name in scope stands for.
#[derive(Drop)]
pub struct Row {
    pub on: Ref,
    pub cells: Cells,
}

/// A statement of a variant: its line, its generator variables, the names in scope, and a row for each instance of the
/// variant, in order. In a table the line is below 2^30, and a row has a cell for each name, in order. The statements of a block have one
/// list of names.
#[derive(Drop)]
pub struct Slot {
    pub variant: u32,
    pub line: u32,
    pub gens: Listed<GenVariable>,
    pub names: Names,
    pub rows: Listed<Row>,
}

/// The parts of a symbol table. Nodes, variants, instances and slots are numbered from 0, in order.
#[derive(Drop)]
pub struct TableParts {
    /// The path of instance 0.
    pub top: Text,
    pub nodes: Listed<NodeName>,
    pub variants: Listed<VariantParts>,
    pub instances: Listed<InstanceParts>,
    pub slots: Listed<Slot>,
}

/// Why no table was made.
#[derive(Clone, Copy, PartialEq, Eq)]
pub enum TableEnd {
    /// The parts break a rule of shape, or name a node or a variant that they have not, or a node at another width.
    BadTable,
    /// Memory ran out.
    NoMemory,
}

impl From<NoMemory> for TableEnd {
    ghost use Rattle.std.specs.Prelude.{◌≡◌};
    ghost use Rattle.symtab.specs.declared.parts.TableEnd.TheVariants.{NoMemory};

    ghost from_gives = { λ _ e. e ≡ NoMemory };

    fn from(_: NoMemory) -> Self {
        TableEnd::NoMemory
    }
}

impl From<AllocError> for TableEnd {
    ghost use Rattle.std.specs.Prelude.{◌≡◌};
    ghost use Rattle.symtab.specs.declared.parts.TableEnd.TheVariants.{NoMemory};

    ghost from_gives = { λ _ e. e ≡ NoMemory };

    fn from(_: AllocError) -> Self {
        TableEnd::NoMemory
    }
}
