//! The symbol table of a compiled design: what a debugger asks at each statement.
#![tactic(auto)]

mod cells;
mod named;
mod names_in_scope;
mod parts;
mod places;
mod shape;
mod table;

pub use cells::Cells;
pub use names_in_scope::Names;
pub use parts::{
    GenVariable, InstanceParts, NodeName, Row, Slot, TableEnd, TableParts, VariantParts,
};
pub use table::Table;
