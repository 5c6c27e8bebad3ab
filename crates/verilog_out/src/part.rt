//! In which order the parts of a module are printed. Each node has three turns, so declarations stand before their uses.

/// What stands in a module for its nodes, in this order. The outputs stand before the steps.
#[derive(Clone, Copy, PartialEq, Eq)]
pub(crate) enum Part {
    /// A node is declared, as a wire or as a register with the value that it starts with.
    Declarations,
    /// A node is given its value.
    Assignments,
    /// A register takes its next value.
    Steps,
}
