//! Expressions stand in sources and in conditions; the two differ in what an integer may be, and in nothing else.

/// In which texts an expression stands.
#[derive(Clone, Copy, PartialEq, Eq)]
pub enum Dialect {
    /// In a source.
    Source,
    /// In a condition of the debugger, where every integer is a number and no `bits` stands.
    Condition,
}
