//! Why a link is no longer used.

/// Why a link is no longer used.
#[derive(Clone, Copy, PartialEq, Eq)]
pub enum Cause {
    /// It was closed from the other side.
    Closed,
    /// It broke.
    Failed,
    /// Memory ran out; what is told from then on is lost.
    NoMemory,
}
