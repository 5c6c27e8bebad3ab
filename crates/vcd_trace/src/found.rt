//! What is kept of a variable that was found: enough to find its value, and no name.

/// A variable that was found: the number of its code, and its size in bits.
#[derive(Clone, Copy)]
pub(crate) struct Found {
    pub code: u32,
    pub size: u32,
}
