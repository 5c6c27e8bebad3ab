//! A scope of a dump file, as its readers see it.

/// A scope that a value change dump file opens.
#[derive(Clone, Copy)]
pub struct VcdScope<'a> {
    /// The number of the scope around it; 0 outside every scope.
    pub parent: u32,
    /// Its name, as it stands in the text.
    pub name: &'a [u8],
}
