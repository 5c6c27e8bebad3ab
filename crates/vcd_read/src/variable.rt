//! A variable of a dump file, as its readers see it.

/// A variable that a value change dump file declares.
#[derive(Clone, Copy)]
pub struct VcdVar<'a> {
    /// The number of the scope around it; 0 outside every scope. Scopes are numbered from 1 in the order in which the
    /// text opens them, and one that is opened again has a number for each time.
    pub scope: u32,
    /// Its name, without an index behind it or a backslash in front.
    pub name: &'a [u8],
    /// The number of its code. Codes are numbered from 0 by first declaration; variables may share one.
    pub code: u32,
    /// How many bits it has, at least 1.
    pub size: u32,
    /// Whether its values are bits. Real and string variables have none.
    pub counted: bool,
}
