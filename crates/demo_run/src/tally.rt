//! The counts of the stops of a session. They stand apart from what counts, since their bound names no definition that names them.

ghost use Rattle.std.specs.Prelude.{◌≤◌, ◌*◌};

/// How many stops were reached while running forwards, and while running backwards; and the sum of the numbers of threads of the
/// former.
#[derive(Clone, Copy)]
pub(crate) struct Counts {
    pub(crate) forward: u64,
    pub(crate) backward: u64,
    pub(crate) threads: u64,
    pub ghost bounded: { threads ≤ forward * 4294967295 },
}
