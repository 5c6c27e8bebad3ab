//! What a turn does, and what is told of it.

use listen::StopNote;
use text_core::{Listed, Text};
use trace_core::{Want, Way};

/// Whether a session runs: in which direction, and to what.
#[derive(Clone, Copy, PartialEq, Eq)]
pub enum Motion {
    Idle,
    Running(Way, Want),
}

/// What a turn did.
#[derive(Clone, Copy, PartialEq, Eq)]
pub enum Turned {
    /// Nothing: the session does not run.
    Idle,
    /// It went on by 64 positions, of which none matches.
    Moved,
    /// It stands at the nearest position that matches.
    Stopped(StopNote),
    /// No position up to the end matches, and it stands there.
    AtEnd,
    /// No position down to the start matches, and it stands there.
    AtStart,
}

/// What is told to a client without being asked.
#[derive(Drop)]
pub enum Notice {
    /// A stop, with the generator variables at its statement, the paths of its threads, and the numbers of the watches that match there.
    Stopped {
        note: StopNote,
        gens: Listed<(Text, i64)>,
        paths: Listed<Text>,
        watches: Listed<u64>,
    },
    /// It stands at the end.
    Ended,
    /// It stands at the start.
    Start,
    /// The last pairs of a listener.
    Rows {
        k: u32,
        rows: Listed<(u64, u64)>,
    },
}
