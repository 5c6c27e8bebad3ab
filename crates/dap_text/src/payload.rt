//! What an editor is told, as plain data.

use bv_core::Sample;
use machine_core::Shown;
use text_core::{Listed, Text};

/// What became of a line on which a breakpoint was to be set: the number of the breakpoint, or why there is none.
#[derive(Drop)]
pub enum LineSet {
    Verified { id: u64, line: u32 },
    Unverified { line: u32, name: Text },
}

/// What the response to a message tells. Threads and frames are the numbers of instances, from 1.
#[derive(Drop)]
pub enum Payload {
    Empty,
    /// What the adapter can do.
    Abilities,
    Breakpoints {
        lines: Listed<LineSet>,
    },
    Continued,
    /// The threads, each with its path.
    Threads {
        threads: Listed<(u64, Text)>,
    },
    /// Where a thread stands: a line, from 1, of a file; and its path.
    StackFrame {
        id: u64,
        line: u32,
        name: Text,
        file: Text,
    },
    /// What a thread has, each under its reference: signals, and generator variables.
    Scopes {
        signals: u64,
        gens: u64,
    },
    /// The names in scope, in order, with what is shown of each.
    Signals {
        shown: Listed<(Text, Shown)>,
    },
    GenVariables {
        gens: Listed<(Text, i64)>,
    },
    Result {
        value: Sample,
    },
    /// It failed: the name of the refusal.
    Failed {
        name: Text,
    },
}

/// Why it stopped.
#[derive(Clone, Copy, PartialEq, Eq)]
pub enum Reason {
    Breakpoint,
    Step,
}

/// What an event tells.
#[derive(Clone, Copy, PartialEq, Eq)]
pub enum Happening {
    /// The adapter takes breakpoints from now on.
    Initialized,
    /// It stands at a stop; the number of the first thread there.
    Stopped { reason: Reason, thread: u64 },
    /// It stands at the end of the run.
    Ended,
    /// It stands at the start of the run.
    Started,
}
