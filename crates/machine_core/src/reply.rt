//! What a session answers.

use bv_core::{Bv, Sample};
use text_core::{Listed, Text};

/// A position, or the start before all of them, or the end behind them.
#[derive(Clone, Copy, PartialEq, Eq)]
pub enum At {
    Start,
    End,
    /// A slot in a cycle, both from 0.
    Position { cycle: u64, slot: u32 },
}

/// Whether a session runs, and in which direction.
#[derive(Clone, Copy, PartialEq, Eq)]
pub enum Going {
    Idle,
    Forward,
    Backward,
}

/// What is shown of a name at a thread.
#[derive(Clone, Copy, PartialEq, Eq)]
pub enum Shown {
    /// Its value before the statement runs.
    Value(Bv),
    /// A value that the trace does not know.
    Unknown,
    /// Some path to the statement does not assign it.
    Unset,
    /// No expression of it was kept.
    Removed,
}

/// The answer to a request: which request of the session it was, from 1, with the number that the client gave it.
#[derive(Drop)]
pub struct Reply {
    pub seq: u64,
    pub id: Option<u64>,
    pub body: Body,
}

/// What is answered: the first fifteen to what was accepted, the others to what was refused.
#[derive(Drop)]
pub enum Body {
    /// A breakpoint is armed under this number, at these slots, rising.
    Break {
        bp: u64,
        slots: Listed<u32>,
    },
    Delete,
    /// A watch is armed under this number, at these slots, rising.
    Watch {
        slots: Listed<u32>,
        wp: u64,
    },
    Unwatch,
    Continue,
    Reverse,
    Step,
    Back,
    /// It stands here.
    Pause {
        at: At,
    },
    /// The position, the generator variables at its statement, its line, and the paths of its threads, in preorder.
    Threads {
        at: At,
        gens: Listed<(Text, i64)>,
        line: u32,
        threads: Listed<Text>,
    },
    /// The names in scope, in order, with what is shown of each.
    Values {
        values: Listed<(Text, Shown)>,
    },
    Eval {
        value: Sample,
    },
    /// The pairs of the listener that was dropped.
    Drop {
        rows: Listed<(u64, u64)>,
    },
    /// Where it stands, the numbers of the armed breakpoints, rising, and of the listeners that remain, and whether it runs.
    Status {
        at: At,
        bps: Listed<u64>,
        listeners: Listed<u32>,
        mode: Going,
    },
    Bye,
    /// 1: a text of more than 65,536 bytes.
    TooLong,
    /// 2: a text that is not JSON.
    NotJson,
    /// 3: a field that has not its kind or is missing.
    BadShape {
        field: Text,
    },
    /// 4: a command that is not known.
    UnknownCmd,
    /// 5: a line without a statement.
    NoSite {
        line: u64,
    },
    /// 6: no instance of this path, or none that has a statement on the line.
    NoInstance {
        instance: Text,
    },
    /// 7: a text that is no condition, or whose widths do not fit, from this offset on, in bytes.
    BadCondAt {
        offset: u64,
    },
    /// 7: a name that is not in scope.
    BadCondName {
        name: Text,
    },
    /// 8: a name of which nothing was kept there.
    CondRemoved {
        name: Text,
        slot: u32,
    },
    /// 9: a name that some path to the statement does not assign.
    CondUnset {
        name: Text,
        slot: u32,
    },
    /// 10: it runs.
    Busy {
        mode: Going,
    },
    /// 11: it does not run.
    NotRunning,
    /// 12: it stands at the start or the end, or the instance is no thread there.
    NoStop {
        at: At,
    },
    /// 13: so many breakpoints are armed already, or so many numbers were given.
    TooMany {
        limit: u64,
    },
    /// 14: no armed breakpoint has this number.
    NoBreakpoint {
        bp: u64,
    },
    /// 15: no listener has this number, or it was dropped.
    NoListener {
        k: u64,
    },
    /// 16: so many watches are armed already, or the last number was given.
    TooManyWatches {
        limit: u64,
    },
    /// 17: no armed watch has this number.
    NoWatch {
        wp: u64,
    },
}
