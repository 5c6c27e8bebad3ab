//! What an editor asks, as plain data.

use machine_core::Utf8;
use text_core::Listed;

/// A message of an editor: its own number, from 0 to 2^63-1, the name of its command, and what it asks.
#[derive(Drop)]
pub struct Message {
    pub seq: u64,
    pub command: Utf8,
    pub cmd: EditorCmd,
}

/// A line, below 2^24, on which a breakpoint is to be set: where a condition holds, if its text is given.
#[derive(Drop)]
pub struct LineAsked {
    pub line: u32,
    pub condition: Option<Utf8>,
}

/// What is asked. Threads, frames and references are numbers as the editor wrote them, whatever they name.
#[derive(Drop)]
pub enum EditorCmd {
    Initialize,
    /// `launch` or `attach`.
    Launch,
    /// Breakpoints on these lines of the file of this path, and no others there.
    SetBreakpoints {
        path: Utf8,
        lines: Listed<LineAsked>,
    },
    ConfigurationDone,
    Continue,
    ReverseContinue,
    /// `next`, `stepIn` or `stepOut`.
    Step,
    StepBack,
    Pause,
    Threads,
    StackTrace {
        thread: u64,
    },
    Scopes {
        frame: u64,
    },
    Variables {
        reference: u64,
    },
    Evaluate {
        expression: Utf8,
        frame: u64,
    },
    Disconnect,
    /// An argument is missing or has not its kind.
    BadShape,
    /// No command has the name.
    UnknownCmd,
}
