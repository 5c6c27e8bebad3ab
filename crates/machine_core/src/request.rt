//! What a session is asked.

use crate::Utf8;

/// A request, with the number by which its client knows it, if it has one.
#[derive(Drop)]
pub struct Request {
    pub id: Option<u64>,
    pub cmd: Cmd,
}

/// What is asked.
#[derive(Drop)]
pub enum Cmd {
    /// Arms a breakpoint on a line of the source, from 1: in one instance alone, if its path is given; where a condition holds, if
    /// its text is given.
    Break {
        line: u64,
        instance: Option<Utf8>,
        cond: Option<Utf8>,
    },
    /// Disarms the breakpoint of this number.
    Delete {
        bp: u64,
    },
    /// Arms a watch on a line of the source, from 1, in an instance of this path: it matches where the value of an expression
    /// differs from that in the cycle before.
    Watch {
        line: u64,
        instance: Utf8,
        expr: Utf8,
    },
    /// Disarms the watch of this number.
    Unwatch {
        wp: u64,
    },
    /// Runs forwards to a position where a breakpoint or a watch matches.
    Continue,
    /// Runs backwards to one.
    Reverse,
    /// Runs forwards to a position that has a thread: this instance, if a path is given.
    Step {
        instance: Option<Utf8>,
    },
    /// Runs backwards to one.
    Back {
        instance: Option<Utf8>,
    },
    /// Stops running.
    Pause,
    /// The instances that are threads at the position.
    Threads,
    /// What each name in scope shows in a thread.
    Values {
        instance: Utf8,
    },
    /// The value of an expression in a thread.
    Eval {
        instance: Utf8,
        expr: Utf8,
    },
    /// Drops the listener of this number, from 0.
    Drop {
        k: u64,
    },
    /// Where the session stands.
    Status,
    /// The last request of a client.
    Bye,
}

/// A text that is no request, by the code of its refusal: 1, it has more than 65,536 bytes; 2, it is not JSON; 3, this field has not
/// its kind or is missing, where no field is the whole; 4, its command is unknown.
#[derive(Drop)]
pub struct BadText {
    pub code: u8,
    pub id: Option<u64>,
    pub field: Option<Utf8>,
}

/// What was read from a text.
#[derive(Drop)]
pub enum Asked {
    Good(Request),
    Bad(BadText),
}
