//! What links and doors answer, and how a connection ends.

use text_core::Listed;

/// What a poll of a link answers.
#[derive(Drop)]
pub enum Polled {
    /// A message was received, of these bytes.
    Message(Listed<u8>),
    /// Nothing has come; the count of idles rose.
    Nothing,
    /// The other side has ended the stream; the count of ends rose.
    Closed,
    /// The stream is broken; the count of faults rose.
    Failed,
    /// Memory ran out.
    NoMemory,
}

/// Why a text was not sent.
#[derive(Clone, Copy, PartialEq, Eq)]
pub enum LinkEnd {
    /// The stream is broken; the count of faults rose.
    Failed,
    /// Memory ran out.
    NoMemory,
}

/// Why no link was handed out.
#[derive(Clone, Copy, PartialEq, Eq)]
pub enum DoorEnd {
    /// No link came, or it was not set up; the count of faults rose.
    Failed,
    /// Memory ran out.
    NoMemory,
}

/// How a connection ended.
#[derive(Clone, Copy, PartialEq, Eq)]
pub enum End {
    /// The client took its leave.
    Bye,
    /// The link was closed from the other side.
    Closed,
    /// The link broke.
    Failed,
    /// Memory ran out.
    NoMemory,
}
