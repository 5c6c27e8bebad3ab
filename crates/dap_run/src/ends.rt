//! How a conversation ends.

/// How a conversation ended.
#[derive(Clone, Copy)]
pub enum TalkEnd {
    /// A `disconnect` was answered.
    Bye,
    /// The input ended between messages.
    AtEnd,
    /// What is left of the input begins with the fault of this number, from 1 to 5.
    Fault(u8),
    /// The input was not read; its count of faults rose.
    NotRead,
    /// The output failed; its count of faults rose.
    NotTaken,
    /// Memory ran out.
    NoMemory,
}
