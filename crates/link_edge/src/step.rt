//! What a link in memory is told to do.

use text_core::Listed;

/// What one poll of a link in memory comes to.
#[derive(Drop)]
pub enum Step {
    /// It gives this message.
    Message(Listed<u8>),
    /// Nothing has come.
    Nothing,
    /// The stream is at its end.
    Close,
    /// The stream is broken.
    Fault,
}
