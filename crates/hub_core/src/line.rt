//! What is told to a client, and what is answered where memory ran out.

use text_core::Listed;

/// What is told to the client of a number, from 0: a line, without a line feed.
#[derive(Drop)]
pub struct Line {
    pub client: u32,
    pub text: Listed<u8>,
}

/// Memory ran out: whether the event was applied. Its lines are lost.
#[derive(Clone, Copy, PartialEq, Eq)]
pub struct HubStop {
    pub applied: bool,
}
