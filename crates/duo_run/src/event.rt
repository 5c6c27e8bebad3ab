//! What is done with a session.

use text_core::Listed;

/// One event of a journal.
#[derive(Drop)]
pub enum Event {
    /// A request was applied: these bytes.
    Request(Listed<u8>),
    /// So many turns were made, one after the other.
    Turns(u64),
}
