//! What is done with a hub.

use text_core::Listed;

/// One event of the journal of a hub.
#[derive(Drop)]
pub enum HubEvent {
    /// The client of this number asked: these bytes.
    Ask(u32, Listed<u8>),
    /// The client of this number left.
    Left(u32),
    /// So many turns were made, one after the other.
    Turns(u64),
}
