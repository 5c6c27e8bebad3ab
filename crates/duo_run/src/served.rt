//! What a served connection leaves.

use crate::event::Event;
use link_edge::End;
use text_core::Listed;

/// A connection that was served.
#[derive(Drop)]
pub struct Served<L> {
    /// Its link, which is not shut by serving.
    pub link: L,
    /// What was done with the session, in order.
    pub journal: Vec<Event>,
    /// The messages that were read and not applied, in order.
    pub unapplied: Vec<Listed<u8>>,
    /// The lines that were sent, in order.
    pub sent: Vec<Listed<u8>>,
    /// The lines that were not sent, in order, each behind all that were.
    pub unsent: Vec<Listed<u8>>,
    /// How it ended.
    pub end: End,
}
