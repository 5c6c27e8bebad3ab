//! What is given back of a hub whose clients were served.

use crate::event::HubEvent;
use link_edge::End;
use text_core::Listed;

/// How a client was served: the messages that were read of it and not applied, the lines that were sent to it, those that were not, and how
/// it ended.
#[derive(Drop)]
pub struct ClientEnd {
    pub unapplied: Vec<Listed<u8>>,
    pub sent: Vec<Listed<u8>>,
    pub unsent: Vec<Listed<u8>>,
    pub end: End,
}

/// How a hub ended.
#[derive(Clone, Copy, PartialEq, Eq)]
pub enum HubEnd {
    /// Each client left.
    AllLeft,
    /// Memory ran out.
    NoMemory,
}

/// The links, those of clients that left shut; what was done; how each client was served, in order, or none where there was no memory to
/// begin; the last lines, which belong to no client; and how the hub ended.
#[derive(Drop)]
pub struct HubServed<L> {
    pub links: Vec<L>,
    pub journal: Vec<HubEvent>,
    pub clients: Vec<ClientEnd>,
    pub closing: Vec<Listed<u8>>,
    pub end: HubEnd,
}
