//! A link over a WebSocket, and a door that hands such links out to those who connect to a TCP port.
//!
//! They are the edge to the network, and tell nothing of what passes: what is proved is that they count as links and doors do, and
//! what they make of each answer of the library that reads and writes the socket (`heard`, `specs/Heard`), and of each host and origin
//! of a handshake (`stranger`, `specs/Strangers`). `limits` has every bound on sizes, tries and times.
#![tactic(auto)]

mod counts;
mod door;
mod heard;
pub mod limits;
mod link;
mod rationed;
mod shake;
mod socket;
mod stranger;

pub use door::TcpDoor;
pub use link::WsLink;
