//! The connections of a debugger to its clients: a link that carries messages both ways, a door that hands out links, and a gate
//! before each turn of a session, by what they mean.
//!
//! What a link means is one record, `Meaning` in `specs/Links`: what passed through it, where it tells that, and its counts. A link
//! over a network tells no content; the forms in memory tell all. No contract says when a message comes, nor that one comes.
#![tactic(auto)]

mod answers;
mod door;
mod gate;
mod link;
mod memory_door;
mod memory_link;
mod step;

pub use answers::{DoorEnd, End, LinkEnd, Polled};
pub use door::Door;
pub use gate::{Gate, OpenGate};
pub use link::Link;
pub use memory_door::MemDoor;
pub use memory_link::MemLink;
pub use step::Step;
