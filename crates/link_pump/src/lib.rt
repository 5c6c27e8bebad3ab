//! One link that is served: what was sent over it of the lines made for it, and the thread that holds it. Knows no session.
//!
//! An `Outlet` is a link with what was sent over it and what was not. In a thread of its own, a `Pump` sends the lines that it pops from one
//! ring and pushes the messages that it reads into another (`Rings`); whoever holds the other ends of them has a link too (`Ends`). Once the
//! thread was joined, `gather` tells what is left of the link, by the list of the texts that were asked for it. A loop that has nothing to
//! do rests (`Rest`).
//!
//! `specs/` has the definitions: `Outlets` what was sent of the lines made, `Rings` what goes through the rings, `Names` what a ring is known
//! by, `Ends` the ends as a link, `Pumps` what the thread has done, and `Sides` what its other side leaves and what passed through the
//! link. No contract says when a message comes, nor that one comes.
#![tactic(auto)]

mod began;
mod cause;
mod ends;
mod gathering;
mod outlet;
mod pump;
mod rest;
mod rings;

pub use began::{Began, unread};
pub use cause::Cause;
pub use ends::Ends;
pub use gathering::{Gathered, end_in_two, gather, gather_shut};
pub use outlet::Outlet;
pub use pump::Pump;
pub use rest::Rest;
pub use rings::{FromLink, Rings, ToLink, push_waiting};
