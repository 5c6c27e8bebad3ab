//! Several clients on one session, each link in a thread of its own with two rings, beside the session in the calling thread.
//!
//! The session's side is the loop of `hub_core` itself, over ports (`port`): a port is the session's ends of a link's rings, or a link at hand,
//! where no thread could be started for it or there was no memory for its rings. A client that leaves is told to its thread, which shuts the
//! link at once, while the others are served on (`side`). In the end each thread is joined, and what is left of its link is put together
//! with what the session's side did (`finish`).
//!
//! `specs/` has the definitions: `Ports` what a port means and what goes with it, `Finished` what the session's side leaves of a client. What
//! is given back is told in the words of `hub_core`. No contract says when a message comes, nor that one comes.
#![tactic(auto)]

mod finish;
mod port;
mod post;
mod serve;
mod side;
mod start;

pub use port::{Marks, Port};
pub use post::{Begun, LinkPost, Post};
pub use serve::serve_hub;
