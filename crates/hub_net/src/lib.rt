//! A debugger over an accepted design that serves the clients which a door lets in, all at once, on one session.
//!
//! The door is asked first, and then the clients that came are served until each has left. `specs/` has the definitions: `Clients` what the
//! hub of the links that came is and what is told of each client, `AtOnce` the whole of it; `Sample` is one that was worked by hand. What is
//! shown is defined in `show_net`, and the words of a line in `serve_net`. No contract says that a client comes, nor that one leaves.
#![tactic(auto)]

mod came;
mod clients;
mod laws;
mod session;
mod told;

pub use clients::{AtOnce, serve_clients};
pub use laws::two_of_three_are_served;
