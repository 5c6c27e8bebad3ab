//! A debugger over an accepted design that serves the clients which a door lets in, one after another.
//!
//! Each client has a session of its own, from the start of the design's run. `specs/` has the definitions: `Visits` what comes of
//! each time that the door is asked and the line that tells it, `Members` what each served connection is, and `Service` the whole
//! of it; `Sample` is one that was worked by hand. What a service shows is defined in `show_net`. No contract says that a client
//! comes, nor that a connection ends.
#![tactic(auto)]

mod attend;
mod connect;
mod hall;
mod laws;
mod links;
mod visit;

pub use laws::two_connections_are_served;
pub use links::{InTurn, serve_links};
pub use visit::{Visit, write_visit};
