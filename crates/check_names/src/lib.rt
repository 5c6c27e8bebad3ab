//! Names and ports of an elaborated design: what nothing has, what two things have, and inputs without a connection.
//!
//! Each function looks through one variant, and tells the first fault of its kind in it.
#![tactic(auto)]

mod duplicate;
mod ports;
mod scope;
mod unbound;
mod unknown;

pub use duplicate::duplicate_name;
pub use ports::unknown_port;
pub use unbound::unbound_input;
pub use unknown::unknown_name;
