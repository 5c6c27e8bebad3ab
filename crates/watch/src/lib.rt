//! The watches of a debugger: where a value differs from that in the cycle before, and the search for the next such position.
//!
//! When a watch matches is defined in `machine_core`, over the world that a table and a trace tell; `specs/Changing.antt` has what this crate
//! looks at instead, by the samples of two cycles. A watch is armed in two steps, as a breakpoint is: what it waits for is prepared, and then
//! put behind the others under the next number. Its search looks at the positions that a turn of a session looks at.
#![tactic(auto)]

mod changing;
mod fault;
mod list;
mod search;
mod watch_list;
mod watched;

pub use fault::WatchFault;
pub use list::{Unwatched, prepare_watch};
pub use watch_list::WatchList;
