//! Several clients on one session: a hub answers each, and tells all that are here of what is told without being asked.
//!
//! ```text
//! let mut hub = Hub::new(alloc, session, listeners, 2)?;          // the session is new, and no listener was dropped
//! let lines = hub.ask(0, text)?;                                  // a line for client 0
//! while hub.running() {
//!     let lines = hub.turn()?;                                    // a line for each client that is here, where something is told
//! }
//! hub.leave(1);
//! let last = hub.close()?;                                        // the last lines, which belong to no client
//! ```
//!
//! In lock step a hub is served over the links of its clients, from start to end: each round polls each client that is here once, and makes
//! one turn if the session runs. Who took the room for its clients before (`HubRoom`) serves it by `serve_hub_in`, which always begins.
//!
//! `specs/` has the definitions: `Hubs` what a hub does and tells, `HubJournals` the journal of a hub, the lines of each client by it, and
//! what is never done, `Paces` that the session goes on between two requests of one client, `Ends` how a client was served, `Served` what is
//! given back of all of them, and `Sample` an example that was worked by hand. A hub's run is that of the machine of `machine_core`. No
//! contract says when a message comes, nor that one comes.
#![tactic(auto)]

mod client;
mod crowd;
mod event;
mod hub;
mod journal;
mod laws;
mod line;
mod lockstep;
mod parter;
mod rounds;
mod seats;
mod served;
mod tell;

pub use event::HubEvent;
pub use hub::{Hub, HubOf};
pub use laws::{hub_journals_are_journals, two_are_served};
pub use line::{HubStop, Line};
pub use lockstep::{serve_hub_in, serve_hub_lockstep, serve_hub_parting};
pub use parter::Parter;
pub use seats::HubRoom;
pub use served::{ClientEnd, HubEnd, HubServed};
