//! The session of a debugger: requests, turns, and the listeners that are told of stops.
//!
//! A session walks the positions of a run that a symbol table and a trace tell. How it is driven:
//!
//! ```text
//! let mut session = Session::new(alloc, table, trace);            // the trace fits the table
//! let mut listeners = Listeners::new(alloc, boxes)?;              // boxes: Vec<Box<dyn Listener>>
//! for asked in &requests {                                        // Asked::Good(Request { id, cmd }), or a text that is none
//!     let reply = session.request(asked, &mut listeners)?;        // to be printed
//!     while session.running() {
//!         let turned = session.turn(&mut listeners);              // looks at 64 positions
//!         let notice = session.notice(turned)?;                   // to be printed, if there is one
//!     }
//! }
//! let last = listeners.closing_lines()?;                          // to be printed
//! ```
//!
//! What each call answers and leaves is that of the machine of `machine_core`, over the world of the table and the trace:
//! `specs/State.antt` says which state of the machine a session and its listeners have. A request that finds no memory leaves that
//! state as it was, and so does each call that only tells. A turn takes no memory.
#![tactic(auto)]

mod answering;
mod arming;
mod eval;
mod listeners;
mod notices;
mod position;
mod requests;
mod sampled;
mod session;
mod stops;
mod texts;

pub use answering::Answered;
pub use listeners::Listeners;
pub use machine_core::{
    Asked, At, BadText, Body, Cmd, Going, Motion, Notice, Reply, Request, Shown, Turned, Utf8,
};
pub use requests::to_drop;
pub use session::Session;
