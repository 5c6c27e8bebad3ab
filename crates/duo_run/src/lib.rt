//! A connection that is served: what comes over a link is asked of a session, and what the session tells is sent over it.
//!
//! In lock step one activity does both in turn: a poll of the link, its request, and a turn of the session if it runs. What was done
//! is kept as a journal of requests and turns. Its output, by the definitions of the machine, is what was sent and what was not.
//!
//! In two threads one holds the link (`link_pump`) and one the session (`side`), with two rings between them. The session's side is served
//! in lock step too, with its ends of the rings as its link; once the thread was joined, `gather` puts the sides together. So the same is
//! promised of both ways.
//!
//! `specs/` has the definitions: `Deeds` what is done with a session one by one, `Polls` what the polls of
//! a link come to, `Journals` the journal, `Connections` what a served connection is, and `Desks` what holds while it is served. What one
//! link needs has its definitions in `link_pump`. No contract says when a message comes, nor that one comes: a connection may be served
//! forever.
#![tactic(auto)]

mod connection;
mod desk;
mod duo;
mod event;
mod gather;
mod journal;
mod laws;
mod lockstep;
mod notes;
mod served;
mod side;

pub use connection::{Ready, serve_connection};
pub use duo::serve_duo;
pub use event::Event;
pub use laws::lock_step_is_served;
pub use lockstep::serve_lockstep;
pub use served::Served;
