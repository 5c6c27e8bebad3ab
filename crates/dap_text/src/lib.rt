//! The texts of an editor's conversation, in JSON.
//!
//! A message of an editor is read from any bytes: what it asks, or that it asks nothing. Responses and events are written. What each is
//! stands in `specs/`: `Messages` has the table of commands and their arguments, `Payloads` the objects that are told, and `Texts` the
//! bytes. The protocol's own profile that is kept to here was chosen for this debugger: these commands, these fields, and no others.
#![tactic(auto)]

mod asked;
mod message;
mod object;
mod payload;
mod row;
mod text;

pub use asked::read_message;
pub use message::{EditorCmd, LineAsked, Message};
pub use payload::{Happening, LineSet, Payload, Reason};
pub use text::{event_text, response_text};
