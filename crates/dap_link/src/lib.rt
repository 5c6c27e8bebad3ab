//! The conversation with an editor: its messages, as its input frames them, and what the debugger answers to each.
//!
//! `Framer` takes an input piece by piece and hands on the messages, and `Adapter` answers one message after another over a session. What
//! messages an input frames stands in `specs/Frames.antt`, and what is answered in `specs/Conversation.antt`: the requests that a message
//! gives to the machine of a debugger, and what is told of what they lead to.
#![tactic(auto)]

mod adapter;
mod asking;
mod breaking;
mod framer;
mod head;
mod laws;
mod leading;
mod looking;
mod naming;

pub use adapter::{Adapter, Said};
pub use framer::{Framed, Framer};
pub use laws::{
    a_conversation_is_one, messages_are_answered_in_order, pieces_are_one_text,
    what_fails_changes_nothing,
};
pub use naming::last_parts;
