//! A conversation with an editor over an input and an output: messages are taken off the input as it comes, and each is answered before more of
//! it is waited for.
//!
//! What was written is the text of the conversation of what was taken, however it was cut into pieces: `specs/Talks.antt` says so, by the
//! definitions of `dap_link`. No contract says that a piece comes.
#![tactic(auto)]

mod conversing;
mod ends;
mod write;

pub use conversing::talk;
pub use ends::TalkEnd;
