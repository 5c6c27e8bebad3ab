//! A debugger over an accepted design that converses with an editor.
//!
//! The session is made anew, from the start of the design's run. `specs/Conversations.antt` says that what is written is the text of the
//! conversation over each run of what is shown. No contract says that more of the input comes, nor that a conversation ends.
#![tactic(auto)]

mod talking;

pub use talking::converse;
