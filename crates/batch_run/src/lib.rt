//! A batch of requests, answered by a session one after another, each of them waited for.
//!
//! What is put out is defined of the session's world and of the state that it begins with: `specs/Texts.antt` has the requests that
//! a text holds and the text of the lines, and `specs/Batch.antt` the whole of it.
#![tactic(auto)]

mod batch;
mod lines;
mod put;
mod session;

pub use batch::{asked_in, left, run_batch};
pub use io_edge::SinkEnd;
pub use lines::next_line;
pub use session::write_batch;
