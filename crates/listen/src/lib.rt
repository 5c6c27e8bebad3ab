//! Listeners of a session's stops, and three that count them: by line, by cycle, and by slot those where a watch matches.
//!
//! What a stop makes of a listener's pairs is defined in `specs/Pairs.antt`.
#![tactic(auto)]

mod hits;
mod laws;
mod listener;
mod note;
mod tally;

pub use hits::{CycleHits, LineHits, ToggleHits};
pub use laws::counts_the_sample;
pub use listener::Listener;
pub use note::StopNote;
