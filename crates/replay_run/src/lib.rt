//! The debugger over a trace that another simulator wrote: a symbol file and a value change dump file, judged, and walked by a session.
//!
//! What is shown is what the files say: no design is known here, and no value is computed. What a replay asks for is one definition,
//! `specs/Asked.antt`, over what the files hold.
#![tactic(auto)]

mod judge;
mod run;
mod walk;
mod write;

pub use judge::Replay;
pub use run::run_replay;
