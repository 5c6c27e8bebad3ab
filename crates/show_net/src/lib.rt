//! What a debugger over an accepted design shows to whoever attaches: the runs of the design over rows, with all names or with those that
//! are needed anyway.
//!
//! Each client, each hub of clients and each editor gets a session over a table and a trace of its own. `specs/` has the definitions: `Over`
//! what is shown, and `Readied` that a table and samples tell its runs.
#![tactic(auto)]

mod service;

pub use service::{Service, Shown, ready_for};
