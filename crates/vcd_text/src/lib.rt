//! Value change dump files as they are written (IEEE Std 1364-2005, section 18.2): their text, and what it means when it is
//! read. Both are defined in `specs`; nothing is computed here.
#![tactic(auto)]

mod laws;

pub use laws::{dumps_are_read, waves_are_told};
