//! Samples of what is defined, worked by hand: parameters with defaults, stimuli, value change dump files, a design of which
//! not all is kept, and one with a `case` and parts. Each is computed from the definitions alone; nothing is computed here.
#![tactic(auto)]

mod laws;

pub use laws::{cases_by_hand, dumps_by_hand, keeps_by_hand, parameters_by_hand, stimuli_by_hand};
