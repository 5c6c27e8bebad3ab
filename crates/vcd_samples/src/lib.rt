//! The samples that a value change dump file tells (IEEE Std 1364-2005, section 18.2): what its variables are in each cycle of
//! its clock. They are defined in `specs/Samples.antt`; nothing is computed here.
#![tactic(auto)]

mod laws;

pub use laws::samples_by_hand;
