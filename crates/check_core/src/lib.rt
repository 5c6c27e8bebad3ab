//! What is refused in an elaborated design, and what the code that looks for it stands on.
//!
//! The definitions stand in `specs/`: names and ports (`specs/Names.antt`, `specs/Ports.antt`), widths
//! (`specs/Widths.antt`), drivers (`specs/Drivers.antt`), paths through a block (`specs/Paths.antt`), and the order in which
//! they are tested (`specs/Verdict.antt`).
#![tactic(auto)]

mod fault;
mod kinds;
mod laws;
mod spots;

pub use fault::{CheckFault, Clash, Refusal, Spot};
pub use kinds::{Kinds, names_of};
pub use laws::checks_the_samples;
pub use spots::spot;
