//! What elaboration means: a walk over the modules of all sources, whose events come in order, and the design that comes out of it.
//!
//! The definitions stand in `specs/`; the functions here are laws of them. Beside them stand the types in which the code
//! that walks keeps what it meets.
#![tactic(auto)]

mod fault;
mod instance;
mod laws;

pub use fault::{Count, ElabFault};
pub use instance::{Child, Content, Instance};
pub use laws::{by_substitution, elaborates_the_samples, first_faulty_event};
