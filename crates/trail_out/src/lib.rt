//! The trail that a symbol table and a trace tell, as text.
#![tactic(auto)]

mod laws;
mod line;
mod rows;

pub use io_edge::SinkEnd;
pub use laws::texts_are_trails;
pub use rows::write_trail;
