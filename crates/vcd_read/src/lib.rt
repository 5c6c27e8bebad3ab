//! Reads a value change dump file, the trace that logic simulators write (IEEE Std 1364-2005, section 18.2).
#![tactic(auto)]

mod body;
mod changes;
mod codes;
mod fault;
mod head;
mod laws;
mod numbers;
mod read;
mod scope;
mod scopes;
mod texts;
mod variable;
mod vars;
mod vcd;
mod words;

pub use fault::VcdFault;
pub use laws::examples;
pub use read::read_vcd;
pub use scope::VcdScope;
pub use variable::VcdVar;
pub use vcd::Vcd;
