//! Names that have numbers: the parameters of an instance, and the variables of the loops round a place, shared by scope.
#![tactic(auto)]

mod params;
mod scope;

pub use params::Params;
pub use scope::Scope;
