//! The signals of all instances of a design by number: the numbers, the names that a block assigns, the instances below an instance, and
//! an order of the driven signals. Those who order a design and those who lower it stand on this, and the latter need not wait for the
//! former.
#![tactic(auto)]

mod assigned;
mod below;
mod laws;
mod numbering;
mod order;

pub use assigned::{assigned_in, assigned_in_either};
pub use below::numbers_by_parent;
pub use laws::signals_are_numbered;
pub use numbering::number_signals;
pub use order::Order;
