//! The order in which the driven signals of an elaborated design can be computed; or a loop of signals that depend on one
//! another.
#![tactic(auto)]

mod answer;
mod block;
mod driven;
mod instances;
mod laws;
mod maps;
mod reading;
mod signals;
mod wiring;

pub use answer::OrderFault;
pub use driven::order;
pub use laws::{
    accepted_drivers, drivers_in_order, loops_of_the_samples, not_both, numbers_answer,
    order_or_loop, vertices_are_signals,
};
pub use signals::order_signals;
