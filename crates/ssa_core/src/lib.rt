//! The parts of a design as flat lists: links and blocks of all instances, and what drives each signal.
#![tactic(auto)]

mod drive;
mod link;
mod process;
mod terms;

pub use drive::{Drive, drives_of, number_of};
pub use link::{Link, LinkValue, links_of};
pub use process::{ProcessKey, process_keys};
pub use terms::block_terms_of;
