//! What an elaborated design is refused for is there: where its expressions are typed, its names declared, its signals driven once and its
//! paths assign in time, it is not refused for widths, names, drivers, latches or early reads. This crate has laws alone. It computes nothing.
#![tactic(auto)]

mod laws;

pub use laws::{
    accepted_are_typed, assigned_in_time_are_not_refused, driven_once_are_not_refused,
    known_names_are_not_refused, refusals_are_of_their_kind, typed_are_not_refused,
};
