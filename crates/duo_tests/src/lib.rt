//! Tests of links and doors in memory, of connections and of a hub that are served over them, and of what a session shows.
//!
//! They stand apart from the crates that they test, since a crate with tests is proved twice: with them and without.
#![tactic(auto)]

#[cfg(test)]
mod connections;
#[cfg(test)]
mod ending;
#[cfg(test)]
mod late;
#[cfg(test)]
mod links;
#[cfg(test)]
mod meeting;
#[cfg(test)]
mod running;
#[cfg(test)]
mod sharing;
#[cfg(test)]
mod shown;
#[cfg(test)]
mod steady;
