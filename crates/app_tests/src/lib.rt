//! Tests of the program over files, an input, a sink, a door and links in memory: what the built program cannot show.
//!
//! Its texts and statuses are cases of `outside/`, over real files. Here stand the files that are asked for, reads and puts that
//! fail, and how much was taken by then. What is wanted was worked out from what the commands are to do.
#![tactic(auto)]

#[cfg(test)]
mod editors;
#[cfg(test)]
mod round_robin;
#[cfg(test)]
mod runs;
#[cfg(test)]
mod services;
