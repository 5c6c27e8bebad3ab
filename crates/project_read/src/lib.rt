//! Reads the files of a design: its source, and those that it imports.
//!
//! Files have numbers: the source that is named is file 0, and the files of imports get the next ones, each once. They are
//! taken by number; each is read, and then its imports are numbered in order. What that comes to is one definition,
//! `specs/Projects.antt`; which names are asked for stands in `specs/Asking.antt`.
#![tactic(auto)]

mod end;
mod laws;
mod names;
mod project;

pub use end::ProjectEnd;
pub use laws::{files_are_one_project, numbers_are_given_once, numbers_are_so};
pub use project::{Project, read_named, read_project};
