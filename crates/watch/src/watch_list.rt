//! The watches that are armed. They have a file of their own, as what is kept in their type stands on few definitions.

ghost use Rattle.std.specs.Prelude.{◌≤◌, length};

use crate::watched::Watched;
use std::alloc::Global;

/// The watches that are armed, and how many numbers were given.
#[derive(Drop)]
pub struct WatchList {
    pub(crate) watched: Vec<Watched>,
    pub(crate) given: u64,
    pub(crate) alloc: Global,
    ghost few: { length watched.items ≤ 256 },
}
