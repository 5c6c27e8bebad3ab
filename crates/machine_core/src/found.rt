//! What a search answers, from a place; and what two searches from one place answer together.

ghost use Rattle.std.specs.Prelude.{◌≡◌, ◌<◌, ◌≤◌, ◌≤ℤ◌, ◌^◌, ℕ, pos, negsuc};
ghost use Rattle.machine_core.specs.Search.{found_or, nearer_of, nearer_found, told_of, place_of};

use trace_core::{Scanned, Way};

/// What a search from a place answers.
#[derive(Clone, Copy, PartialEq, Eq)]
pub enum Found {
    /// The nearest position that matches.
    At(u64),
    /// None matches before the end, or before the start where the way is backward.
    Edge,
    /// None matches among those that one search looks at, and there are more.
    Nowhere,
}

/// Of two positions ahead the nearer.
fn nearer_of(way: Way, one: u64, other: u64) -> u64
    ensures { result ≡ nearer_of way one other }
{
    match way {
        Way::Forward => one.min(other),
        Way::Backward => one.max(other),
    }
}

impl Found {
    /// The nearest match, if there is one; else whether the edge is near.
    pub fn new(nearest: Option<u64>, near: bool) -> Found
        ensures { result ≡ found_or nearest near }
    {
        match nearest {
            Some(p) => Found::At(p),
            None if near => Found::Edge,
            None => Found::Nowhere,
        }
    }

    /// The nearer of what two searches from one place found.
    pub fn nearer(way: Way, one: Found, other: Found) -> Found
        ensures { result ≡ nearer_found way one other }
    {
        match (one, other) {
            (Found::At(p), Found::At(q)) => Found::At(nearer_of(way, p, q)),
            (Found::At(p), _) => Found::At(p),
            (_, other) => other,
        }
    }
}

/// What a search found, as whoever asked for it is told.
pub fn told(found: Found) -> Scanned
    requires { (p : ℕ) → found ≡ Found.At p → p < 2 ^ 62 }
    ensures { result ≡ told_of found }
{
    match found {
        Found::At(p) => Scanned::Hit(p as i64),
        Found::Edge => Scanned::Edge,
        Found::Nowhere => Scanned::Nowhere,
    }
}

/// The place of a position, where -1 is the start.
pub fn place_of(at: i64) -> u64
    requires from { negsuc 0 ≤ℤ at }
    requires to { at ≤ℤ pos (2 ^ 62) }
    ensures { result ≡ place_of at }
{
    (at + 1) as u64
}
