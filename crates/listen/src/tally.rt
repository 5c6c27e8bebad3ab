//! Counts by key with a bound. All room is taken at once, since a stop can neither fail nor take memory.

ghost use Rattle.std.specs.Prelude.{◌≡◌, ◌<◌, ◌≤◌, ◌+◌, [], length, slice_get, Some, IfOk};
ghost use Rattle.indexmap.specs.IndexMap.{spare};
ghost use Rattle.listen.specs.Pairs.{counted};

use indexmap::IndexMap;
use std::alloc::{AllocError, Global};
use std::marker::Model;

/// The most keys that are counted.
const MOST_KEYS: usize = 1024;

/// Counts by key, in the order in which the keys came. It has room for all the keys that it may take.
#[derive(Drop)]
pub(crate) struct Tally {
    counts: IndexMap<u64, u64>,

    ghost room: { 1024 ≤ length counts.entries + spare counts },
}

impl Model for Tally {
    ghost use Rattle.std.specs.Prelude.{List, ℕ};

    ghost Value = { List (ℕ × ℕ) };

    ghost view = { λ t. t.counts.entries };
}

impl Tally {
    /// No pairs, and room for all.
    pub(crate) fn new(alloc: Global) -> Result<Tally, AllocError>
        ensures { IfOk result (λ tally. tally ≡ []) }
    {
        Ok(Tally {
            counts: IndexMap::with_capacity(alloc, MOST_KEYS)?,
        })
    }

    /// One more of this key.
    #[tactic(auto, using(crate::proofs::Counting::counted_present, crate::proofs::Counting::counted_absent, crate::proofs::Counting::inserted))]
    pub(crate) fn count(&mut self, key: u64)
        ensures { self.new ≡ counted key self.old }
    {
        if let Some(place) = self.counts.get_index_of(&key) {
            let count = self.counts[place];
            self.counts[place] = count.saturating_add(1);
        } else if self.counts.len() < MOST_KEYS {
            self.counts.insert(key, 1).unwrap();
        }
    }

    /// How many keys there are.
    pub(crate) fn len(&self) -> usize
        ensures { result ≡ length self.now }
    {
        self.counts.len()
    }

    /// The pair of a number.
    pub(crate) fn pair(&self, i: usize) -> (u64, u64)
        requires { i < length self.now }
        ensures { slice_get self.now i ≡ Some result }
    {
        let (key, count) = self.counts.get_index(i).unwrap();
        (*key, *count)
    }
}
