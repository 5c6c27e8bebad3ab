//! What a service has at hand: the sets of listeners that are left, and what each connection left behind.

ghost use Rattle.std.specs.Prelude.{◌≡◌, ◌≤◌, All, length, map, reverse};

use duo_run::Served;
use listen::Listener;
use std::alloc::Global;

/// The sets of listeners that are left, of which the last is taken first, and what the connections left, in order.
#[derive(Drop)]
pub(crate) struct Hall<L> {
    pub(crate) sets: Vec<Vec<Box<dyn Listener>>>,
    pub(crate) served: Vec<Served<L>>,
}

impl<L: Drop> Hall<L> {
    ghost use Rattle.serve_net.specs.Members.{next_of, behind_next};

    /// Takes the last set of listeners, or none where none is left.
    pub(crate) fn next_set(&mut self, alloc: Global) -> Vec<Box<dyn Listener>>
        requires few { All (λ s. length s.items ≤ 65536) self.old.sets.items }
        ensures few { length result.items ≤ 65536 }
        ensures rest { All (λ s. length s.items ≤ 65536) self.new.sets.items }
        ensures next { map (λ b. heard b) result.items ≡ next_of (reverse (map (λ s. map (λ b. heard b) s.items) self.old.sets.items)) }
        ensures left { reverse (map (λ s. map (λ b. heard b) s.items) self.new.sets.items)
            ≡ behind_next (reverse (map (λ s. map (λ b. heard b) s.items) self.old.sets.items)) }
        ensures served { self.new.served ≡ self.old.served }
    {
        match self.sets.pop() {
            Some(set) => set,
            None => Vec::new(alloc),
        }
    }
}
