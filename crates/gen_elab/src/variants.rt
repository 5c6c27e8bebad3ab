//! Variants found by module and parameters, in the order of their first instances.

ghost use Rattle.std.specs.Prelude.{◌≡◌, ◌++◌, ◌∷◌, [], IfOk, OnErr, length, if◌then◌else◌, nat_lt};
ghost use Rattle.gen_elab.specs.Keys.{key_place, the_params};

use gen_scope::Scope;
use indexmap::IndexSet;
use std::alloc::Global;
use std::marker::Model;
use text_core::NoMemory;

/// Modules with parameters, no two the same, which are found by both. Contracts see them in the order in which they came.
#[derive(Drop)]
pub(crate) struct Variants {
    keys: IndexSet<(usize, Vec<(Vec<u8>, i64)>)>,
}

impl Model for Variants {
    ghost use Rattle.std.specs.Prelude.{List, map};
    ghost use Rattle.gen_elab.specs.Keys.{Key, the_key};

    ghost Value = { List Key };

    ghost view = { λ v. map the_key v.keys.keys };
}

/// A copy of parameters, as variants are found by them.
fn copied(alloc: Global, params: &Scope) -> Result<Vec<(Vec<u8>, i64)>, NoMemory>
    ensures { IfOk result (λ copy. the_params copy.items ≡ params.now) }
{
    let listed = params.list(alloc)?;
    let mut copy = Vec::new(alloc);
    for (name, number) in &listed {
        copy.push((name.bytes().to_vec(alloc)?, *number))?;
    }
    Ok(copy)
}

impl Variants {
    /// None.
    pub(crate) fn new(alloc: Global) -> Variants
        ensures { result ≡ [] }
    {
        Variants {
            keys: IndexSet::new(alloc),
        }
    }

    /// The place of a module with parameters; the number of variants where it is none of them.
    pub(crate) fn place_of(
        &self,
        alloc: Global,
        place: usize,
        params: &Scope,
    ) -> Result<usize, NoMemory>
        ensures { IfOk result (λ at. at ≡ key_place (place, params.now) self.now) }
    {
        let key = (place, copied(alloc, params)?);
        Ok(self.keys.get_index_of(&key).unwrap_or(self.keys.len()))
    }

    /// The place of a module with parameters, which goes last where it is new.
    pub(crate) fn insert(
        &mut self,
        alloc: Global,
        place: usize,
        params: &Scope,
    ) -> Result<usize, NoMemory>
        ensures at { IfOk result (λ at. at ≡ key_place (place, params.now) self.old) }
        ensures grown { IfOk result (λ at. self.new ≡ (if nat_lt at (length self.old) then self.old else self.old ++ (place, params.now) ∷ [])) }
    {
        let (at, _) = self.keys.insert_full((place, copied(alloc, params)?))?;
        Ok(at)
    }
}
