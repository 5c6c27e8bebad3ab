//! Modules by name. That two have one name is a fault only where the name is asked for, so it is looked up and not judged beforehand.

ghost use Rattle.std.specs.Prelude.{◌≡◌, ◌≤◌, IfOk};
ghost use Rattle.gen_tree.specs.View.{module_of, lent_of};
ghost use Rattle.elab_core.specs.Results.{AnswersWith, NoMemoryOr};
ghost use Rattle.elab_core.specs.Elab.{module_named};
ghost use Rattle.elab_walk.specs.Modules.{LeadsTo};

use elab_core::ElabFault;
use gen_tree::Module;
use indexmap::IndexMap;
use std::alloc::Global;
use text_core::Text;

/// The modules of all sources, found by name.
#[derive(Drop)]
pub(crate) struct Modules<'m> {
    pub(crate) all: &'m [&'m Module],
    /// The place of the module of a name. None: several modules have it.
    by_name: IndexMap<Vec<u8>, Option<usize>>,
    ghost leads: { LeadsTo by_name.entries (lent_of all.now) },
}

impl<'m> Modules<'m> {
    /// These modules, found by name.
    pub(crate) fn of(alloc: Global, all: &'m [&'m Module]) -> Result<Modules<'m>, ElabFault>
        ensures { NoMemoryOr (λ modules. modules.all.now ≡ all.now) result }
    {
        let mut by_name = IndexMap::new(alloc);
        for (place, module) in all.iter().enumerate() {
            let name = module.name.bytes();
            let found = match by_name.get(name) {
                None => Some(place),
                Some(_) => None,
            };
            by_name.insert(name.to_vec(alloc)?, found)?;
        }
        Ok(Modules { all, by_name })
    }

    /// The one module of a name, with its place among all. It is a fault on this line if there is none, or more than one.
    pub(crate) fn named(
        &self,
        alloc: Global,
        line: u32,
        name: &[u8],
    ) -> Result<(usize, &'m Module), ElabFault>
        ensures { AnswersWith (λ found. (found.0, module_of found.1.now)) result (module_named (lent_of self.now.all.now) line name.now) }
    {
        match self.by_name.get(name).copied() {
            Some(Some(place)) => Ok((place, self.all[place])),
            _ => {
                let name = Text::new(alloc, name)?;
                Err(ElabFault::UnknownModule { line, name })
            }
        }
    }
}
