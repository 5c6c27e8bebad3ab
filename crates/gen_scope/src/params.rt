//! Parameters with their numbers, found by name and kept in order.

ghost use Rattle.std.specs.Prelude.{◌≡◌, [], ◌∷◌, ◌++◌, IfOk, OnOk, OnErr, None};
ghost use Rattle.gen_scope.specs.Gens.{find};

use indexmap::IndexMap;
use std::alloc::Global;
use std::marker::Model;
use text_core::{NoMemory, Text};

/// Parameters with their numbers, in order, found by name. Contracts see the list of them.
#[derive(Drop)]
pub struct Params {
    numbers: IndexMap<Vec<u8>, i64>,
}

impl Model for Params {
    ghost use Rattle.std.specs.Prelude.{map};
    ghost use Rattle.gen_scope.specs.Gens.{Gens};

    ghost Value = { Gens };

    ghost view = { λ p. map (λ g. (g.0.items, g.1)) p.numbers.entries };
}

impl Params {
    /// No parameters. Takes no memory.
    pub fn new(alloc: Global) -> Params
        ensures { result ≡ [] }
    {
        Params {
            numbers: IndexMap::new(alloc),
        }
    }

    /// The number of a parameter. None where there is none of this name.
    pub fn number_of(&self, name: &[u8]) -> Option<i64>
        ensures { result ≡ find self.now name.now }
    {
        self.numbers.get(name).copied()
    }

    /// A parameter more, behind the others; where memory runs out, they stay as they were.
    pub fn push(&mut self, alloc: Global, name: &[u8], number: i64) -> Result<(), NoMemory>
        requires { find self.old name.now ≡ None }
        ensures ok { OnOk result (self.new ≡ self.old ++ (name.now, number) ∷ []) }
        ensures err { OnErr result (self.new ≡ self.old) }
    {
        self.numbers.insert(name.to_vec(alloc)?, number)?;
        Ok(())
    }

    /// All parameters, in order.
    pub fn list(&self, alloc: Global) -> Result<Vec<(Text, i64)>, NoMemory>
        ensures { IfOk result (λ gens. gens.items ≡ self.now) }
    {
        let mut gens = Vec::new(alloc);
        for (name, number) in &self.numbers {
            gens.push((Text::new(alloc, name)?, *number))?;
        }
        Ok(gens)
    }
}
