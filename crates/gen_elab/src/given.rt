//! Parameters that are given to the top from outside, as the words of a command line do.

ghost use Rattle.std.specs.Prelude.{◌≡◌, ◌++◌, ◌∷◌, [], IfOk, OnErr};
ghost use Rattle.design_core.specs.Design.{AreInRange, IsInRange};

use std::alloc::Global;
use std::marker::Model;
use text_core::{NoMemory, Text};

/// Parameters that are given to the top, in order, with numbers from -2^62 to 2^62. Contracts see the list.
#[derive(Drop)]
pub struct Given {
    alloc: Global,
    params: Vec<(Text, i64)>,
}

impl Model for Given {
    ghost use Rattle.design_core.specs.Design.{Gens, AreInRange};

    ghost Value = { Gens };

    ghost view = { λ g. g.params.items };

    ghost invariant = { λ g. AreInRange g.params.items };
}

impl Given {
    /// No parameters. Takes no memory.
    pub fn new(alloc: Global) -> Given
        ensures { result ≡ [] }
    {
        Given {
            alloc,
            params: Vec::new(alloc),
        }
    }

    #[tactic(auto, using(crate::proofs::Ranges::in_range_behind))]
    /// Adds a parameter last; the number is from -2^62 to 2^62. Fails only where memory runs out, and then changes nothing.
    pub fn add(&mut self, name: &[u8], number: i64) -> Result<(), NoMemory>
        requires { IsInRange number }
        ensures added { IfOk result (λ done. self.new ≡ self.old ++ (name.now, number) ∷ []) }
        ensures err { OnErr result (self.new ≡ self.old) }
    {
        let name = Text::new(self.alloc, name)?;
        self.params.push((name, number))?;
        Ok(())
    }

    /// The parameters in order.
    pub fn params(&self) -> &[(Text, i64)]
        ensures listed { result.now ≡ self.now }
        ensures in_range { AreInRange result.now }
    {
        &self.params
    }
}
