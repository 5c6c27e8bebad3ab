//! Where an integer's names are looked up. A default sees the parameters before it alone, and everything else a scope.

ghost use Rattle.std.specs.Prelude.{◌≡◌};
ghost use Rattle.gen_scope.specs.Gens.{find};
ghost use Rattle.elab_base.specs.Names.{gens_of};

use gen_scope::{Params, Scope};

/// Where names are looked up: in a scope, or among parameters that are not all there yet.
#[derive(Drop)]
pub(crate) enum Names<'a> {
    Scope(&'a Scope),
    Params(&'a Params),
}

impl Names<'_> {
    /// The number of a name. None where the name has none.
    pub(crate) fn number_of(&self, name: &[u8]) -> Option<i64>
        ensures { result ≡ find (gens_of self.now) name.now }
    {
        match self {
            Names::Scope(scope) => scope.number_of(name),
            Names::Params(params) => params.number_of(name),
        }
    }
}
