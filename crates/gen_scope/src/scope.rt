//! The generator variables in scope, as a chain from inner to outer, shared by all bodies that stand in it.

ghost use Rattle.std.specs.Prelude.{◌≡◌, [], IfOk};
ghost use Rattle.gen_scope.specs.Gens.{find, without, bound};
ghost use Rattle.gen_scope.specs.Chain.{gens_of};

use crate::Params;
use std::alloc::{AllocError, Global};
use std::boxed::Box;
use std::marker::Model;
use std::rc::Rc;
use text_core::{NoMemory, Text};

/// Parameters, or a turn of a loop inside of others.
#[derive(Drop)]
enum Chain {
    Params(Box<Params>),
    Turn {
        outer: Rc<Chain>,
        name: Rc<Text>,
        number: i64,
    },
}

/// The names that have a number at a place: the parameters of an instance, and the variables of the loops round the place.
/// Contracts see the list of them: the parameters in order, then the variables from outer to inner, without those that are
/// hidden.
#[derive(Drop)]
pub struct Scope {
    chain: Option<Rc<Chain>>,
}

impl Model for Scope {
    ghost use Rattle.gen_scope.specs.Gens.{Gens};

    ghost Value = { Gens };

    ghost use Rattle.gen_scope.specs.Chain.{gens_in};

    ghost view = { λ s. gens_in s.chain };
}

impl Scope {
    /// No names. Takes no memory.
    pub fn empty() -> Scope
        ensures { result ≡ [] }
    {
        Scope { chain: None }
    }

    /// These parameters.
    pub fn new(alloc: Global, params: Params) -> Result<Scope, NoMemory>
        ensures { IfOk result (λ scope. scope ≡ params) }
    {
        let params = Box::new(alloc, params)?;
        let chain = Rc::new(alloc, Chain::Params(params))?;
        Ok(Scope { chain: Some(chain) })
    }

    /// A turn of a loop inside of this, whose variable has this number; an outer one of its name is hidden. The names
    /// outside are shared, and so is the variable's own by the turns that are given it.
    pub fn inner(&self, alloc: Global, name: &Rc<Text>, number: i64) -> Result<Scope, NoMemory>
        ensures { IfOk result (λ scope. scope ≡ bound name.now.value number self.now) }
    {
        let outer = match &self.chain {
            Some(chain) => chain.clone()?,
            None => Rc::new(alloc, Chain::Params(Box::new(alloc, Params::new(alloc))?))?,
        };
        let chain = Rc::new(
            alloc,
            Chain::Turn {
                outer,
                name: name.clone()?,
                number,
            },
        )?;
        Ok(Scope { chain: Some(chain) })
    }

    /// The number of a name. None where the name has none.
    pub fn number_of(&self, name: &[u8]) -> Option<i64>
        ensures { result ≡ find self.now name.now }
    {
        match &self.chain {
            Some(chain) => number_in(chain, name),
            None => None,
        }
    }

    /// All names with their numbers.
    pub fn list(&self, alloc: Global) -> Result<Vec<(Text, i64)>, NoMemory>
        ensures { IfOk result (λ gens. gens.items ≡ self.now) }
    {
        match &self.chain {
            Some(chain) => list_of(alloc, chain),
            None => Ok(Vec::new(alloc)),
        }
    }
}

impl Clone for Scope {
    ghost is_clone = { λ scope copy. copy ≡ scope };

    /// The same names, shared. Takes no memory, and fails only where they are shared too often.
    fn clone(&self) -> Result<Scope, AllocError> {
        match &self.chain {
            Some(chain) => Ok(Scope {
                chain: Some(chain.clone()?),
            }),
            None => Ok(Scope { chain: None }),
        }
    }
}

/// The number of a name. None where the name has none.
#[tactic(auto, using(crate::proofs::Names::find_steps))]
fn number_in(chain: &Chain, name: &[u8]) -> Option<i64>
    ensures { result ≡ find (gens_of chain.now) name.now }
{
    match chain {
        Chain::Params(params) => params.number_of(name),
        Chain::Turn {
            name: inner,
            number,
            ..
        } if inner.bytes() == name => Some(*number),
        Chain::Turn { outer, .. } => number_in(outer, name),
    }
}

/// All names with their numbers.
#[tactic(auto, using(crate::proofs::Names::without_none))]
fn list_of(alloc: Global, chain: &Chain) -> Result<Vec<(Text, i64)>, NoMemory>
    ensures { IfOk result (λ gens. gens.items ≡ gens_of chain.now) }
{
    match chain {
        Chain::Params(params) => {
            let gens = params.list(alloc)?;
            Ok(gens)
        }
        Chain::Turn {
            outer,
            name,
            number,
        } => {
            let gens = list_of(alloc, outer)?;
            let mut gens = match number_in(outer, name.bytes()) {
                None => gens,
                Some(_) => hidden(alloc, gens, name.bytes())?,
            };
            let name = Text::new(alloc, name.bytes())?;
            gens.push((name, *number))?;
            Ok(gens)
        }
    }
}

/// All names but this one.
fn hidden(alloc: Global, gens: Vec<(Text, i64)>, name: &[u8]) -> Result<Vec<(Text, i64)>, NoMemory>
    ensures { IfOk result (λ rest. rest.items ≡ without name.now gens.items) }
{
    let mut rest = Vec::new(alloc);
    for other in gens {
        if other.0.bytes() != name {
            rest.push(other)?;
        }
    }
    Ok(rest)
}
