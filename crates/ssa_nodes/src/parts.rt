//! What lowering looks things up in, with what it keeps: the parts are those of one design.

ghost use Rattle.std.specs.Prelude.{◌≡◌};
ghost use Rattle.names.specs.Maps.{value_of};
ghost use Rattle.ssa_nodes.specs.State.{names_in};
ghost use Rattle.ssa_nodes.specs.Parts.{HasParts, all_in};

use block_net::BlockTerms;
use design_core::Design;
use names::NameMap;
use place_core::Order;
use ssa_core::{Drive, Link, ProcessKey};

/// What lowering looks things up in: the design with an order of its driven signals, the numbers of its signals, its links and
/// processes, the terms of its blocks, and what drives each signal.
#[derive(Drop)]
pub struct Parts<'a> {
    pub design: &'a Design,
    pub order: &'a Order,
    /// A map for each instance.
    pub maps: Vec<NameMap<u32>>,
    /// How many signals have numbers.
    pub count: usize,
    pub links: Vec<Link<'a>>,
    pub keys: Vec<ProcessKey>,
    /// The terms of each block of each variant.
    pub blocks: Vec<Vec<BlockTerms>>,
    /// What drives the signal of each number.
    pub drives: Vec<Option<Drive>>,
    /// No names.
    pub nobody: NameMap<u32>,
}

/// The numbers of the names of an instance.
pub fn names_of<'p>(parts: &'p Parts<'_>, instance: u32) -> &'p NameMap<u32>
    requires { HasParts parts.now }
    ensures { value_of result.now ≡ names_in (all_in parts.now) instance }
{
    match parts.maps.get(instance as usize) {
        Some(map) => map,
        None => &parts.nobody,
    }
}
