//! What is given gets its nodes first, since nothing drives it.

ghost use Rattle.std.specs.Prelude.{◌≡◌, ◌<◌, length, IfOk, OnOk};
ghost use Rattle.tree_core.specs.Tree.{Leaf};
ghost use Rattle.tree_core.specs.Width.{IsOrigin};
ghost use Rattle.list_core.specs.Lists.{IsIn};
ghost use Rattle.design_exec.specs.Processes.{processes_of};
ghost use Rattle.design_core.specs.Widths.{bits};
ghost use Rattle.net_core.specs.Builder.{AreShared, Stands, Adds, Keeps};
ghost use Rattle.ssa_nodes.specs.State.{AllOverGivens};
ghost use Rattle.ssa_nodes.specs.Parts.{HasParts, HasSignals, design_in};
ghost use Rattle.ssa_nodes.specs.Driving.{GivenHave, Resolved};
ghost use Rattle.ssa_nodes.specs.Givens.{given_as};

use crate::given::{Given, GivenSource, givens_of};
use crate::{Parts, is_placed};
use bv_core::{Bv, NodeId};
use design_core::{bits, constant};
use net_core::NetBuilder;
use ssa_core::number_of;
use std::alloc::Global;
use text_core::NoMemory;

/// The node of a given signal.
fn given_node(builder: &mut NetBuilder, given: &Given<'_>) -> Result<NodeId, NoMemory>
    requires { IsOrigin (given_as given.now).1 }
    ensures stands { IfOk result (λ id. Stands builder.new id.0 (Leaf (given_as given.now).1)) }
    ensures adds { OnOk result (Adds builder.old builder.new (Leaf (given_as given.now).1)) }
    ensures keeps { OnOk result (Keeps builder.old builder.new) }
    ensures shared { OnOk result (AreShared builder.new) }
{
    match given.source {
        GivenSource::Input(width) => builder.input(given.name, bits(width)),
        GivenSource::Register(path, start) => {
            builder.register(path, given.name, constant(start.width, start.value))
        }
    }
}

/// Gives its node to a given signal.
fn place_given(
    parts: &Parts<'_>,
    builder: &mut NetBuilder,
    nodes: &mut [Option<NodeId>],
    given: &Given<'_>,
) -> Result<(), NoMemory>
    requires parts { HasParts parts.now }
    requires long { length nodes.old ≡ parts.now.count }
    requires given { IsIn (given_as given.now) (processes_of (design_in parts.now)).givens }
    requires signals { HasSignals parts.now builder.old nodes.old }
    requires over { AllOverGivens (processes_of (design_in parts.now)) builder.old }
    ensures placed { OnOk result (Resolved parts.now nodes.old nodes.new (given_as given.now).0) }
    ensures signals { OnOk result (HasSignals parts.now builder.new nodes.new) }
    ensures over { OnOk result (AllOverGivens (processes_of (design_in parts.now)) builder.new) }
{
    let number = number_of(&parts.maps, given.instance, given.name).unwrap();
    if is_placed(nodes, number) {
        return Ok(());
    }
    let id = given_node(builder, given)?;
    nodes[number as usize] = Some(id);
    Ok(())
}

/// Gives their nodes to all inputs of the top and all registers.
pub fn place_givens(
    alloc: Global,
    parts: &Parts<'_>,
    builder: &mut NetBuilder,
    nodes: &mut [Option<NodeId>],
) -> Result<(), NoMemory>
    requires parts { HasParts parts.now }
    requires long { length nodes.old ≡ parts.now.count }
    requires signals { HasSignals parts.now builder.old nodes.old }
    requires over { AllOverGivens (processes_of (design_in parts.now)) builder.old }
    ensures given { OnOk result (GivenHave parts.now nodes.new) }
    ensures signals { OnOk result (HasSignals parts.now builder.new nodes.new) }
    ensures over { OnOk result (AllOverGivens (processes_of (design_in parts.now)) builder.new) }
{
    let list = givens_of(alloc, parts.design)?;
    for given in &list {
        place_given(parts, builder, nodes, given)?;
    }
    Ok(())
}
