//! Lowering, whole: nodes of all signals, then rows, outputs, next values and shape.

ghost use Rattle.std.specs.Prelude.{◌≡◌, None, IfOk, length};
ghost use Rattle.design_core.specs.DesignView.{design_of};
ghost use Rattle.check_core.specs.Verdict.{verdict};
ghost use Rattle.place_core.specs.Orders.{TellsOrder};
ghost use Rattle.lower_core.specs.Lowered.{IsLowered};
ghost use Rattle.ssa_net.specs.Unset.{UnsetByPaths};

use crate::ends::ends_of;
use crate::parts::parts_of;
use crate::signals::signal_nodes;
use design_core::Design;
use lower_core::{Lowered, Mode};
use net_core::NetBuilder;
use place_core::Order;
use shape_net::shape_of;
use std::alloc::Global;
use text_core::{Listed, NoMemory};

/// An accepted design as a net, along an order of its driven signals. Each block is run once for its variant, and each instance of it
/// evaluates the terms of that run over its own signals; inputs of the top and registers are leaves. A name for which a row has no
/// node is one that some path to the statement does not assign, and no other.
pub fn lower(alloc: Global, design: &Design, order: &Order, mode: Mode) -> Result<Lowered, NoMemory>
    requires accepted { verdict (design_of design.now) ≡ None }
    requires order { TellsOrder (design_of design.now) order.now }
    ensures lowered { IfOk result (IsLowered (design_of design.now) (length order.now) mode) }
    ensures unset { UnsetByPaths (design_of design.now) (length order.now) }
{
    let parts = parts_of(alloc, design, order)?;
    let mut builder = NetBuilder::new(alloc)?;
    let (nodes, mut memos) = signal_nodes(alloc, &parts, &mut builder)?;
    let ends = ends_of(alloc, &parts, &mut builder, &nodes, &mut memos)?;
    let shape = shape_of(alloc, design)?;
    Ok(Lowered {
        net: builder.finish(ends.outputs, ends.nexts),
        rows: Listed::new(ends.rows),
        mode,
        shape,
    })
}
