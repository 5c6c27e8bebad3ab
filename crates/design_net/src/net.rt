//! From an accepted design to what is kept of it, in one call: lowered, and trimmed.

ghost use Rattle.std.specs.Prelude.{◌≡◌, None, IfOk, length};
ghost use Rattle.design_core.specs.DesignView.{design_of};
ghost use Rattle.check_core.specs.Verdict.{verdict};
ghost use Rattle.place_core.specs.Orders.{TellsOrder};
ghost use Rattle.trim_core.specs.Trimmed.{IsTrimmed};

use design_core::Design;
use lower_core::Mode;
use net_core::Net;
use net_trim::trim;
use place_core::Order;
use ssa_net::lower;
use std::alloc::Global;
use symtab::Table;
use text_core::NoMemory;

/// A design compiled: the net of what is kept of it, and the symbol table that tells where.
#[derive(Drop)]
pub struct Compiled {
    pub net: Net,
    pub table: Table,
}

/// Lowers an accepted design, and trims what was lowered: the net keeps exactly what this mode keeps, and the table tells where.
pub fn compile(
    alloc: Global,
    design: &Design,
    order: &Order,
    mode: Mode,
) -> Result<Compiled, NoMemory>
    requires accepted { verdict (design_of design.now) ≡ None }
    requires order { TellsOrder (design_of design.now) order.now }
    ensures ok { IfOk result (λ made. IsTrimmed (design_of design.now) (length order.now) mode made.net made.table) }
{
    let lowered = lower(alloc, design, order, mode)?;
    let (net, table) = trim(alloc, lowered)?;
    Ok(Compiled { net, table })
}
