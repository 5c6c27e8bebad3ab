//! The symbol file of an accepted design, as one line.

ghost use Rattle.std.specs.Prelude.{◌≡◌, ◌≤◌, None, IfOk, OnOk, OnErr, IsErrOf, length};
ghost use Rattle.io_edge.specs.Faults.{Rose};
ghost use Rattle.io_edge.specs.Taken.{Appends, AppendsFront};
ghost use Rattle.design_core.specs.DesignView.{design_of};
ghost use Rattle.check_core.specs.Verdict.{verdict};
ghost use Rattle.place_core.specs.Orders.{TellsOrder};
ghost use Rattle.net_core.specs.Nets.{NetParts};
ghost use Rattle.symtab.specs.declared.parts.TableParts.{TableParts};
ghost use Rattle.trim_core.specs.Trimmed.{IsTrimmed};
ghost use Rattle.trim_core.specs.KeptTable.{kept_table};
ghost use Rattle.symbol_net.specs.Line.{symbols_line};

use crate::SinkEnd;
use design_core::Design;
use design_net::compile;
use io_edge::{Sink, put_all};
use lower_core::Mode;
use place_core::Order;
use std::alloc::Global;
use symtab::Table;
use symtab_json::write_table;
use text_core::NoMemory;

/// The symbol file of a table, and a line feed.
fn line_of(alloc: Global, table: &Table) -> Result<Vec<u8>, NoMemory>
    ensures { IfOk result (λ line. line.items ≡ symbols_line table.now) }
{
    let mut line = write_table(alloc, table)?;
    line.push(b'\n')?;
    Ok(line)
}

/// Writes the symbol file of an accepted design, and a line feed: the table of exactly the trees that this mode keeps. Where it
/// fails, the sink took a front of the text.
pub fn write_symbols<S: Sink>(
    alloc: Global,
    design: &Design,
    order: &Order,
    mode: Mode,
    out: &mut S,
) -> Result<(), SinkEnd>
    requires accepted { verdict (design_of design.now) ≡ None }
    requires order { TellsOrder (design_of design.now) order.now }
    ensures ok { OnOk result (Appends (S.taken out.old) (S.taken out.new) (symbols_line (kept_table (design_of design.now) (length order.now) mode))) }
    ensures front { OnErr result (AppendsFront (S.taken out.old) (S.taken out.new) (symbols_line (kept_table (design_of design.now) (length order.now) mode))) }
    ensures compiled { OnOk result ((net : NetParts) × (parts : TableParts) × IsTrimmed (design_of design.now) (length order.now) mode net parts) }
    ensures failed { IsErrOf result SinkEnd.Failed → Rose (S.fault_count out.old) (S.fault_count out.new) }
    ensures later { S.fault_count out.old ≤ S.fault_count out.new }
{
    let compiled = compile(alloc, design, order, mode)?;
    let line = line_of(alloc, &compiled.table)?;
    put_all(&line, out)
}
