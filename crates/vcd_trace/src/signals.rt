//! The variables of a scope by their names, and of these the clock and the nodes that a table names.

ghost use Rattle.std.specs.Prelude.{◌≡◌, ◌<◌, ℕ, List, IfOk, OnOk, Some, None, length, slice_get, bytes_eq, get_or, false, if◌then◌else◌};
ghost use Rattle.std.specs.List.{list_any};
ghost use Rattle.std.specs.Option.{option_or};
ghost use Rattle.names.specs.Maps.{value_of};
ghost use Rattle.vcd_read.specs.Head.{Var};
ghost use Rattle.vcd_trace.specs.Refused.{refusal, Judges};
ghost use Rattle.vcd_trace.specs.Bound.{found_if, found_fault, signal_of, signal_fault, signals_from, signals_fault, found_named, IsBound};

use crate::BindFault;
use crate::found::Found;
use crate::marks::marks_of;
use names::NameMap;
use std::alloc::Global;
use symtab::{NodeName, Table};
use text_core::{NoMemory, Text};
use vcd_read::Vcd;

/// Puts a variable in, unless there is one of its name.
#[tactic(auto, using(crate::proofs::Finding::stays, crate::proofs::Finding::added))]
fn put_first(
    map: &mut NameMap<Found>,
    alloc: Global,
    name: &[u8],
    found: Found,
) -> Result<(), NoMemory>
    ensures { OnOk result ((x : List ℕ) → value_of map.new x ≡ option_or (value_of map.old x) (if bytes_eq name.now x then Some found else None)) }
{
    if map.get(name).is_none() {
        map.put(alloc, name, found)?;
    }
    Ok(())
}

/// Puts the variable of a place in, if its values are bits, and unless there is one of its name.
fn put_var(map: &mut NameMap<Found>, alloc: Global, vcd: &Vcd, place: u64) -> Result<(), NoMemory>
    requires { place < length vcd.now.vars }
    ensures { OnOk result ((x : List ℕ) (var : Var) → slice_get vcd.now.vars place ≡ Some var
        → value_of map.new x ≡ option_or (value_of map.old x) (found_if x var)) }
{
    let var = vcd.var(place);
    if var.counted {
        let found = Found {
            code: var.code,
            size: var.size,
        };
        put_first(map, alloc, var.name, found)?;
    }
    Ok(())
}

/// The variables of a scope by their names, the first of each name.
fn names_in(alloc: Global, vcd: &Vcd, scope: &str) -> Result<NameMap<Found>, NoMemory>
    ensures { IfOk result (λ map. (x : List ℕ) → value_of map x ≡ found_named vcd.now scope.now x) }
{
    let places = vcd.vars_in(alloc, scope)?;
    let mut map = NameMap::new(alloc);
    for place in &places {
        put_var(&mut map, alloc, vcd, *place)?;
    }
    Ok(map)
}

/// The variable of a name, of the size that is wanted.
fn found_in(map: &NameMap<Found>, alloc: Global, name: &[u8], want: u32) -> Result<Found, BindFault>
    ensures found { IfOk result (λ found. value_of map.now name.now ≡ Some found) }
    ensures judged { Judges (found_fault (value_of map.now name.now) name.now want) result }
{
    let Some(found) = map.get(name) else {
        let name = Text::new(alloc, name)?;
        return Err(BindFault::MissingSignal { name });
    };
    if found.size != want {
        let name = Text::new(alloc, name)?;
        let have = found.size;
        return Err(BindFault::SizeDiffers { name, have, want });
    }
    Ok(found)
}

/// The variable of a node, if the node is marked.
fn signal(
    map: &NameMap<Found>,
    alloc: Global,
    node: &NodeName,
    mark: bool,
) -> Result<Option<Found>, BindFault>
    ensures signal { IfOk result (λ signal. signal ≡ signal_of (value_of map.now) mark node.now) }
    ensures judged { Judges (signal_fault (value_of map.now) mark node.now) result }
{
    if !mark {
        return Ok(None);
    }
    let found = found_in(map, alloc, node.name.bytes(), u32::from(node.width))?;
    Ok(Some(found))
}

/// The variables of the nodes that are marked, by number.
fn node_signals(
    map: &NameMap<Found>,
    alloc: Global,
    nodes: &[NodeName],
    marks: &[bool],
) -> Result<Vec<Option<Found>>, BindFault>
    requires { length marks.now ≡ length nodes.now }
    ensures signals { IfOk result (λ signals. signals.items ≡ signals_from (value_of map.now) marks.now 0 nodes.now) }
    ensures judged { Judges (signals_fault (value_of map.now) marks.now 0 nodes.now) result }
{
    let mut signals = Vec::new(alloc);
    for n in 0..nodes.len() {
        signals.push(signal(map, alloc, &nodes[n], marks[n])?)?;
    }
    Ok(signals)
}

/// Whether a file opens a scope of this path.
fn has_scope(vcd: &Vcd, scope: &str) -> bool
    ensures { result ≡ list_any (bytes_eq scope.now) vcd.now.scopes }
{
    vcd.has_scope(scope)
}

/// The clock of a scope, and for each node of a table the variable of its name there, where a cell or an enable names the node.
pub(crate) fn signals_of(
    alloc: Global,
    vcd: &Vcd,
    table: &Table,
    scope: &str,
) -> Result<(Found, Vec<Option<Found>>), BindFault>
    ensures bound { IfOk result (λ found. IsBound vcd.now table.now scope.now found.0 found.1.items) }
    ensures judged { Judges (refusal vcd.now table.now scope.now) result }
{
    if !has_scope(vcd, scope) {
        return Err(BindFault::NoScope);
    }
    let map = names_in(alloc, vcd, scope)?;
    let clock = found_in(&map, alloc, b"clk", 1)?;
    let marks = marks_of(alloc, table)?;
    let signals = node_signals(&map, alloc, table.parts().nodes.items(), &marks)?;
    Ok((clock, signals))
}
