//! Inputs of children without a connection, in the order of the child's ports.

ghost use Rattle.std.specs.Prelude.{◌≡◌, IfOk, map};
ghost use Rattle.design_core.specs.View.{child_of, conn_of, variant_of};
ghost use Rattle.names.specs.Known.{has};
ghost use Rattle.check_core.specs.Faults.{Tells, first_of};
ghost use Rattle.check_core.specs.Ports.{connected, unbound_at, unbound_in_child, unbound_input as the_unbound_input};

use check_core::{CheckFault, Kinds, spot};
use design_core::{Child, Conn, Signal, Variant, below, signals_of};
use names::NameSet;
use std::alloc::Global;
use text_core::NoMemory;

/// The ports of connections.
fn connected(alloc: Global, conns: &[Conn]) -> Result<NameSet, NoMemory>
    ensures { IfOk result (λ ports. has ports ≡ connected (map conn_of conns.now)) }
{
    let mut ports = NameSet::new(alloc);
    for conn in conns {
        ports.insert(alloc, conn.port.bytes())?;
    }
    Ok(ports)
}

/// Refuses a signal of a child of this line and name, if it is an input that is not among the connected ports.
fn unbound_at(
    alloc: Global,
    line: u32,
    child: &[u8],
    ports: &NameSet,
    signal: &Signal,
) -> Result<(), CheckFault>
    ensures { Tells result (unbound_at line child.now (has ports.now) signal.now) }
{
    if !Kinds::Inputs.hold(&signal.kind) || ports.contains(signal.name.bytes()) {
        return Ok(());
    }
    let name = below(alloc, child, signal.name.bytes())?;
    Err(CheckFault::UnboundInput(spot(alloc, line, name.bytes())?))
}

/// The same of signals in order.
#[tactic(auto, using(check_core::proofs::Firsts::plain_steps))]
fn unbound_among(
    alloc: Global,
    line: u32,
    child: &[u8],
    ports: &NameSet,
    signals: &[Signal],
) -> Result<(), CheckFault>
    ensures { Tells result (first_of (unbound_at line child.now (has ports.now)) signals.now) }
{
    for signal in signals {
        unbound_at(alloc, line, child, ports, signal)?;
    }
    Ok(())
}

/// Refuses the first input of a child, in port order, that has no connection.
fn unbound_in_child(alloc: Global, variants: &[Variant], child: &Child) -> Result<(), CheckFault>
    ensures { Tells result (unbound_in_child (map variant_of variants.now) (child_of child.now)) }
{
    let ports = connected(alloc, &child.conns)?;
    let signals = signals_of(variants, child.variant);
    unbound_among(alloc, child.line, child.name.bytes(), &ports, signals)
}

/// Refuses the first input of a child of a variant that has no connection.
#[tactic(auto, using(check_core::proofs::Firsts::list_steps))]
pub fn unbound_input(
    alloc: Global,
    variants: &[Variant],
    variant: &Variant,
) -> Result<(), CheckFault>
    ensures { Tells result (the_unbound_input (map variant_of variants.now) (variant_of variant.now)) }
{
    for child in &variant.children {
        unbound_in_child(alloc, variants, child)?;
    }
    Ok(())
}
