//! Ports, wires and registers, and connections.

ghost use Rattle.std.specs.Prelude.{◌≡◌, [], map, OnOk};
ghost use Rattle.gen_tree.specs.View.{int_of, fam_of, lit_of, port_of, conn_of as source_conn_of};
ghost use Rattle.design_core.specs.View.{conn_of};
ghost use Rattle.elab_core.specs.Results.{AnswersWith, Judged};
ghost use Rattle.elab_core.specs.Walk.{judge};
ghost use Rattle.elab_core.specs.Elab.{ports as ports_walk, conns as conns_walk, count_outputs as outputs_walk, wire_signal, register as register_walk};
ghost use Rattle.elab_base.specs.Met.{met_of};
ghost use Rattle.elab_walk.specs.Walked.{port_signal, connection as connection_walk, counted_wire as counted_wire_walk, counted_register as counted_register_walk};

use design_core::{Conn, Kind, Signal};
use elab_base::{Met, family_name, literal_at, number_at};
use elab_body::expression;
use elab_core::{Count, ElabFault};
use gen_scope::Scope;
use gen_tree::{Fam, Int, Lit, Port};
use std::alloc::Global;
use text_core::Text;

/// A wire.
#[tactic(auto, unfolding(elab_core::specs::Elab::wire_signal), using(elab_base::proofs::Steps::walk_steps))]
fn wire(
    alloc: Global,
    line: u32,
    scope: &Scope,
    name: &Fam,
    width: &Int,
) -> Result<Signal, ElabFault>
    ensures { AnswersWith (λ s. s) result (wire_signal line scope.now (fam_of name.now) (int_of width.now)) }
{
    let name = family_name(alloc, line, scope, name)?;
    let width = number_at(alloc, line, scope, width)?;
    Ok(Signal {
        line,
        name,
        kind: Kind::Wire,
        width,
    })
}

/// A register.
#[tactic(auto, using(crate::proofs::SignalCases::register_steps))]
fn register(
    alloc: Global,
    line: u32,
    scope: &Scope,
    name: &Fam,
    width: &Int,
    start: &Lit,
) -> Result<Signal, ElabFault>
    ensures { AnswersWith (λ s. s) result (register_walk line scope.now (fam_of name.now) (int_of width.now) (lit_of start.now)) }
{
    let name = family_name(alloc, line, scope, name)?;
    let width = number_at(alloc, line, scope, width)?;
    let start = literal_at(alloc, line, scope, start)?;
    Ok(Signal {
        line,
        name,
        kind: Kind::Reg(start),
        width,
    })
}

/// A wire, and its count.
#[tactic(auto, using(crate::proofs::SignalCases::counted_wire_steps))]
pub(crate) fn counted_wire(
    alloc: Global,
    met: &mut Met,
    line: u32,
    scope: &Scope,
    name: &Fam,
    width: &Int,
) -> Result<Signal, ElabFault>
    ensures judged { Judged (λ s. s) result (met_of met.new) (judge (met_of met.old) (counted_wire_walk line scope.now (fam_of name.now) (int_of width.now))) }
    ensures instances { OnOk result (met.new.instances ≡ met.old.instances) }
{
    let signal = wire(alloc, line, scope, name, width)?;
    met.take(Count::Signals, line)?;
    Ok(signal)
}

/// A register, and its count.
#[tactic(auto, using(crate::proofs::SignalCases::counted_register_steps))]
pub(crate) fn counted_register(
    alloc: Global,
    met: &mut Met,
    line: u32,
    scope: &Scope,
    name: &Fam,
    width: &Int,
    start: &Lit,
) -> Result<Signal, ElabFault>
    ensures judged { Judged (λ s. s) result (met_of met.new) (judge (met_of met.old)
        (counted_register_walk line scope.now (fam_of name.now) (int_of width.now) (lit_of start.now))) }
    ensures instances { OnOk result (met.new.instances ≡ met.old.instances) }
{
    let signal = register(alloc, line, scope, name, width, start)?;
    met.take(Count::Signals, line)?;
    Ok(signal)
}

/// A port, and its count.
#[tactic(auto, using(crate::proofs::SignalCases::port_steps))]
fn port_as_signal(
    alloc: Global,
    met: &mut Met,
    port: &Port,
    scope: &Scope,
) -> Result<Signal, ElabFault>
    ensures judged { Judged (λ s. s) result (met_of met.new) (judge (met_of met.old) (port_signal (port_of port.now) scope.now)) }
    ensures instances { OnOk result (met.new.instances ≡ met.old.instances) }
{
    let width = number_at(alloc, port.line, scope, &port.width)?;
    met.take(Count::Signals, port.line)?;
    let name = Text::new(alloc, port.name.bytes())?;
    let kind = if port.output {
        Kind::Output
    } else {
        Kind::Input
    };
    Ok(Signal {
        line: port.line,
        name,
        kind,
        width,
    })
}

/// The ports of a module, as signals of an instance.
#[tactic(auto, using(crate::proofs::SignalLoops::ports_steps))]
pub(crate) fn ports(
    alloc: Global,
    met: &mut Met,
    ports: &[Port],
    scope: &Scope,
) -> Result<Vec<Signal>, ElabFault>
    ensures judged { Judged (λ signals. signals.items) result (met_of met.new) (judge (met_of met.old) (ports_walk (map port_of ports.now) scope.now [])) }
    ensures instances { OnOk result (met.new.instances ≡ met.old.instances) }
{
    let mut signals = Vec::new(alloc);
    for port in ports {
        let signal = port_as_signal(alloc, met, port, scope)?;
        signals.push(signal)?;
    }
    Ok(signals)
}

/// What an input of a child is connected to.
#[tactic(auto, using(crate::proofs::SignalCases::connection_steps))]
fn connection(
    alloc: Global,
    met: &mut Met,
    conn: &gen_tree::Conn,
    scope: &Scope,
) -> Result<Conn, ElabFault>
    ensures judged { Judged (λ c. conn_of c) result (met_of met.new) (judge (met_of met.old) (connection_walk (source_conn_of conn.now) scope.now)) }
    ensures instances { OnOk result (met.new.instances ≡ met.old.instances) }
{
    let value = expression(alloc, met, &conn.value, conn.line, scope)?;
    let port = Text::new(alloc, conn.port.bytes())?;
    Ok(Conn {
        line: conn.line,
        port,
        value,
    })
}

/// The connections of a child.
#[tactic(auto, using(crate::proofs::SignalLoops::conns_steps))]
pub(crate) fn connections(
    alloc: Global,
    met: &mut Met,
    conns: &[gen_tree::Conn],
    scope: &Scope,
) -> Result<Vec<Conn>, ElabFault>
    ensures judged { Judged (λ made. map conn_of made.items) result (met_of met.new)
        (judge (met_of met.old) (conns_walk (map source_conn_of conns.now) scope.now [])) }
    ensures instances { OnOk result (met.new.instances ≡ met.old.instances) }
{
    let mut made = Vec::new(alloc);
    for conn in conns {
        let conn = connection(alloc, met, conn, scope)?;
        made.push(conn)?;
    }
    Ok(made)
}

/// The count of a child's outputs as signals of its parent, on this line.
#[tactic(auto, using(crate::proofs::SignalLoops::outputs_steps))]
pub(crate) fn count_outputs(met: &mut Met, line: u32, ports: &[Port]) -> Result<(), ElabFault>
    ensures judged { Judged (λ _. tt) result (met_of met.new) (judge (met_of met.old) (outputs_walk line (map port_of ports.now))) }
    ensures instances { OnOk result (met.new.instances ≡ met.old.instances) }
{
    for port in ports {
        if port.output {
            met.take(Count::Signals, line)?;
        }
    }
    Ok(())
}
