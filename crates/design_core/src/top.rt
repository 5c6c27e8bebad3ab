//! The ports of a design, read off the signals of its top in their order.

ghost use Rattle.std.specs.Prelude.{◌≡◌, ◌++◌, ◌≤◌, true, false, IfOk, OnOk};
ghost use Rattle.design_core.specs.DesignView.{design_of};
ghost use Rattle.design_core.specs.Ports.{all_fit, fits, is_port, is_width, one_port, ports_in, top_signals};
ghost use Rattle.design_core.specs.Widths.{bits};
ghost use Rattle.design_core.specs.WellFormed.{regs, registers};

use crate::{Design, Kind, Ports, Signal, signals_of};
use std::alloc::Global;
use text_core::{Listed, NoMemory, Text};

/// Whether a signal of this kind is an output, or else an input.
fn is_port_of(output: bool, kind: &Kind) -> bool
    ensures { result ≡ is_port output kind.now }
{
    match kind {
        Kind::Input => !output,
        Kind::Output => output,
        Kind::Wire | Kind::Reg(_) | Kind::ChildOut(_, _) => false,
    }
}

/// The width of a port, from 1 to 128.
#[tactic(auto, using(crate::proofs::PortSteps::widths))]
fn width_of(width: i64) -> u8
    requires { is_width width ≡ true }
    ensures { result ≡ bits width }
{
    match u8::try_from(width) {
        Ok(width) => width,
        Err(_) => 0,
    }
}

/// Puts a signal last, if it is an output, or else an input.
#[tactic(auto, using(crate::proofs::PortSteps::port_width))]
fn put(
    alloc: Global,
    output: bool,
    signal: &Signal,
    ports: &mut Vec<(Text, u8)>,
) -> Result<(), NoMemory>
    requires { fits signal.now signal.now.kind ≡ true }
    ensures { OnOk result (ports.new.items ≡ ports.old.items ++ one_port output signal.now) }
{
    if is_port_of(output, &signal.kind) {
        let name = Text::new(alloc, signal.name.bytes())?;
        ports.push((name, width_of(signal.width)))?;
    }
    Ok(())
}

/// The outputs among signals, or else the inputs, in order.
#[tactic(auto, using(crate::proofs::PortSteps::port_steps))]
fn ports_among(alloc: Global, output: bool, signals: &[Signal]) -> Result<Vec<(Text, u8)>, NoMemory>
    requires { all_fit signals.now ≡ true }
    ensures { IfOk result (λ ports. ports.items ≡ ports_in output signals.now) }
{
    let mut ports = Vec::new(alloc);
    for signal in signals {
        put(alloc, output, signal, &mut ports)?;
    }
    Ok(ports)
}

/// How many registers are among signals.
#[tactic(auto, using(crate::proofs::PortSteps::port_steps))]
fn count_registers(signals: &[Signal]) -> u32
    requires { regs signals.now ≤ 200000 }
    ensures { result ≡ regs signals.now }
{
    let mut count = 0;
    for signal in signals {
        if matches!(signal.kind, Kind::Reg(_)) {
            count += 1;
        }
    }
    count
}

/// How many registers all instances have.
#[tactic(auto, using(crate::proofs::PortSteps::register_steps))]
fn all_registers(design: &Design) -> u32
    ensures { result ≡ registers (design_of design.now).variants (design_of design.now).instances }
{
    let mut count = 0;
    for instance in design.instances.items() {
        count += count_registers(signals_of(&design.variants, instance.variant));
    }
    count
}

/// The top of a design as its surroundings see it. The widths of the top's inputs and outputs are from 1 to 128. Fails only
/// where memory runs out.
pub fn ports_of(alloc: Global, design: &Design) -> Result<Ports, NoMemory>
    requires { all_fit (top_signals (design_of design.now)) ≡ true }
    ensures module { IfOk result (λ ports. ports.module ≡ design.now.top) }
    ensures inputs { IfOk result (λ ports. ports.inputs ≡ ports_in false (top_signals (design_of design.now))) }
    ensures outputs { IfOk result (λ ports. ports.outputs ≡ ports_in true (top_signals (design_of design.now))) }
    ensures registers { IfOk result (λ ports. ports.registers ≡ registers (design_of design.now).variants (design_of design.now).instances) }
{
    let signals = signals_of(&design.variants, 0);
    let inputs = ports_among(alloc, false, signals)?;
    let outputs = ports_among(alloc, true, signals)?;
    let module = Text::new(alloc, design.top.bytes())?;
    Ok(Ports {
        module,
        inputs: Listed::new(inputs),
        outputs: Listed::new(outputs),
        registers: all_registers(design),
    })
}
