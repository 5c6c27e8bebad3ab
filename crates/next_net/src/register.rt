//! The registers of all instances, in the order of the design.

ghost use Rattle.std.specs.Prelude.{◌≡◌, ◌++◌, map, IfOk, OnOk};
ghost use Rattle.std.specs.List.{flat_map};
ghost use Rattle.design_core.specs.declared.variant.Signal.{Signal};
ghost use Rattle.design_core.specs.DesignView.{design_of};
ghost use Rattle.next_net.specs.Registers.{register_as, register_by, registers_at, registers_of};

use design_core::{Design, Instance, Kind, Signal, in_32_bits, signals_of};
use std::alloc::Global;
use text_core::NoMemory;

/// A register of an instance, by the instance's number and the register's name.
#[derive(Clone, Copy)]
pub(crate) struct Register<'a> {
    pub(crate) instance: u32,
    pub(crate) name: &'a [u8],
}

/// Puts a signal of an instance last, if it is a register.
fn push_signal<'a>(
    registers: &mut Vec<Register<'a>>,
    instance: u32,
    signal: &'a Signal,
) -> Result<(), NoMemory>
    ensures { OnOk result (map register_as registers.new.items ≡ map register_as registers.old.items ++ register_by instance signal.now.name signal.now.kind) }
{
    match &signal.kind {
        Kind::Reg(_) => registers.push(Register {
            instance,
            name: signal.name.bytes(),
        })?,
        Kind::Input | Kind::Output | Kind::Wire | Kind::ChildOut(_, _) => {}
    }
    Ok(())
}

/// The same of an instance's signals in order.
fn push_signals<'a>(
    registers: &mut Vec<Register<'a>>,
    instance: u32,
    signals: &'a [Signal],
) -> Result<(), NoMemory>
    ensures { OnOk result (map register_as registers.new.items
        ≡ map register_as registers.old.items ++ flat_map (λ (s : Signal). register_by instance s.name s.kind) signals.now) }
{
    for signal in signals {
        push_signal(registers, instance, signal)?;
    }
    Ok(())
}

/// Puts the registers of an instance last.
fn push_instance<'a>(
    registers: &mut Vec<Register<'a>>,
    design: &'a Design,
    number: u32,
    instance: &Instance,
) -> Result<(), NoMemory>
    ensures { OnOk result (map register_as registers.new.items
        ≡ map register_as registers.old.items ++ registers_at (design_of design.now) (number, instance.now)) }
{
    let signals = signals_of(&design.variants, instance.variant);
    push_signals(registers, number, signals)?;
    Ok(())
}

/// The registers of a design, instance by instance.
pub(crate) fn registers_of(alloc: Global, design: &Design) -> Result<Vec<Register<'_>>, NoMemory>
    ensures { IfOk result (λ registers. map register_as registers.items ≡ registers_of (design_of design.now)) }
{
    let mut registers = Vec::new(alloc);
    for (number, instance) in design.instances.items().iter().enumerate() {
        push_instance(&mut registers, design, in_32_bits(number)?, instance)?;
    }
    Ok(registers)
}
