//! What is given in a cycle: the inputs of the top and the registers of all instances, in the order of the design.

ghost use Rattle.std.specs.Prelude.{◌≡◌, ◌==◌, ◌++◌, ◌∷◌, [], map, IfOk, OnOk, if◌then◌else◌};
ghost use Rattle.std.specs.List.{flat_map};
ghost use Rattle.tree_core.specs.Tree.{Register};
ghost use Rattle.exec_core.specs.Design.{place};
ghost use Rattle.design_core.specs.DesignView.{design_of};
ghost use Rattle.design_exec.specs.Processes.{givens_at, processes_of, value_of};
ghost use Rattle.ssa_nodes.specs.Givens.{given_as, given_of, input_of};

use design_core::{Design, Instance, Kind, Literal, Signal, in_32_bits, signals_of};
use std::alloc::Global;
use text_core::NoMemory;

/// What a given signal is.
#[derive(Clone, Copy)]
pub enum GivenSource<'a> {
    /// An input of the top, of this width.
    Input(i64),
    /// A register of the instance with this path, with the value that it starts with.
    Register(&'a [u8], &'a Literal),
}

/// A signal that is given in each cycle.
#[derive(Clone, Copy)]
pub struct Given<'a> {
    /// The number of its instance.
    pub instance: u32,
    pub name: &'a [u8],
    pub source: GivenSource<'a>,
}

/// Puts an input of the top last; inputs of other instances are not given.
fn push_input<'a>(
    list: &mut Vec<Given<'a>>,
    number: u32,
    signal: &'a Signal,
) -> Result<(), NoMemory>
    ensures { OnOk result (map given_as list.new.items ≡ map given_as list.old.items ++ (if number == 0 then input_of number signal.now else [])) }
{
    if number == 0 {
        list.push(Given {
            instance: number,
            name: signal.name.bytes(),
            source: GivenSource::Input(signal.width),
        })?;
    }
    Ok(())
}

/// Puts a register last.
fn push_register<'a>(
    list: &mut Vec<Given<'a>>,
    number: u32,
    path: &'a [u8],
    name: &'a [u8],
    start: &'a Literal,
) -> Result<(), NoMemory>
    ensures { OnOk result (map given_as list.new.items ≡ map given_as list.old.items ++
        (place number name.now, Register path.now name.now (value_of start.now)) ∷ []) }
{
    list.push(Given {
        instance: number,
        name,
        source: GivenSource::Register(path, start),
    })?;
    Ok(())
}

/// Puts a signal last that is an input of the top or a register.
fn push_signal<'a>(
    list: &mut Vec<Given<'a>>,
    number: u32,
    path: &'a [u8],
    signal: &'a Signal,
) -> Result<(), NoMemory>
    ensures { OnOk result (map given_as list.new.items ≡ map given_as list.old.items ++ given_of number path.now signal.now) }
{
    match &signal.kind {
        Kind::Input => push_input(list, number, signal),
        Kind::Reg(start) => push_register(list, number, path, signal.name.bytes(), start),
        Kind::Output | Kind::Wire | Kind::ChildOut(_, _) => Ok(()),
    }
}

/// The same of an instance's signals in order.
fn push_signals<'a>(
    list: &mut Vec<Given<'a>>,
    number: u32,
    path: &'a [u8],
    signals: &'a [Signal],
) -> Result<(), NoMemory>
    ensures { OnOk result (map given_as list.new.items ≡ map given_as list.old.items ++ flat_map (given_of number path.now) signals.now) }
{
    for signal in signals {
        push_signal(list, number, path, signal)?;
    }
    Ok(())
}

/// The same of an instance.
fn push_instance<'a>(
    list: &mut Vec<Given<'a>>,
    design: &'a Design,
    number: u32,
    instance: &'a Instance,
) -> Result<(), NoMemory>
    ensures { OnOk result (map given_as list.new.items ≡ map given_as list.old.items ++ givens_at (design_of design.now) (number, instance.now)) }
{
    let signals = signals_of(&design.variants, instance.variant);
    push_signals(list, number, instance.path.bytes(), signals)
}

/// What is given in a design, instance by instance.
pub fn givens_of(alloc: Global, design: &Design) -> Result<Vec<Given<'_>>, NoMemory>
    ensures { IfOk result (λ list. map given_as list.items ≡ (processes_of (design_of design.now)).givens) }
{
    let mut list = Vec::new(alloc);
    for (number, instance) in design.instances.items().iter().enumerate() {
        push_instance(&mut list, design, in_32_bits(number)?, instance)?;
    }
    Ok(list)
}
