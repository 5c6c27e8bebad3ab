//! Which signals a check goes over: those of some kinds, by name.

ghost use Rattle.std.specs.Prelude.{◌≡◌, IfOk, OnOk, if◌then◌else◌};
ghost use Rattle.names.specs.Known.{has, with};
ghost use Rattle.check_core.specs.Names.{kinds_of, named};

use design_core::{Kind, Signal};
use names::NameSet;
use std::alloc::Global;
use text_core::NoMemory;

/// Some kinds of signals.
#[derive(Clone, Copy, PartialEq, Eq)]
pub enum Kinds {
    Any,
    Inputs,
    /// Wires and outputs.
    Driven,
    Registers,
    ChildOutputs,
}

impl Kinds {
    /// Whether a signal is of one of these kinds.
    pub fn hold(self, kind: &Kind) -> bool
        ensures { result ≡ kinds_of self kind.now }
    {
        match self {
            Kinds::Any => true,
            Kinds::Inputs => matches!(kind, Kind::Input),
            Kinds::Driven => matches!(kind, Kind::Output | Kind::Wire),
            Kinds::Registers => matches!(kind, Kind::Reg(_)),
            Kinds::ChildOutputs => matches!(kind, Kind::ChildOut(_, _)),
        }
    }
}

/// Puts the name of a signal in, if it is of one of these kinds.
fn put_name(
    alloc: Global,
    kinds: Kinds,
    signal: &Signal,
    names: &mut NameSet,
) -> Result<(), NoMemory>
    ensures { OnOk result (has names.new ≡ (if kinds_of kinds signal.now.kind then with signal.now.name (has names.old) else has names.old)) }
{
    if kinds.hold(&signal.kind) {
        names.insert(alloc, signal.name.bytes())?;
    }
    Ok(())
}

/// The names of the signals of these kinds.
pub fn names_of(alloc: Global, kinds: Kinds, signals: &[Signal]) -> Result<NameSet, NoMemory>
    ensures { IfOk result (λ names. has names ≡ named (kinds_of kinds) signals.now) }
{
    let mut names = NameSet::new(alloc);
    for signal in signals {
        put_name(alloc, kinds, signal, &mut names)?;
    }
    Ok(names)
}
