//! Widths by name, kept in one map for all blocks of a variant.

ghost use Rattle.std.specs.Prelude.{◌≡◌, ◌<◌, ◌^◌, IfOk, OnOk};
ghost use Rattle.design_core.specs.Widths.{bits};
ghost use Rattle.names.specs.Maps.{value_of};
ghost use Rattle.check_core.specs.Paths.{declared_width};
ghost use Rattle.name_widths.specs.DeclaredWidths.{all_declared, declared_also, width_at};

use design_core::Signal;
use names::NameMap;
use std::alloc::Global;
use text_core::NoMemory;

/// Keeps the width of a signal, unless its name has one.
#[tactic(auto, using(crate::proofs::Declaring::width_steps))]
fn note_width(alloc: Global, widths: &mut NameMap<i64>, signal: &Signal) -> Result<(), NoMemory>
    ensures { OnOk result (value_of widths.new ≡ declared_also (value_of widths.old) signal.now) }
{
    let name = signal.name.bytes();
    match widths.get(name) {
        Some(_) => Ok(()),
        None => {
            widths.put(alloc, name, signal.width)?;
            Ok(())
        }
    }
}

/// The widths of signals by name, of the first where several have a name.
pub fn declared_in(alloc: Global, signals: &[Signal]) -> Result<NameMap<i64>, NoMemory>
    ensures { IfOk result (λ widths. width_at (value_of widths) ≡ declared_width signals.now) }
{
    let mut widths = NameMap::new(alloc);
    for signal in signals {
        note_width(alloc, &mut widths, signal)?;
    }
    Ok(widths)
}

/// The width of a name, as it was written; 1 where no signal has it.
pub fn width_of(widths: &NameMap<i64>, name: &[u8]) -> i64
    ensures { bits result ≡ width_at (value_of widths.now) name.now }
{
    match widths.get(name) {
        Some(width) => width,
        None => 1,
    }
}

/// How many bits a name has.
pub fn bits_of(widths: &NameMap<i64>, name: &[u8]) -> u64
    ensures small { result < 2 ^ 63 }
    ensures bits { result ≡ width_at (value_of widths.now) name.now }
{
    let width = width_of(widths, name);
    if width < 0 { 0 } else { width as u64 }
}
