//! The paths of the signals of a loop.

ghost use Rattle.std.specs.Prelude.{◌≡◌, IfOk};
ghost use Rattle.design_core.specs.DesignView.{design_of};
ghost use Rattle.design_exec.specs.Processes.{instance_signals as the_signals_at, signals_in as the_signals_in};
ghost use Rattle.design_judge.specs.Loops.{instance_path as the_instance_path, signal_name as the_signal_name, signal_path as the_signal_path, signal_paths as the_signal_paths};

use design_core::{Design, Signal};
use std::alloc::Global;
use text_core::{Listed, NoMemory, Text};

/// The signals of a variant, by its number; none where there is no such variant.
fn signals_in(design: &Design, variant: u32) -> &[Signal]
    ensures { result.now ≡ the_signals_in (design_of design.now) variant }
{
    match design.variants.get(variant as usize) {
        Some(variant) => variant.signals.items(),
        None => &[],
    }
}

/// The signals of an instance, by its number; none where there is no such instance.
fn instance_signals(design: &Design, instance: u32) -> &[Signal]
    ensures { result.now ≡ the_signals_at (design_of design.now) instance }
{
    match design.instances.items().get(instance as usize) {
        Some(instance) => signals_in(design, instance.variant),
        None => &[],
    }
}

/// The path of an instance, by its number; no byte where there is no such instance.
fn instance_path(design: &Design, instance: u32) -> &[u8]
    ensures { result.now ≡ the_instance_path (design_of design.now) instance }
{
    match design.instances.items().get(instance as usize) {
        Some(instance) => instance.path.bytes(),
        None => &[],
    }
}

/// The name of a signal, by the number of its instance and its place there; no byte where there is no such signal.
fn signal_name(design: &Design, signal: (u32, u32)) -> &[u8]
    ensures { result.now ≡ the_signal_name (design_of design.now) signal }
{
    match instance_signals(design, signal.0).get(signal.1 as usize) {
        Some(signal) => signal.name.bytes(),
        None => &[],
    }
}

/// The path of a signal: that of its instance, a dot, and its name.
fn signal_path(alloc: Global, design: &Design, signal: (u32, u32)) -> Result<Text, NoMemory>
    ensures { IfOk result (λ path. path ≡ the_signal_path (design_of design.now) signal) }
{
    let mut path = instance_path(design, signal.0).to_vec(alloc)?;
    path.extend_from_slice(b".")?;
    path.extend_from_slice(signal_name(design, signal))?;
    Text::new(alloc, &path)
}

/// The paths of signals, in their order.
pub(crate) fn signal_paths(
    alloc: Global,
    design: &Design,
    signals: &[(u32, u32)],
) -> Result<Listed<Text>, NoMemory>
    ensures { IfOk result (λ paths. paths ≡ the_signal_paths (design_of design.now) signals.now) }
{
    let mut paths = Vec::new(alloc);
    for signal in signals {
        let path = signal_path(alloc, design, *signal)?;
        paths.push(path)?;
    }
    Ok(Listed::new(paths))
}
