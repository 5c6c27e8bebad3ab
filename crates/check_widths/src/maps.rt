//! The widths that names were declared with, of signals, lets and the inputs of a child.

ghost use Rattle.std.specs.Prelude.{◌≡◌, ◌<◌, ◌^◌, IfOk, OnOk, map};
ghost use Rattle.design_core.specs.View.{variant_of};
ghost use Rattle.check_core.specs.Names.{is_input, kinds_of};
ghost use Rattle.design_core.specs.WellFormed.{signals_at};
ghost use Rattle.check_core.specs.Widths.{put_signal, put_width, widths_of};
ghost use Rattle.design_core.specs.Widths.{bits};
ghost use Rattle.check_widths.specs.WidthMaps.{widths_at};

use check_core::Kinds;
use design_core::{Signal, Variant, signals_of};
use names::NameMap;
use std::alloc::Global;
use text_core::NoMemory;

/// Puts a name in with a width.
fn put(alloc: Global, widths: &mut NameMap<i64>, name: &[u8], width: i64) -> Result<(), NoMemory>
    ensures { OnOk result (widths_at widths.new ≡ put_width name.now (bits width) (widths_at widths.old)) }
{
    widths.put(alloc, name, width)?;
    Ok(())
}

/// Puts a name in with a number of bits.
pub(crate) fn put_bits(
    alloc: Global,
    widths: &mut NameMap<i64>,
    name: &[u8],
    width: u64,
) -> Result<(), NoMemory>
    requires { width < 2 ^ 63 }
    ensures { OnOk result (widths_at widths.new ≡ put_width name.now width (widths_at widths.old)) }
{
    put(alloc, widths, name, width as i64)?;
    Ok(())
}

/// Puts a signal in, if it is of one of these kinds.
fn put_signal(
    alloc: Global,
    widths: &mut NameMap<i64>,
    kinds: Kinds,
    signal: &Signal,
) -> Result<(), NoMemory>
    ensures { OnOk result (widths_at widths.new ≡ put_signal (kinds_of kinds) signal.now (widths_at widths.old)) }
{
    if kinds.hold(&signal.kind) {
        put(alloc, widths, signal.name.bytes(), signal.width)?;
    }
    Ok(())
}

/// The widths of the signals of some kinds, by name.
pub(crate) fn widths_of(
    alloc: Global,
    kinds: Kinds,
    signals: &[Signal],
) -> Result<NameMap<i64>, NoMemory>
    ensures { IfOk result (λ widths. widths_at widths ≡ widths_of (kinds_of kinds) signals.now) }
{
    let mut widths = NameMap::new(alloc);
    for signal in signals {
        put_signal(alloc, &mut widths, kinds, signal)?;
    }
    Ok(widths)
}

/// The widths of the inputs of the variant of a number: as many steps as it has signals.
pub(crate) fn ports_of(
    alloc: Global,
    variants: &[Variant],
    number: u32,
) -> Result<NameMap<i64>, NoMemory>
    ensures { IfOk result (λ ports. widths_at ports ≡ widths_of is_input (signals_at number (map variant_of variants.now))) }
{
    widths_of(alloc, Kinds::Inputs, signals_of(variants, number))
}
