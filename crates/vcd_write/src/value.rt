//! Lines of values and times.

ghost use Rattle.std.specs.Prelude.{◌≡◌, ◌≤◌, ◌++◌, [], ◌∷◌, OnOk, length};
ghost use Rattle.tree_core.specs.Fold.{same_bits};
ghost use Rattle.vcd_text.specs.Dump.{line_text, value_words, values_text, time_text};
ghost use Rattle.vcd_text.specs.Waves.{bit, all_from, differing_from};

use crate::word::{push_binary, push_code};
use bv_core::Bv;
use std::alloc::Global;
use text_core::NoMemory;

/// Adds the value of one bit that a variable is given.
pub(crate) fn push_bit(text: &mut Vec<u8>, number: u64, value: u128) -> Result<(), NoMemory>
    ensures { OnOk result (text.new.items ≡ text.old.items ++ line_text (value_words (number, bit value))) }
{
    push_binary(text, 1, value)?;
    push_code(text, number)?;
    text.push(b'\n')?;
    Ok(())
}

/// Adds the value of more bits that a variable is given.
fn push_vector(text: &mut Vec<u8>, number: u64, value: Bv) -> Result<(), NoMemory>
    requires { 2 ≤ value.width }
    ensures { OnOk result (text.new.items ≡ text.old.items ++ line_text (value_words (number, value))) }
{
    text.push(b'b')?;
    push_binary(text, value.width(), value.value())?;
    text.push(b' ')?;
    push_code(text, number)?;
    text.push(b'\n')?;
    Ok(())
}

/// Adds the value that a variable is given.
fn push_value(text: &mut Vec<u8>, number: u64, value: Bv) -> Result<(), NoMemory>
    ensures { OnOk result (text.new.items ≡ text.old.items ++ line_text (value_words (number, value))) }
{
    if value.width() == 1 {
        push_bit(text, number, value.value())
    } else {
        push_vector(text, number, value)
    }
}

/// Adds the values of all variables behind the clock.
pub(crate) fn push_all(text: &mut Vec<u8>, values: &[Bv]) -> Result<(), NoMemory>
    ensures { OnOk result (text.new.items ≡ text.old.items ++ values_text (all_from 1 values.now)) }
{
    for (place, value) in values.iter().enumerate() {
        push_value(text, place as u64 + 1, *value)?;
    }
    Ok(())
}

/// Whether two values are the same.
fn same_bits(a: Bv, b: Bv) -> bool
    ensures { result ≡ same_bits a b }
{
    a.width() == b.width() && a.value() == b.value()
}

/// Adds a value that a variable is given, unless it is the one before.
fn push_other(text: &mut Vec<u8>, number: u64, old: Bv, value: Bv) -> Result<(), NoMemory>
    ensures { OnOk result (text.new.items ≡ text.old.items ++ values_text (differing_from number (old ∷ []) (value ∷ []))) }
{
    if same_bits(old, value) {
        return Ok(());
    }
    push_value(text, number, value)
}

/// Adds the values that differ from the ones before.
pub(crate) fn push_differing(text: &mut Vec<u8>, olds: &[Bv], values: &[Bv]) -> Result<(), NoMemory>
    requires { length olds.now ≡ length values.now }
    ensures { OnOk result (text.new.items ≡ text.old.items ++ values_text (differing_from 1 olds.now values.now)) }
{
    for (place, value) in values.iter().enumerate() {
        push_other(text, place as u64 + 1, olds[place], *value)?;
    }
    Ok(())
}

/// Adds a time.
pub(crate) fn push_time(alloc: Global, text: &mut Vec<u8>, time: u64) -> Result<(), NoMemory>
    ensures { OnOk result (text.new.items ≡ text.old.items ++ time_text time) }
{
    let line = format!(in alloc; "#{time}\n")?;
    text.extend_from_slice(line.as_bytes())?;
    Ok(())
}
