//! Words: codes and digits.

ghost use Rattle.std.specs.Prelude.{◌≡◌, ◌≤◌, ◌-◌, ◌/◌, ◌%◌, ◌^◌, ◌++◌, OnOk};
ghost use Rattle.vcd_text.specs.Dump.{code_text, binary_digits};

use text_core::NoMemory;

/// Adds the code of a variable's number: its digits to base 94, the lowest first.
#[tactic(auto, using(vcd_text::proofs::Codes::code_last))]
pub(crate) fn push_code(text: &mut Vec<u8>, number: u64) -> Result<(), NoMemory>
    ensures { OnOk result (text.new.items ≡ text.old.items ++ code_text number) }
{
    let mut rest = number;
    while rest >= 94 {
        text.push(33 + (rest % 94) as u8)?;
        rest /= 94;
    }
    text.push(33 + rest as u8)?;
    Ok(())
}

/// Adds the lowest count binary digits, the highest of them first, one by one.
fn push_digits(text: &mut Vec<u8>, count: u8, value: u128) -> Result<(), NoMemory>
    requires { count ≤ 128 }
    ensures { OnOk result (text.new.items ≡ text.old.items ++ binary_digits count value) }
{
    for place in (0..count).rev() {
        text.push(b'0' + ((value >> place) % 2) as u8)?;
    }
    Ok(())
}

/// Adds the eight binary digits of a byte.
#[tactic(auto, using(crate::proofs::Binary::eight_is))]
fn push_eight(text: &mut Vec<u8>, byte: u8) -> Result<(), NoMemory>
    ensures { OnOk result (text.new.items ≡ text.old.items ++ binary_digits 8 byte) }
{
    let digits = [
        b'0' + byte / 128 % 2,
        b'0' + byte / 64 % 2,
        b'0' + byte / 32 % 2,
        b'0' + byte / 16 % 2,
        b'0' + byte / 8 % 2,
        b'0' + byte / 4 % 2,
        b'0' + byte / 2 % 2,
        b'0' + byte % 2,
    ];
    text.extend_from_slice(&digits)?;
    Ok(())
}

/// Adds the digits in front of those that come eight by eight.
fn push_front(text: &mut Vec<u8>, count: u8, value: u128) -> Result<(), NoMemory>
    requires { count ≤ 128 }
    ensures { OnOk result (text.new.items ≡ text.old.items ++ binary_digits (count % 8) (value / 2 ^ (count - count % 8))) }
{
    let few = count % 8;
    if few == 0 {
        return Ok(());
    }
    push_digits(text, few, value >> (count - few))
}

/// Adds the lowest count binary digits, the highest of them first: eight at a time, since most of a file is digits.
pub(crate) fn push_binary(text: &mut Vec<u8>, count: u8, value: u128) -> Result<(), NoMemory>
    requires { count ≤ 128 }
    ensures { OnOk result (text.new.items ≡ text.old.items ++ binary_digits count value) }
{
    push_front(text, count, value)?;
    for place in (0..count / 8).rev() {
        push_eight(text, ((value >> (8 * place)) % 256) as u8)?;
    }
    Ok(())
}
