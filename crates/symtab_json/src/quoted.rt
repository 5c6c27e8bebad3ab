//! Texts in JSON. They are written byte by byte, so a name of any bytes has its text; that of bytes that are no UTF-8 is
//! one that no reader takes.

ghost use Rattle.std.specs.Prelude.{◌≡◌, ◌<◌, ◌++◌, OnOk};
ghost use Rattle.std.specs.Char.{digit_char};
ghost use Rattle.json.specs.Print.{escape, escape_byte, escape_letter, quoted};

use text_core::NoMemory;

/// The letter of a byte's short escape; 0 where it has none.
fn escape_letter(byte: u8) -> u8
    ensures { result ≡ escape_letter byte }
{
    match byte {
        b'"' | b'\\' => byte,
        8 => b'b',
        12 => b'f',
        b'\n' => b'n',
        b'\r' => b'r',
        b'\t' => b't',
        _ => 0,
    }
}

/// The hexadecimal digit of a number below 16.
fn hex_digit(value: u8) -> u8
    requires { value < 16 }
    ensures { result ≡ digit_char value }
{
    if value < 10 {
        b'0' + value
    } else {
        b'a' + (value - 10)
    }
}

/// Adds what stands in a JSON string for a byte.
#[tactic(auto, unfolding(json::specs::Print::escape_byte))]
fn push_byte(text: &mut Vec<u8>, byte: u8) -> Result<(), NoMemory>
    ensures { OnOk result (text.new.items ≡ text.old.items ++ escape_byte byte) }
{
    let letter = escape_letter(byte);
    if letter > 0 {
        text.extend_from_slice(&[b'\\', letter])?;
    } else if byte < 32 {
        let digits = [hex_digit(byte / 16), hex_digit(byte % 16)];
        text.extend_from_slice(&[b'\\', b'u', b'0', b'0', digits[0], digits[1]])?;
    } else {
        text.push(byte)?;
    }
    Ok(())
}

/// Adds what stands in a JSON string for these bytes.
fn push_bytes(text: &mut Vec<u8>, bytes: &[u8]) -> Result<(), NoMemory>
    ensures { OnOk result (text.new.items ≡ text.old.items ++ escape bytes.now) }
{
    for byte in bytes {
        push_byte(text, *byte)?;
    }
    Ok(())
}

/// Adds a JSON string of these bytes, which may be any. Fails only where memory runs out.
pub fn push_quoted(text: &mut Vec<u8>, bytes: &[u8]) -> Result<(), NoMemory>
    ensures { OnOk result (text.new.items ≡ text.old.items ++ quoted bytes.now) }
{
    text.push(b'"')?;
    push_bytes(text, bytes)?;
    text.push(b'"')?;
    Ok(())
}
