//! The classes of bytes that a source is cut by. They are ASCII alone, so a text is judged byte by byte before it is cut.

ghost use Rattle.std.specs.Prelude.{◌≡◌, ◌≤◌, length, position, not};
ghost use Rattle.std.specs.List.{prefix_len};
ghost use Rattle.gen_token.specs.Bytes.{is_blank, is_letter, is_name_byte, is_text_byte, is_word_start, begins};

use text_core::is_digit;

/// The offset of the first byte that no text holds: one that is none of 9, 10, 13 and 32 to 126.
pub fn first_other_byte(text: &[u8]) -> Option<usize>
    ensures { result ≡ position (λ byte. not (is_text_byte byte)) text.now }
{
    text.iter().position(|byte| !is_text_byte(*byte))
}

/// A byte that a text may hold.
fn is_text_byte(byte: u8) -> bool
    ensures { result ≡ is_text_byte byte }
{
    matches!(byte, b'\t' | b'\n' | b'\r' | b' '..=b'~')
}

/// A byte that only separates tokens.
pub(crate) fn is_blank(byte: u8) -> bool
    ensures { result ≡ is_blank byte }
{
    matches!(byte, b'\t' | b'\n' | b'\r' | b' ')
}

/// A letter of either case.
pub(crate) fn is_letter(byte: u8) -> bool
    ensures { result ≡ is_letter byte }
{
    byte.is_ascii_alphabetic()
}

/// A byte that a name may go on with.
pub(crate) fn is_name_byte(byte: u8) -> bool
    ensures { result ≡ is_name_byte byte }
{
    is_letter(byte) || is_digit(byte) || byte == b'_'
}

/// How many bytes that a name may go on with stand in front.
pub(crate) fn name_len(text: &[u8]) -> usize
    ensures len { result ≡ prefix_len is_name_byte text.now }
    ensures within { result ≤ length text.now }
{
    text.iter().take_while(|byte| is_name_byte(**byte)).count()
}

/// Whether a letter or `_` stands in front.
pub(crate) fn begins_word(text: &[u8]) -> bool
    ensures { result ≡ begins is_word_start text.now }
{
    match text {
        [byte, ..] => is_letter(*byte) || *byte == b'_',
        [] => false,
    }
}
