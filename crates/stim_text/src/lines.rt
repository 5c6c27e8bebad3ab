//! The lines of a stimulus. Both line ends are known; a last line needs none.

ghost use Rattle.std.specs.Prelude.{◌≡◌, ◌<◌, ◌≤◌, ◌==◌, ◌∷◌, [], length, MatchOption, IfSome};
ghost use Rattle.std.specs.List.{position_or_len};
ghost use Rattle.std.specs.Str.Lines.{lines, strip_carriage_return};

/// How many bytes stand before the first line end, or in all where there is none.
fn line_len(text: &[u8]) -> usize
    ensures len { result ≡ position_or_len (λ byte. byte == 10) text.now }
    ensures within { result ≤ length text.now }
{
    text.iter().take_while(|byte| **byte != b'\n').count()
}

/// A line without the one carriage return at its end, if it has one.
fn without_carriage_return(line: &[u8]) -> &[u8]
    ensures { result.now ≡ strip_carriage_return line.now }
{
    if !line.is_empty() && line[line.len() - 1] == b'\r' {
        &line[..line.len() - 1]
    } else {
        line
    }
}

/// The first line of a text, and what follows its line end. None where the text has no line, since it is empty.
pub(crate) fn next_line(text: &[u8]) -> Option<(&[u8], &[u8])>
    ensures line { MatchOption result (lines text.now ≡ []) (λ cut. lines text.now ≡ cut.0.now ∷ lines cut.1.now) }
    ensures shorter { IfSome result (λ cut. length cut.1.now < length text.now) }
{
    if text.is_empty() {
        return None;
    }
    let end = line_len(text);
    if end == text.len() {
        return Some((text, &text[end..]));
    }
    Some((without_carriage_return(&text[..end]), &text[end + 1..]))
}

/// How many lines a text has.
pub(crate) fn count_lines(text: &[u8]) -> u64
    ensures { result ≡ length (lines text.now) }
{
    let mut count: u64 = 0;
    let mut rest = text;
    while let Some((_, others)) = next_line(rest) {
        count += 1;
        rest = others;
    }
    count
}
