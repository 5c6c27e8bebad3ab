//! Lines of a text, by their numbers and by offsets.

/// The line of this number, from 1, without its end.
pub fn line_at(text: &[u8], number: u64) -> Option<&[u8]> {
    let mut count = 0u64;
    for line in text.split(|byte| *byte == b'\n') {
        count = count.saturating_add(1);
        if count == number {
            return Some(line);
        }
    }
    None
}

/// The number of the line that has the byte at this offset, both counted as lines from 1 and bytes from 0.
pub fn line_of_offset(text: &[u8], offset: u64) -> u64 {
    let front = usize::try_from(offset)
        .ok()
        .and_then(|offset| text.get(..offset))
        .unwrap_or(text);
    let ends = front.iter().filter(|byte| **byte == b'\n').count();
    u64::try_from(ends).unwrap_or(u64::MAX).saturating_add(1)
}
