//! The lines of a batch, one after another.

ghost use Rattle.std.specs.Prelude.{◌≡◌, ◌≤◌, ◌<◌, ◌∷◌, [], length, MatchOption, IfSome};
ghost use Rattle.std.specs.List.{position_or_len, prefix_len};
ghost use Rattle.batch_run.specs.Texts.{is_feed, lines_of};

/// Whether a byte is a line feed.
fn is_feed(byte: u8) -> bool
    ensures { result ≡ is_feed byte }
{
    byte == b'\n'
}

/// How many line feeds a text begins with.
fn feed_len(text: &[u8]) -> usize
    ensures len { result ≡ prefix_len is_feed text.now }
    ensures within { result ≤ length text.now }
{
    text.iter().take_while(|byte| is_feed(**byte)).count()
}

/// How many other bytes a text begins with.
fn line_len(text: &[u8]) -> usize
    ensures len { result ≡ position_or_len is_feed text.now }
    ensures within { result ≤ length text.now }
{
    text.iter().take_while(|byte| !is_feed(**byte)).count()
}

/// The first line of a text that holds a byte, and what follows it. None where there is none. Takes no memory.
#[tactic(auto, using(crate::proofs::LineLemmas::first_line, crate::proofs::LineLemmas::no_line, crate::proofs::LineLemmas::line_some))]
pub fn next_line(text: &[u8]) -> Option<(&[u8], &[u8])>
    ensures lines { MatchOption result (lines_of text.now ≡ []) (λ cut. lines_of text.now ≡ cut.0.now ∷ lines_of cut.1.now) }
    ensures shorter { IfSome result (λ cut. length cut.1.now < length text.now) }
{
    let (_, rest) = text.split_at(feed_len(text));
    if rest.is_empty() {
        return None;
    }
    Some(rest.split_at(line_len(rest)))
}
