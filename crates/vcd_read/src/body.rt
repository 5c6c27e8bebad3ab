//! The changes of a dump file: what each word among them is, read once from left to right.

ghost use Rattle.std.specs.Prelude.{◌≡◌, ◌≤◌, ◌<◌, ◌+◌, ◌∷◌, [], length, OnOk};
ghost use Rattle.std.specs.List.{list_all};
ghost use Rattle.vcd_read.specs.Changes.{no_story, is_value, are_digits, is_vector, is_passed, is_dump};
ghost use Rattle.vcd_read.specs.Commands.{vector_at, change_at};
ghost use Rattle.vcd_read.specs.Meaning.{told_by, ended, InChanges};
ghost use Rattle.vcd_read.specs.Results.{Gives, Leads};
ghost use Rattle.vcd_read.specs.Seen.{word_of};

use crate::VcdFault;
use crate::changes::Changes;
use crate::codes::Codes;
use crate::head::Head;
use crate::words::{Word, Words};
use std::alloc::Global;

/// Whether a byte is a value character.
fn is_value(byte: u8) -> bool
    ensures { result ≡ is_value byte }
{
    matches!(byte, b'0' | b'1' | b'x' | b'X' | b'z' | b'Z')
}

/// Whether bytes are value characters alone.
fn are_values(bytes: &[u8]) -> bool
    ensures { result ≡ list_all is_value bytes.now }
{
    bytes.iter().all(|byte| is_value(*byte))
}

/// Whether bytes are the digits of a vector: one or more value characters.
fn are_digits(digits: &[u8]) -> bool
    ensures { result ≡ are_digits digits.now }
{
    !digits.is_empty() && are_values(digits)
}

/// Whether a byte stands before the digits of a vector.
fn is_vector(byte: u8) -> bool
    ensures { result ≡ is_vector byte }
{
    byte == b'b' || byte == b'B'
}

/// Whether a byte stands before the value of a real or string variable.
fn is_passed(byte: u8) -> bool
    ensures { result ≡ is_passed byte }
{
    matches!(byte, b'r' | b'R' | b's' | b'S')
}

/// Whether a word is passed over among changes.
fn is_dump(word: &Word<'_>) -> bool
    ensures { result ≡ is_dump (word_of word.now) }
{
    word.is(b"$dumpvars")
        || word.is(b"$dumpall")
        || word.is(b"$dumpon")
        || word.is(b"$dumpoff")
        || word.is_end()
}

/// Reads the code of a vector, whose word has this offset and these digits.
#[tactic(auto, unfolding(crate::specs::Commands::vector_at))]
fn vector(
    codes: &Codes,
    changes: &mut Changes,
    at: u64,
    digits: &[u8],
    words: &mut Words<'_>,
) -> Result<(), VcdFault>
    ensures change { Gives (λ _. (changes.new, words.new)) result (vector_at codes.now changes.old at digits.now words.old) }
    ensures fewer { OnOk result (length words.new ≤ length words.old) }
{
    let code = words.word()?;
    changes.change(codes, at, digits, code.at, code.bytes)
}

/// Reads a change, a time or what is passed over among them, which this word begins.
#[tactic(auto, unfolding(crate::specs::Commands::change_at))]
fn change(
    codes: &Codes,
    changes: &mut Changes,
    word: &Word<'_>,
    words: &mut Words<'_>,
) -> Result<(), VcdFault>
    requires { word.now.at ≤ 67108864 }
    ensures change { Gives (λ _. (changes.new, words.new)) result (change_at codes.now changes.old (word_of word.now) (word_of word.now).bytes words.old) }
    ensures fewer { OnOk result (length words.new ≤ length words.old) }
{
    let [first, rest @ ..] = word.bytes else {
        return Err(word.bad());
    };
    if *first == b'#' {
        changes.set_time(word, rest)?;
        return Ok(());
    }
    if is_value(*first) && !rest.is_empty() {
        changes.change(codes, word.at, &word.bytes[..1], word.at + 1, rest)?;
        return Ok(());
    }
    if is_vector(*first) && are_digits(rest) {
        return vector(codes, changes, word.at, rest, words);
    }
    if is_passed(*first) {
        words.word()?;
        return Ok(());
    }
    if word.is(b"$comment") {
        return words.pass_to_end();
    }
    if is_dump(word) {
        return Ok(());
    }
    Err(word.bad())
}

/// Reads all changes of a text of so many bytes, behind its head.
pub(crate) fn read_changes(
    alloc: Global,
    head: &Head,
    words: &mut Words<'_>,
    bytes: usize,
) -> Result<Changes, VcdFault>
    ensures { Leads (λ changes. ended InChanges (record { head = head.now; story = changes })) result
        (told_by InChanges (record { head = head.now; story = no_story }) words.old) }
{
    let mut changes = Changes::new(alloc, bytes)?;
    while let Some(word) = words.next_word() {
        change(&head.codes, &mut changes, &word, words)?;
    }
    Ok(changes)
}
