//! A dump file as words between blanks. Every fault has a word's offset, so words know where they stand.

ghost use Rattle.std.specs.Prelude.{◌≡◌, ◌∷◌, ◌≤◌, ◌<◌, [], length, MatchOption, IfOk, IfSome};
ghost use Rattle.std.specs.List.{prefix_len, position_or_len};
ghost use Rattle.vcd_read.specs.declared.fault.VcdFault.TheVariants.{BadWord};
ghost use Rattle.vcd_read.specs.Commands.{word_at, plain_at, end_at, behind_end};
ghost use Rattle.vcd_read.specs.Results.{Gives};
ghost use Rattle.vcd_read.specs.Words.{is_blank, is_end, is_keyword, begins_with, words_of};
ghost use Rattle.vcd_read.specs.Seen.{word_of};

use crate::VcdFault;
use std::marker::Model;

/// A word of a text: a run of bytes that are no blanks.
#[derive(Clone, Copy)]
pub(crate) struct Word<'a> {
    /// How many bytes of the text stand before it.
    pub at: u64,
    /// Its bytes, at least one.
    pub bytes: &'a [u8],
}

impl Word<'_> {
    /// Whether it is this keyword.
    pub(crate) fn is(&self, keyword: &[u8]) -> bool
        ensures { result ≡ is_keyword keyword.now (word_of self.now) }
    {
        self.bytes == keyword
    }

    /// Whether its first byte is this one.
    pub(crate) fn begins_with(&self, byte: u8) -> bool
        ensures { result ≡ begins_with byte (word_of self.now).bytes }
    {
        match self.bytes {
            [first, ..] => *first == byte,
            [] => false,
        }
    }

    /// Whether it is the keyword that ends a command.
    pub(crate) fn is_end(&self) -> bool
        ensures { result ≡ is_end (word_of self.now) }
    {
        self.is(b"$end")
    }

    /// The fault of a word that may not stand where it stands.
    pub(crate) fn bad(&self) -> VcdFault
        ensures { result ≡ BadWord self.now.at }
    {
        VcdFault::BadWord { offset: self.at }
    }
}

/// The words of a text that are still to be read. Contracts see them as a list.
#[derive(Drop)]
pub(crate) struct Words<'a> {
    at: u64,
    rest: &'a [u8],
}

impl<'a> Model for Words<'a> {
    ghost use Rattle.std.specs.Prelude.{◌+◌, ◌≤◌, List, false, length};
    ghost use Rattle.vcd_read.specs.Words.{Word as Told, words_from};

    ghost Value = { List Told };

    ghost view = { λ w. words_from false w.at w.rest.now };

    ghost invariant = { λ w. w.at + length w.rest.now ≤ 67108864 };
}

/// Whether a byte stands between words.
fn is_blank(byte: u8) -> bool
    ensures { result ≡ is_blank byte }
{
    matches!(byte, 9..=13 | b' ')
}

/// How many blanks a text begins with.
fn blanks_len(text: &[u8]) -> usize
    ensures len { result ≡ prefix_len is_blank text.now }
    ensures within { result ≤ length text.now }
{
    text.iter().take_while(|byte| is_blank(**byte)).count()
}

/// How many other bytes a text begins with.
fn word_len(text: &[u8]) -> usize
    ensures len { result ≡ position_or_len is_blank text.now }
    ensures within { result ≤ length text.now }
{
    text.iter().take_while(|byte| !is_blank(**byte)).count()
}

impl<'a> Words<'a> {
    /// The words of a text of at most 64 MiB.
    pub(crate) fn of(text: &'a [u8]) -> Words<'a>
        requires { length text.now ≤ 67108864 }
        ensures { result ≡ words_of text.now }
    {
        Words { at: 0, rest: text }
    }

    /// The next word; none where only blanks are left.
    #[tactic(auto, using(crate::proofs::WordLemmas::first_word, crate::proofs::WordLemmas::no_word))]
    pub(crate) fn next_word(&mut self) -> Option<Word<'a>>
        ensures word { MatchOption result ((self.old ≡ []) × (self.new ≡ [])) (λ word. self.old ≡ word_of word ∷ self.new) }
        ensures place { IfSome result (λ word. word.at ≤ 67108864) }
    {
        let blanks = blanks_len(self.rest);
        let (_, text) = self.rest.split_at(blanks);
        if text.is_empty() {
            return None;
        }
        let at = self.at + blanks as u64;
        let len = word_len(text);
        let (bytes, rest) = text.split_at(len);
        self.at = at + len as u64;
        self.rest = rest;
        Some(Word { at, bytes })
    }

    /// Any word.
    #[tactic(auto, unfolding(crate::specs::Commands::word_at))]
    pub(crate) fn word(&mut self) -> Result<Word<'a>, VcdFault>
        ensures word { Gives (λ word. (word_of word, self.new)) result (word_at self.old) }
        ensures fewer { IfOk result (λ _. length self.new < length self.old) }
    {
        self.next_word().ok_or(VcdFault::CutShort)
    }

    /// Any word but `$end`.
    #[tactic(auto, unfolding(crate::specs::Commands::plain_at))]
    pub(crate) fn plain(&mut self) -> Result<Word<'a>, VcdFault>
        ensures word { Gives (λ word. (word_of word, self.new)) result (plain_at self.old) }
        ensures fewer { IfOk result (λ _. length self.new < length self.old) }
    {
        let Some(word) = self.next_word() else {
            return Err(VcdFault::CutShort);
        };
        if word.is_end() {
            return Err(word.bad());
        }
        Ok(word)
    }

    /// `$end`.
    #[tactic(auto, unfolding(crate::specs::Commands::end_at))]
    pub(crate) fn end(&mut self) -> Result<(), VcdFault>
        ensures rest { Gives (λ _. self.new) result (end_at self.old) }
        ensures fewer { IfOk result (λ _. length self.new < length self.old) }
    {
        let Some(word) = self.next_word() else {
            return Err(VcdFault::CutShort);
        };
        if !word.is_end() {
            return Err(word.bad());
        }
        Ok(())
    }

    /// All words up to `$end`, and it.
    #[tactic(auto, unfolding(crate::specs::Commands::behind_end))]
    pub(crate) fn pass_to_end(&mut self) -> Result<(), VcdFault>
        ensures rest { Gives (λ _. self.new) result (behind_end self.old) }
        ensures fewer { IfOk result (λ _. length self.new < length self.old) }
    {
        while let Some(word) = self.next_word() {
            if word.is_end() {
                return Ok(());
            }
        }
        Err(VcdFault::CutShort)
    }
}
