//! The head of a dump file: scopes and variables, command by command. What it does not know it passes over, as the standard lets a reader do.

ghost use Rattle.std.specs.Prelude.{◌≡◌, ◌≤◌, ◌<◌, ◌-◌, ◌==◌, length, slice_get, unwrap_or, OnOk, IfOk, not};
ghost use Rattle.vcd_read.specs.Commands.{size_at, code_at, opened_at, closed_at, variable_at, command_at};
ghost use Rattle.vcd_read.specs.Head.{no_head, with_scope, without_scope, is_counted, without_backslash, name_of, with_var};
ghost use Rattle.std.specs.List.{position_or_len};
ghost use Rattle.vcd_read.specs.Changes.{no_story};
ghost use Rattle.vcd_read.specs.Meaning.{told_by, InHead, InChanges};
ghost use Rattle.vcd_read.specs.Nesting.{innermost};
ghost use Rattle.vcd_read.specs.Results.{Gives, Leads};
ghost use Rattle.vcd_read.specs.Seen.{word_of};

use crate::codes::Codes;
use crate::numbers::size_of;
use crate::scopes::Scopes;
use crate::texts::place_of;
use crate::vars::Vars;
use crate::words::{Word, Words};
use crate::{VcdFault, VcdVar};
use std::alloc::Global;
use std::marker::Model;
use text_core::NoMemory;

/// What the head of a text has told so far.
#[derive(Drop)]
pub(crate) struct Head {
    /// The numbers of the scopes that are open, the innermost last.
    nest: Vec<u32>,
    /// All scopes that were opened.
    pub scopes: Scopes,
    pub vars: Vars,
    pub codes: Codes,
}

impl Model for Head {
    ghost use Rattle.std.specs.Prelude.{map};
    ghost use Rattle.vcd_read.specs.Head.{Head as Told};
    ghost use Rattle.vcd_read.specs.Nesting.{paths_of, placed, IsHead};
    ghost use Rattle.vcd_read.specs.Scopes.{path_at};

    ghost Value = { Told };

    ghost view = { λ h. record {
      nest = map (path_at (paths_of h.scopes)) h.nest.items;
      scopes = paths_of h.scopes;
      vars = map
          (placed (paths_of h.scopes)) h.vars;
      codes = h.codes;
    } };

    ghost invariant = { λ h. IsHead h.scopes h.nest.items h.vars };
}

/// The number of the innermost scope of those that are open; 0 outside every scope.
fn innermost(nest: &[u32]) -> u32
    ensures { result ≡ innermost nest.now }
{
    match nest.last() {
        Some(number) => *number,
        None => 0,
    }
}

/// Whether the values of variables of this type are bits.
fn is_counted(kind: &[u8]) -> bool
    ensures { result ≡ is_counted kind.now }
{
    kind != b"real".as_slice() && kind != b"string".as_slice()
}

/// How many bytes stand before the first bracket, or in all where there is none.
fn bracket_len(reference: &[u8]) -> usize
    ensures len { result ≡ position_or_len (λ byte. byte == 91) reference.now }
    ensures within { result ≤ length reference.now }
{
    reference.iter().take_while(|byte| **byte != b'[').count()
}

/// A name without the one backslash in front, if it has one.
fn without_backslash(name: &[u8]) -> &[u8]
    ensures { result.now ≡ without_backslash name.now }
{
    let [byte, rest @ ..] = name else {
        return name;
    };
    if *byte == b'\\' { rest } else { name }
}

/// The name that a reference has, without an index behind it or a backslash in front.
fn name_of(reference: &[u8]) -> &[u8]
    ensures { result.now ≡ name_of reference.now }
{
    let (name, _) = reference.split_at(bracket_len(reference));
    without_backslash(name)
}

/// The size of a variable.
#[tactic(auto, unfolding(crate::specs::Commands::size_at))]
fn size_at(words: &mut Words<'_>) -> Result<u32, VcdFault>
    ensures size { Gives (λ size. (size, words.new)) result (size_at words.old) }
    ensures fewer { IfOk result (λ _. length words.new < length words.old) }
{
    let word = words.word()?;
    let Some(size) = size_of(word.bytes) else {
        return Err(word.bad());
    };
    Ok(size)
}

impl Head {
    /// A head that has told nothing, with room for what a text of so many bytes can tell.
    fn new(alloc: Global, bytes: usize) -> Result<Head, NoMemory>
        ensures { IfOk result (λ head. head ≡ no_head) }
    {
        Ok(Head {
            nest: Vec::new(alloc),
            scopes: Scopes::new(alloc, bytes)?,
            vars: Vars::new(alloc, bytes)?,
            codes: Codes::new(alloc, bytes)?,
        })
    }

    /// Opens a scope of this name.
    fn push_scope(&mut self, name: &[u8]) -> Result<(), NoMemory>
        ensures { OnOk result (self.new ≡ with_scope self.old name.now) }
    {
        let parent = innermost(&self.nest);
        let number = place_of(self.scopes.len() + 1)?;
        self.scopes.push(parent, name)?;
        self.nest.push(number)?;
        Ok(())
    }

    /// Closes the innermost scope.
    fn pop_scope(&mut self)
        ensures { self.new ≡ without_scope self.old }
    {
        let _ = self.nest.pop();
    }

    /// Declares a variable in the innermost scope.
    fn push_var(
        &mut self,
        counted: bool,
        size: u32,
        code: u32,
        reference: &[u8],
    ) -> Result<(), NoMemory>
        ensures { OnOk result (self.new ≡ with_var counted size code reference.now self.old) }
    {
        self.vars.push(VcdVar {
            scope: innermost(&self.nest),
            name: name_of(reference),
            code,
            size,
            counted,
        })?;
        Ok(())
    }

    /// The number of a code of this size, which is declared with it.
    #[tactic(auto, unfolding(crate::specs::Commands::code_at))]
    fn code(&mut self, size: u32, words: &mut Words<'_>) -> Result<u32, VcdFault>
        ensures code { Gives (λ code. ((code, self.new.codes), words.new)) result (code_at size self.old.codes words.old) }
        ensures others { OnOk result (self.new ≡ record self.old { codes = self.new.codes }) }
        ensures fewer { OnOk result (length words.new < length words.old) }
    {
        let word = words.word()?;
        self.codes.declare(&word, size)
    }

    /// Reads a scope that is opened.
    #[tactic(auto, unfolding(crate::specs::Commands::opened_at))]
    fn open(&mut self, words: &mut Words<'_>) -> Result<(), VcdFault>
        ensures head { Gives (λ _. (self.new, words.new)) result (opened_at self.old words.old) }
        ensures fewer { OnOk result (length words.new < length words.old) }
    {
        words.plain()?;
        let name = words.plain()?;
        words.end()?;
        self.push_scope(name.bytes)?;
        Ok(())
    }

    /// Reads the end of a command that this word begins, and which closes the innermost scope.
    #[tactic(auto, unfolding(crate::specs::Commands::closed_at))]
    fn close(&mut self, word: &Word<'_>, words: &mut Words<'_>) -> Result<(), VcdFault>
        ensures head { Gives (λ _. (self.new, words.new)) result (closed_at self.old (word_of word.now) words.old) }
        ensures fewer { OnOk result (length words.new < length words.old) }
    {
        if self.nest.is_empty() {
            return Err(word.bad());
        }
        words.end()?;
        self.pop_scope();
        Ok(())
    }

    /// Reads a variable.
    #[tactic(auto, unfolding(crate::specs::Commands::variable_at))]
    fn variable(&mut self, words: &mut Words<'_>) -> Result<(), VcdFault>
        ensures head { Gives (λ _. (self.new, words.new)) result (variable_at self.old words.old) }
        ensures fewer { OnOk result (length words.new < length words.old) }
    {
        let kind = words.plain()?;
        let size = size_at(words)?;
        let code = self.code(size, words)?;
        let reference = words.plain()?;
        words.pass_to_end()?;
        self.push_var(is_counted(kind.bytes), size, code, reference.bytes)?;
        Ok(())
    }

    /// Reads a command other than `$enddefinitions`, which this word begins.
    #[tactic(auto, unfolding(crate::specs::Commands::command_at))]
    fn command(&mut self, word: &Word<'_>, words: &mut Words<'_>) -> Result<(), VcdFault>
        ensures head { Gives (λ _. (self.new, words.new)) result (command_at self.old (word_of word.now) words.old) }
        ensures fewer { OnOk result (length words.new < length words.old) }
    {
        if word.is(b"$scope") {
            return self.open(words);
        }
        if word.is(b"$upscope") {
            return self.close(word, words);
        }
        if word.is(b"$var") {
            return self.variable(words);
        }
        if !word.begins_with(b'$') || word.is_end() {
            return Err(word.bad());
        }
        words.pass_to_end()
    }
}

/// Reads the head of a text of so many bytes, up to the `$end` of its `$enddefinitions`.
pub(crate) fn read_head(
    alloc: Global,
    words: &mut Words<'_>,
    bytes: usize,
) -> Result<Head, VcdFault>
    ensures { Leads (λ head. told_by InChanges (record { head = head; story = no_story }) words.new) result
        (told_by InHead (record { head = no_head; story = no_story }) words.old) }
{
    let mut head = Head::new(alloc, bytes)?;
    while let Some(word) = words.next_word() {
        if word.is(b"$enddefinitions") {
            words.end()?;
            return Ok(head);
        }
        head.command(&word, words)?;
    }
    Err(VcdFault::NoEndDefinitions)
}
