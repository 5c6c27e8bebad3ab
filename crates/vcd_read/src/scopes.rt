//! The scopes of a dump file. Their paths are not kept: a path is compared from the outermost name on, by what each scope adds.

ghost use Rattle.std.specs.Prelude.{◌≡◌, ◌≤◌, ◌<◌, ◌+◌, ◌^◌, ◌++◌, ◌∷◌, ◌↔◌, ◌==◌, ◌&&◌, ℕ, List, [], Some, length, slice_get, map, take, bytes_eq, Contains, IsTrue, IfOk, OnOk, OnErr};
ghost use Rattle.std.specs.Bool.{OnTrue, OnFalse};
ghost use Rattle.vcd_read.specs.Head.{path_in};
ghost use Rattle.vcd_read.specs.Nesting.{paths_of, scope_in, IsOpen, IsLastBegun, Begins};
ghost use Rattle.vcd_read.specs.Scopes.{path_at};

use crate::VcdScope;
use crate::texts::{Texts, place_of};
use std::alloc::Global;
use std::marker::Model;
use text_core::NoMemory;

/// A scope: the number of the one around it, and how long its path is.
#[derive(Clone, Copy)]
pub(crate) struct ScopeRow {
    parent: u32,
    len: u32,
}

/// The scopes that were opened, in order, by their names and the numbers of those around them. Number 0 is outside every
/// scope, and 1 is the first. Contracts see their paths.
#[derive(Drop)]
pub(crate) struct Scopes {
    names: Texts,
    rows: Vec<ScopeRow>,
}

impl Model for Scopes {
    ghost use Rattle.std.specs.Prelude.{List, []};
    ghost use Rattle.vcd_read.specs.Nesting.{Scope, scopes_of, AreScopes};

    ghost Value = { List Scope };

    ghost view = { λ s. scopes_of [] s.names s.rows.items };

    ghost invariant = { λ s. AreScopes s.names s.rows.items };
}

/// The row of a place.
fn row_at(rows: &[ScopeRow], i: usize) -> ScopeRow
    requires { i < length rows.now }
    ensures { slice_get rows.now i ≡ Some result }
{
    rows[i]
}

/// Whether a text begins with these bytes.
fn begins(text: &[u8], front: &[u8]) -> bool
    ensures { IsTrue result ↔ Begins front.now text.now }
{
    text.len() >= front.len() && &text[..front.len()] == front
}

/// Whether a text begins with a dot and these bytes.
fn begins_dotted(text: &[u8], front: &[u8]) -> bool
    ensures { IsTrue result ↔ Begins (46 ∷ front.now) text.now }
{
    let [byte, rest @ ..] = text else {
        return false;
    };
    *byte == b'.' && begins(rest, front)
}

/// Whether a text begins with the path of a scope of this name in another, whose path is so many bytes of its front.
fn begins_in(text: &[u8], around: usize, name: &[u8]) -> bool
    requires { around ≤ length text.now }
    ensures { IsTrue result ↔ Begins (path_in (take around text.now) name.now) text.now }
{
    if around == 0 {
        return begins(text, name);
    }
    let (_, rest) = text.split_at(around);
    begins_dotted(rest, name)
}

/// Whether a path that is so long, and that begins a text or not, is the text.
fn is_whole(begins: bool, len: usize, text: &[u8]) -> bool
    ensures { result ≡ (begins && len == length text.now) }
{
    begins && len == text.len()
}

/// How long the path is of a scope of this name in another, whose path is so long.
fn len_in(around: usize, name: &[u8]) -> usize
    requires { around < 2 ^ 32 }
    ensures { (path : List ℕ) → length path ≡ around → result ≡ length (path_in path name.now) }
{
    if around == 0 {
        return name.len();
    }
    around + 1 + name.len()
}

impl Scopes {
    /// No scopes, with room for all that a text of so many bytes can open: each takes 16 bytes of it at least.
    pub(crate) fn new(alloc: Global, bytes: usize) -> Result<Scopes, NoMemory>
        ensures { IfOk result (λ scopes. scopes ≡ []) }
    {
        Ok(Scopes {
            names: Texts::new(alloc, bytes, bytes / 16 + 1)?,
            rows: Vec::with_capacity(alloc, bytes / 16 + 1)?,
        })
    }

    /// How many scopes there are.
    pub(crate) fn len(&self) -> usize
        ensures len { result ≡ length self.now }
        ensures bound { result < 2 ^ 63 }
    {
        self.rows.len()
    }

    /// How long the path of a number is.
    fn path_len(&self, number: usize) -> usize
        requires { number ≤ length self.now }
        ensures len { result ≡ length (path_at (paths_of self.now) number) }
        ensures bound { result < 2 ^ 32 }
    {
        if number == 0 {
            return 0;
        }
        let row = row_at(&self.rows, number - 1);
        row.len as usize
    }

    /// Puts a scope of this name last, in one that may be open.
    pub(crate) fn push(&mut self, parent: u32, name: &[u8]) -> Result<(), NoMemory>
        requires { IsOpen self.old parent (length self.old) }
        ensures ok { OnOk result (self.new ≡ self.old ++ scope_in self.old parent name.now ∷ []) }
        ensures err { OnErr result (self.new ≡ self.old) }
    {
        let count = self.rows.len();
        let around = self.path_len(parent as usize);
        let len = place_of(len_in(around, name))?;
        self.rows.push(ScopeRow { parent, len })?;
        if self.names.push(name).is_err() {
            self.rows.truncate(count);
            return Err(NoMemory);
        }
        Ok(())
    }

    /// Whether the path of a scope, by its place, begins a text, where the last scope before it whose path does so, and
    /// that may be open, is this one.
    fn begins(&self, text: &[u8], last: usize, i: usize) -> bool
        requires within { i < length self.now }
        requires last { IsLastBegun self.now text.now i last }
        ensures path { IsTrue result ↔ Begins (path_at (paths_of self.now) (i + 1)) text.now }
        ensures taken { OnTrue result (IsLastBegun self.now text.now (i + 1) (i + 1)) }
        ensures passed { OnFalse result (IsLastBegun self.now text.now (i + 1) last) }
    {
        let row = row_at(&self.rows, i);
        let parent = row.parent as usize;
        if parent > last {
            return false;
        }
        let around = self.path_len(parent);
        begins_in(text, around, self.names.text(i))
    }

    /// A scope, by its place.
    pub(crate) fn scope(&self, i: usize) -> VcdScope<'_>
        requires { i < length self.now }
        ensures path { path_at (paths_of self.now) (i + 1) ≡ path_in (path_at (paths_of self.now) result.parent) result.name.now }
        ensures parent { result.parent ≤ i }
    {
        let row = row_at(&self.rows, i);
        VcdScope {
            parent: row.parent,
            name: self.names.text(i),
        }
    }

    /// Whether a number has this path.
    pub(crate) fn is_path(&self, number: usize, path: &[u8]) -> bool
        requires { number ≤ length self.now }
        ensures { IsTrue result ↔ (path_at (paths_of self.now) number ≡ path.now) }
    {
        let mut number = number;
        let mut rest = path;
        while number > 0 && self.path_len(number) == rest.len() {
            let scope = self.scope(number - 1);
            let around = self.path_len(scope.parent as usize);
            if !begins_in(rest, around, scope.name) {
                return false;
            }
            number = scope.parent as usize;
            rest = &rest[..around];
        }
        number == 0 && rest.is_empty()
    }

    /// Whether a scope has this path.
    pub(crate) fn has(&self, path: &[u8]) -> bool
        ensures { IsTrue result ↔ Contains (paths_of self.now) path.now }
    {
        let mut last = 0;
        for i in 0..self.len() {
            if self.begins(path, last, i) {
                if self.path_len(i + 1) == path.len() {
                    return true;
                }
                last = i + 1;
            }
        }
        false
    }

    /// Which numbers have this path, that of the outside, 0, first.
    pub(crate) fn marks(&self, alloc: Global, path: &[u8]) -> Result<Vec<bool>, NoMemory>
        ensures { IfOk result (λ marks. marks.items ≡ map (λ other. bytes_eq other path.now) ([] ∷ paths_of self.now)) }
    {
        let mut marks = Vec::with_capacity(alloc, self.rows.len() + 1)?;
        marks.push(path.is_empty())?;
        let mut last = 0;
        for i in 0..self.len() {
            let begins = self.begins(path, last, i);
            let whole = is_whole(begins, self.path_len(i + 1), path);
            marks.push(whole)?;
            if begins {
                last = i + 1;
            }
        }
        Ok(marks)
    }
}
