//! A dump file that was read, in columns: scopes, variables, changes. It keeps what the reader judged, so that a trace over it needs no second look.

ghost use Rattle.std.specs.Prelude.{◌≡◌, ◌≤◌, ◌<◌, ◌↔◌, IsTrue, All, IfOk, Contains, bytes_eq, get_or, false, length, map, slice_get, Some};
ghost use Rattle.std.specs.Option.{option_map};
ghost use Rattle.vcd_read.specs.Changes.{Story};
ghost use Rattle.vcd_read.specs.Head.{path_in};
ghost use Rattle.vcd_read.specs.Kept.{IsVcd};
ghost use Rattle.vcd_read.specs.Nesting.{paths_of, placed, ArePlaced};
ghost use Rattle.vcd_read.specs.Scopes.{path_at, var_of, places_from};

use crate::changes::Changes;
use crate::scopes::Scopes;
use crate::vars::Vars;
use crate::{VcdScope, VcdVar};
use std::alloc::Global;
use std::marker::Model;
use text_core::NoMemory;

/// A value change dump file: the scopes that it opens, the variables that it declares, and all changes of their values,
/// in the order of the text.
///
/// It keeps that it has at most 2^26 changes, that their times do not fall, that variables of one code have one size,
/// and that the code of each change is declared and its digits are value characters, at least one and no more than
/// that size.
#[derive(Drop)]
pub struct Vcd {
    scopes: Scopes,
    vars: Vars,
    changes: Changes,
}

impl Model for Vcd {
    ghost use Rattle.std.specs.Prelude.{length, map};
    ghost use Rattle.vcd_read.specs.Kept.{IsVcd};
    ghost use Rattle.vcd_read.specs.Meaning.{Meaning};
    ghost use Rattle.vcd_read.specs.Nesting.{paths_of, placed, ArePlaced};

    ghost Value = { Meaning };

    ghost view = { λ v. record { scopes = paths_of v.scopes; vars = map (placed (paths_of v.scopes)) v.vars; changes = v.changes.changes } };

    ghost invariant = { λ v. ArePlaced (length v.scopes) v.vars
        × IsVcd (record { scopes = paths_of v.scopes; vars = map (placed (paths_of v.scopes)) v.vars; changes = v.changes.changes }) };
}

/// The places of the numbers of variables' scopes that are marked.
fn places_in(alloc: Global, vars: &Vars, marks: &[bool]) -> Result<Vec<u64>, NoMemory>
    requires { All (λ var. var.scope < length marks.now) vars.now }
    ensures { IfOk result (λ places. places.items ≡ places_from 0 (λ var. get_or marks.now var.scope false) vars.now) }
{
    let mut places = Vec::new(alloc);
    for i in 0..vars.len() {
        let var = vars.var(i);
        if marks[var.scope as usize] {
            places.push(i as u64)?;
        }
    }
    Ok(places)
}

impl Vcd {
    /// What was read.
    pub(crate) fn new(scopes: Scopes, vars: Vars, changes: Changes) -> Vcd
        requires placed { ArePlaced (length scopes) vars }
        requires kept { IsVcd (record { scopes = paths_of scopes; vars = map (placed (paths_of scopes)) vars; changes = changes.changes }) }
        ensures { result ≡ record { scopes = paths_of scopes; vars = map (placed (paths_of scopes)) vars; changes = changes.changes } }
    {
        Vcd {
            scopes,
            vars,
            changes,
        }
    }

    /// How many variables there are.
    pub fn vars(&self) -> u64
        ensures vars { result ≡ length self.now.vars }
        ensures kept { IsVcd self.now }
    {
        self.vars.len() as u64
    }

    /// A variable, counted from 0 in the order of the declarations, with the number of its scope.
    pub fn var(&self, i: u64) -> VcdVar<'_>
        requires { i < length self.now.vars }
        ensures var { slice_get self.now.vars i ≡ Some (var_of self.now.scopes result) }
        ensures scope { result.scope ≤ length self.now.scopes }
    {
        self.vars.var(i as usize)
    }

    /// The variables of the scope with this path, in order, by their places: those whose scope's path, the names of the
    /// scopes around it and its own, joined by dots, from the outermost, is this text. Several scopes may have one path,
    /// and the empty path is that of the outside.
    ///
    /// # Errors
    ///
    /// Want of memory. Takes 8 bytes for each of these variables, and one for each scope while it runs. The time is
    /// linear in the scopes, their names and the variables.
    pub fn vars_in(&self, alloc: Global, scope: &str) -> Result<Vec<u64>, NoMemory>
        ensures { IfOk result (λ places. places.items ≡ places_from 0 (λ var. bytes_eq var.scope scope.now) self.now.vars) }
    {
        let marks = self.scopes.marks(alloc, scope.as_bytes())?;
        let places = places_in(alloc, &self.vars, &marks)?;
        Ok(places)
    }

    /// How many scopes the text opens, each time that it opens one. They are numbered from 1 to this.
    pub fn scopes(&self) -> u64
        ensures { result ≡ length self.now.scopes }
    {
        self.scopes.len() as u64
    }

    /// A scope, by its number, from 1 on: its name, and the number of the scope around it. Its path is the path of that
    /// one, a dot and its name, or its name alone where that path is empty.
    pub fn scope(&self, number: u32) -> VcdScope<'_>
        requires some { 0 < number }
        requires within { number ≤ length self.now.scopes }
        ensures path { path_at self.now.scopes number ≡ path_in (path_at self.now.scopes result.parent) result.name.now }
        ensures parent { result.parent < number }
    {
        self.scopes.scope(number as usize - 1)
    }

    /// Whether the scope of a number has this path, written as for `has_scope`; the path of 0, the outside, is empty.
    /// Takes no memory, and time that is linear in the path.
    pub fn is_scope(&self, number: u32, scope: &str) -> bool
        requires { number ≤ length self.now.scopes }
        ensures { IsTrue result ↔ (path_at self.now.scopes number ≡ scope.now) }
    {
        self.scopes.is_path(number as usize, scope.as_bytes())
    }

    /// Whether the head opens this scope, written as the names of the scopes around it and its own, joined by dots,
    /// from the outermost. Takes no memory, and time that is linear in the scopes and their names.
    pub fn has_scope(&self, scope: &str) -> bool
        ensures { IsTrue result ↔ Contains self.now.scopes scope.now }
    {
        self.scopes.has(scope.as_bytes())
    }

    /// How many changes there are, at most 2^26.
    pub fn changes(&self) -> u64
        ensures changes { result ≡ length self.now.changes }
        ensures kept { IsVcd self.now }
    {
        self.changes.len() as u64
    }

    /// The time of a change, counted from 0. Times do not fall.
    pub fn time(&self, i: u64) -> u64
        requires { i < length self.now.changes }
        ensures { option_map (λ change. change.time) (slice_get self.now.changes i) ≡ Some result }
    {
        self.changes.time(i as usize)
    }

    /// The number of the code of a change, counted from 0.
    pub fn code(&self, i: u64) -> u32
        requires { i < length self.now.changes }
        ensures { option_map (λ change. change.code) (slice_get self.now.changes i) ≡ Some result }
    {
        self.changes.code(i as usize)
    }

    /// The digits of a change, counted from 0, as they stand in the text: one or more of 0, 1, x, X, z and Z, and no
    /// more than the size of its code's variables. Fewer digits are extended on the left by whoever reads the value.
    pub fn digits(&self, i: u64) -> &[u8]
        requires { i < length self.now.changes }
        ensures { option_map (λ change. change.digits) (slice_get self.now.changes i) ≡ Some result.now }
    {
        self.changes.digits(i as usize)
    }
}
