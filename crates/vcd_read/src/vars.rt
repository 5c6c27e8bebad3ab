//! The variables of a dump file, in a column, with all room taken at once.

ghost use Rattle.std.specs.Prelude.{◌≡◌, ◌<◌, ◌++◌, ◌∷◌, [], length, slice_get, Some, IfOk, OnOk, OnErr};
ghost use Rattle.vcd_read.specs.Nesting.{numbered};

use crate::VcdVar;
use crate::texts::Texts;
use std::alloc::Global;
use std::marker::Model;
use text_core::NoMemory;

/// A variable but for its name.
#[derive(Clone, Copy)]
pub(crate) struct VarRow {
    scope: u32,
    code: u32,
    size: u32,
    counted: bool,
}

/// The variables that were declared, in order. Contracts see them by the numbers of their scopes.
#[derive(Drop)]
pub(crate) struct Vars {
    names: Texts,
    rows: Vec<VarRow>,
}

impl Model for Vars {
    ghost use Rattle.std.specs.Prelude.{◌≡◌, List, length};
    ghost use Rattle.vcd_read.specs.Nesting.{Numbered, numbered_of};

    ghost Value = { List Numbered };

    ghost view = { λ v. numbered_of v.names v.rows.items };

    ghost invariant = { λ v. length v.names ≡ length v.rows.items };
}

/// The row of a place.
fn row_at(rows: &[VarRow], i: usize) -> VarRow
    requires { i < length rows.now }
    ensures { slice_get rows.now i ≡ Some result }
{
    rows[i]
}

impl Vars {
    /// No variables, with room for all that a text of so many bytes can declare: each takes 18 bytes of it at least.
    pub(crate) fn new(alloc: Global, bytes: usize) -> Result<Vars, NoMemory>
        ensures { IfOk result (λ vars. vars ≡ []) }
    {
        Ok(Vars {
            names: Texts::new(alloc, bytes, bytes / 18 + 1)?,
            rows: Vec::with_capacity(alloc, bytes / 18 + 1)?,
        })
    }

    /// How many variables there are.
    pub(crate) fn len(&self) -> usize
        ensures { result ≡ length self.now }
    {
        self.rows.len()
    }

    /// A variable, by its place.
    pub(crate) fn var(&self, i: usize) -> VcdVar<'_>
        requires { i < length self.now }
        ensures { slice_get self.now i ≡ Some (numbered result) }
    {
        let row = row_at(&self.rows, i);
        VcdVar {
            scope: row.scope,
            name: self.names.text(i),
            code: row.code,
            size: row.size,
            counted: row.counted,
        }
    }

    /// Puts a variable last.
    pub(crate) fn push(&mut self, var: VcdVar<'_>) -> Result<(), NoMemory>
        ensures ok { OnOk result (self.new ≡ self.old ++ numbered var.entry ∷ []) }
        ensures err { OnErr result (self.new ≡ self.old) }
    {
        let count = self.rows.len();
        self.rows.push(VarRow {
            scope: var.scope,
            code: var.code,
            size: var.size,
            counted: var.counted,
        })?;
        if self.names.push(var.name).is_err() {
            self.rows.truncate(count);
            return Err(NoMemory);
        }
        Ok(())
    }
}
