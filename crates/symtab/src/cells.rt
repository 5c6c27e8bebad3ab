//! What the names in scope stand for, in 24 bytes each: a table has millions of them, and a literal of 128 bits would take three times as much
//! room beside its kind. Contracts see the list of what they stand for.

ghost use Rattle.std.specs.Prelude.{◌≡◌, ◌<◌, ◌++◌, ◌∷◌, [], IfOk, OnOk, OnErr, Some, length, get_or, slice_get};
ghost use Rattle.bv_core.specs.declared.Ref.TheVariants.{Const};
ghost use Rattle.bv_core.specs.declared.Binding.TheVariants.{Value};
ghost use Rattle.symtab.specs.Cells.{binding_of_cell, bindings_of, IsForm};

use bv_core::{Binding, Bv, NodeId, Ref};
use std::alloc::{AllocError, Global};
use std::marker::Model;

/// 2^64.
const HALF: u128 = 1 << 64;

/// What a cell is.
#[derive(Clone, Copy)]
pub(crate) enum Kind {
    Node,
    Const,
    Unset,
    Removed,
}

/// What a name stands for: the number of a node, or the halves of a literal's value, with their width.
#[derive(Clone, Copy)]
pub(crate) struct Cell {
    low: u64,
    high: u64,
    width: u8,
    kind: Kind,
}

impl Cell {
    /// A cell without a value.
    fn bare(kind: Kind) -> Cell
        ensures { result ≡ record { low = 0; high = 0; width = 0; kind = kind } }
    {
        Cell {
            low: 0,
            high: 0,
            width: 0,
            kind,
        }
    }

    /// The cell of a literal.
    fn literal(bits: Bv) -> Cell
        ensures same { binding_of_cell result ≡ Value (Const bits) }
        ensures form { IsForm result }
    {
        let value = bits.value();
        Cell {
            low: (value % HALF) as u64,
            high: (value / HALF) as u64,
            width: bits.width(),
            kind: Kind::Const,
        }
    }

    /// The cell of a value.
    fn value(at: Ref) -> Cell
        ensures same { binding_of_cell result ≡ Value at }
        ensures form { IsForm result }
    {
        match at {
            Ref::Node(node, width) => Cell {
                low: node.0,
                high: 0,
                width,
                kind: Kind::Node,
            },
            Ref::Const(bits) => Cell::literal(bits),
        }
    }

    /// The cell of what a name stands for.
    fn new(binding: Binding) -> Cell
        ensures same { binding_of_cell result ≡ binding }
        ensures form { IsForm result }
    {
        match binding {
            Binding::Value(at) => Cell::value(at),
            Binding::Unset => Cell::bare(Kind::Unset),
            Binding::Removed => Cell::bare(Kind::Removed),
        }
    }

    /// What it stands for.
    fn binding(self) -> Binding
        requires { IsForm self }
        ensures { result ≡ binding_of_cell self }
    {
        match self.kind {
            Kind::Node => Binding::Value(Ref::Node(NodeId(self.low), self.width)),
            Kind::Const => {
                let value = u128::from(self.high) * HALF + u128::from(self.low);
                Binding::Value(Ref::Const(Bv::make(self.width, value).unwrap()))
            }
            Kind::Unset => Binding::Unset,
            Kind::Removed => Binding::Removed,
        }
    }
}

/// What names stand for, in their order.
#[derive(Drop)]
pub struct Cells {
    cells: Vec<Cell>,
}

impl Model for Cells {
    ghost use Rattle.std.specs.Prelude.{List, All};
    ghost use Rattle.bv_core.specs.declared.Binding.{Binding};
    ghost use Rattle.symtab.specs.Cells.{bindings_of, IsForm};

    ghost Value = { List Binding };

    ghost view = { λ c. bindings_of c.cells.items };

    ghost invariant = { λ c. All IsForm c.cells.items };
}

impl Cells {
    /// None yet, with room for so many.
    pub fn with_capacity(alloc: Global, count: usize) -> Result<Cells, AllocError>
        ensures { IfOk result (λ cells. cells ≡ []) }
    {
        Ok(Cells {
            cells: Vec::with_capacity(alloc, count)?,
        })
    }

    /// Puts what one name more stands for behind the others.
    pub fn push(&mut self, binding: Binding) -> Result<(), AllocError>
        ensures more { OnOk result (self.new ≡ self.old ++ binding ∷ []) }
        ensures kept { OnErr result (self.new ≡ self.old) }
    {
        self.cells.push(Cell::new(binding))?;
        Ok(())
    }

    /// Those that stand for these, in this order.
    pub fn of(alloc: Global, bindings: &[Binding]) -> Result<Cells, AllocError>
        ensures { IfOk result (λ cells. cells ≡ bindings.now) }
    {
        let mut cells = Cells::with_capacity(alloc, bindings.len())?;
        for binding in bindings {
            cells.push(*binding)?;
        }
        Ok(cells)
    }

    /// How many there are.
    pub fn len(&self) -> usize
        ensures { result ≡ length self.now }
    {
        self.cells.len()
    }

    /// What the name of this number stands for, from 0.
    pub fn at(&self, place: usize) -> Binding
        requires { place < length self.now }
        ensures is { result ≡ get_or self.now place result }
        ensures got { slice_get self.now place ≡ Some result }
    {
        self.cells[place].binding()
    }
}
