//! What an expression over the names of an instance reads: the vertices of its signals.

ghost use Rattle.std.specs.Prelude.{◌≡◌, ◌++◌, OnOk};
ghost use Rattle.design_core.specs.View.{expr_of};
ghost use Rattle.design_exec.specs.Processes.{tree_of};
ghost use Rattle.names.specs.Maps.{value_of};
ghost use Rattle.dep_order.specs.Standing.{listed, read_by};

use design_core::{Expr, below};
use names::NameMap;
use std::alloc::Global;
use text_core::NoMemory;

/// Puts the vertex of a name's signal behind those that are there, if it has one.
pub(crate) fn read_name(
    numbers: &NameMap<u32>,
    name: &[u8],
    read: &mut Vec<u32>,
) -> Result<(), NoMemory>
    ensures { OnOk result (read.new.items ≡ read.old.items ++ listed (value_of numbers.now name.now)) }
{
    if let Some(number) = numbers.get(name) {
        read.push(number)?;
    }
    Ok(())
}

/// The same of all names that an expression reads, from left to right.
pub(crate) fn read_expr(
    alloc: Global,
    numbers: &NameMap<u32>,
    expr: &Expr,
    read: &mut Vec<u32>,
) -> Result<(), NoMemory>
    ensures { OnOk result (read.new.items ≡ read.old.items ++ read_by (tree_of (expr_of expr.now)) (value_of numbers.now)) }
{
    match expr {
        Expr::Read(name) => {
            read_name(numbers, name.bytes(), read)?;
            Ok(())
        }
        Expr::Out(child, port) => {
            let name = below(alloc, child.bytes(), port.bytes())?;
            read_name(numbers, name.bytes(), read)?;
            Ok(())
        }
        Expr::Value(_) => Ok(()),
        Expr::Un(_, inner) | Expr::Zext(inner, _) | Expr::Slice(inner, _, _) => {
            read_expr(alloc, numbers, inner, read)?;
            Ok(())
        }
        Expr::Bin(_, left, right) => {
            read_expr(alloc, numbers, left, read)?;
            read_expr(alloc, numbers, right, read)?;
            Ok(())
        }
        Expr::Mux(test, yes, no) => {
            read_expr(alloc, numbers, test, read)?;
            read_expr(alloc, numbers, yes, read)?;
            read_expr(alloc, numbers, no, read)?;
            Ok(())
        }
    }
}
