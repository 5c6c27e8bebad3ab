//! Inputs and signals that are driven twice: the second drive is refused, on its line.

ghost use Rattle.std.specs.Prelude.{◌≡◌, ◌∷◌, [], OnOk, map};
ghost use Rattle.design_core.specs.View.{block_of, child_of, conn_of, stmt_of, variant_of};
ghost use Rattle.names.specs.Maps.{value_of};
ghost use Rattle.check_core.specs.Faults.{Tells, first_of};
ghost use Rattle.design_core.specs.Statements.{stmts_at};
ghost use Rattle.check_paths.specs.Blocks.{twice_in_block};
ghost use Rattle.check_core.specs.Drivers.{all_driven, assignments, conn_drive, connected_twice, driven_also, driven_in, driven_twice, second_drive, twice_in_child, two_drivers as the_two_drivers, undriven_yet};

use check_core::{CheckFault, spot};
use design_core::{Block, Child, Conn, Stmt, Variant, statements};
use names::NameMap;
use std::alloc::Global;
use text_core::NoMemory;

/// Keeps the line at which a name is driven, unless it has one.
#[tactic(auto, using(crate::proofs::Drives::note_steps))]
fn note(alloc: Global, lines: &mut NameMap<u32>, line: u32, name: &[u8]) -> Result<(), NoMemory>
    ensures { OnOk result (value_of lines.new ≡ driven_also (value_of lines.old) (line, name.now)) }
{
    match lines.get(name) {
        Some(_) => Ok(()),
        None => {
            lines.put(alloc, name, line)?;
            Ok(())
        }
    }
}

/// Refuses a drive of a name that is driven already.
fn second(alloc: Global, lines: &NameMap<u32>, line: u32, name: &[u8]) -> Result<(), CheckFault>
    ensures { Tells result (second_drive (value_of lines.now) (line, name.now)) }
{
    match lines.get(name) {
        Some(first) => Err(CheckFault::TwoDrivers {
            at: spot(alloc, line, name)?,
            first,
        }),
        None => Ok(()),
    }
}

/// Refuses a connection to what is connected already, and keeps its line.
fn conn_once(alloc: Global, lines: &mut NameMap<u32>, conn: &Conn) -> Result<(), CheckFault>
    ensures told { Tells result (second_drive (value_of lines.old) (conn_drive (conn_of conn.now))) }
    ensures lines { OnOk result (value_of lines.new ≡ driven_also (value_of lines.old) (conn_drive (conn_of conn.now))) }
{
    second(alloc, lines, conn.line, conn.port.bytes())?;
    note(alloc, lines, conn.line, conn.port.bytes())?;
    Ok(())
}

/// Refuses the first of these connections to an input that is connected already, or that one before it has.
#[tactic(auto, using(crate::proofs::Drives::conn_steps))]
fn connected_among(
    alloc: Global,
    lines: &mut NameMap<u32>,
    conns: &[Conn],
) -> Result<(), CheckFault>
    ensures { Tells result (connected_twice (value_of lines.old) (map conn_of conns.now)) }
{
    for conn in conns {
        conn_once(alloc, lines, conn)?;
    }
    Ok(())
}

/// Refuses the first of these connections to an input that one before it has.
fn connected_once(alloc: Global, conns: &[Conn]) -> Result<(), CheckFault>
    ensures { Tells result (connected_twice undriven_yet (map conn_of conns.now)) }
{
    let mut lines = NameMap::new(alloc);
    connected_among(alloc, &mut lines, conns)
}

/// The same of a child.
fn child_once(alloc: Global, child: &Child) -> Result<(), CheckFault>
    ensures { Tells result (twice_in_child (child_of child.now)) }
{
    connected_once(alloc, &child.conns)
}

/// The same of children in order.
#[tactic(auto, using(check_core::proofs::Firsts::list_steps))]
fn children_once(alloc: Global, children: &[Child]) -> Result<(), CheckFault>
    ensures { Tells result (first_of twice_in_child (map child_of children.now)) }
{
    for child in children {
        child_once(alloc, child)?;
    }
    Ok(())
}

/// Keeps the line of an assignment.
fn note_stmt(alloc: Global, lines: &mut NameMap<u32>, stmt: &Stmt) -> Result<(), NoMemory>
    ensures { OnOk result (value_of lines.new ≡ all_driven (value_of lines.old) (assignments (stmt_of stmt.now ∷ []))) }
{
    if let Some(target) = stmt.target() {
        note(alloc, lines, stmt.line(), target)?;
    }
    Ok(())
}

/// Keeps the lines of assignments in order.
fn note_stmts(alloc: Global, lines: &mut NameMap<u32>, stmts: &[&Stmt]) -> Result<(), NoMemory>
    ensures { OnOk result (value_of lines.new ≡ all_driven (value_of lines.old) (assignments (stmts_at stmts.now))) }
{
    for stmt in stmts {
        note_stmt(alloc, lines, stmt)?;
    }
    Ok(())
}

/// Refuses an assignment to what is driven already.
fn second_stmt(alloc: Global, lines: &NameMap<u32>, stmt: &Stmt) -> Result<(), CheckFault>
    ensures { Tells result (first_of (second_drive (value_of lines.now)) (assignments (stmt_of stmt.now ∷ []))) }
{
    if let Some(target) = stmt.target() {
        second(alloc, lines, stmt.line(), target)?;
    }
    Ok(())
}

/// Refuses the first of these assignments to what is driven already.
fn second_stmts(alloc: Global, lines: &NameMap<u32>, stmts: &[&Stmt]) -> Result<(), CheckFault>
    ensures { Tells result (first_of (second_drive (value_of lines.now)) (assignments (stmts_at stmts.now))) }
{
    for stmt in stmts {
        second_stmt(alloc, lines, stmt)?;
    }
    Ok(())
}

/// Refuses the first assignment in a block to what is driven already, and keeps the lines of all of them.
#[tactic(auto, unfolding(crate::specs::Blocks::twice_in_block))]
fn block_once(alloc: Global, lines: &mut NameMap<u32>, block: &Block) -> Result<(), CheckFault>
    ensures told { Tells result (twice_in_block (value_of lines.old) (block_of block.now)) }
    ensures lines { OnOk result (value_of lines.new ≡ all_driven (value_of lines.old) (driven_in (block_of block.now))) }
{
    let stmts = statements(alloc, &block.body)?;
    second_stmts(alloc, lines, &stmts)?;
    note_stmts(alloc, lines, &stmts)?;
    Ok(())
}

/// Refuses the first assignment to what is driven already, or what a block before it assigns.
#[tactic(auto, using(crate::proofs::Drives::block_steps))]
fn driven_among(alloc: Global, lines: &mut NameMap<u32>, blocks: &[Block]) -> Result<(), CheckFault>
    ensures { Tells result (driven_twice (value_of lines.old) (map block_of blocks.now)) }
{
    for block in blocks {
        block_once(alloc, lines, block)?;
    }
    Ok(())
}

/// Refuses the first assignment to what a block before it assigns.
fn driven_once(alloc: Global, blocks: &[Block]) -> Result<(), CheckFault>
    ensures { Tells result (driven_twice undriven_yet (map block_of blocks.now)) }
{
    let mut lines = NameMap::new(alloc);
    driven_among(alloc, &mut lines, blocks)
}

/// Refuses the first connection of a variant to an input that has one before it, and the first assignment to what a block before
/// it assigns.
#[tactic(auto, using(check_core::proofs::Firsts::two_steps))]
pub fn two_drivers(alloc: Global, variant: &Variant) -> Result<(), CheckFault>
    ensures { Tells result (the_two_drivers (variant_of variant.now)) }
{
    children_once(alloc, &variant.children)?;
    driven_once(alloc, &variant.blocks)?;
    Ok(())
}
