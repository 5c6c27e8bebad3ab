//! Names that two things have: the first in the order of their lines and places is refused.

ghost use Rattle.std.specs.Prelude.{◌≡◌, ◌++◌, [], ◌∷◌, IfOk, OnOk, map};
ghost use Rattle.design_core.specs.View.{block_of, child_of, stmt_of, variant_of};
ghost use Rattle.names.specs.Known.{either, has, none, with};
ghost use Rattle.check_core.specs.Faults.{Tells, first_of};
ghost use Rattle.design_core.specs.Statements.{stmts_at};
ghost use Rattle.check_core.specs.Names.{child_thing, duplicate_in_block, duplicate_name as the_duplicate_name, lets_in, signal_thing, taken_in, taken_twice, things};
ghost use Rattle.check_names.specs.Things.{things_at};

use crate::scope::put_children;
use check_core::{CheckFault, Kinds, names_of, spot};
use design_core::{Block, Child, Signal, Stmt, Variant, statements};
use names::NameSet;
use std::alloc::Global;
use text_core::NoMemory;

/// Whether a name is taken or was met, and meets it.
fn is_taken(
    alloc: Global,
    taken: &NameSet,
    met: &mut NameSet,
    name: &[u8],
) -> Result<bool, NoMemory>
    ensures taken { IfOk result (λ is_taken. is_taken ≡ either (has met.old) (has taken.now) name.now) }
    ensures met { OnOk result (has met.new ≡ with name.now (has met.old)) }
{
    let was_taken = taken.contains(name);
    let is_new = met.insert(alloc, name)?;
    Ok(!is_new || was_taken)
}

/// Refuses the first of these names, each with its line, that is taken, or that stands before it.
fn taken_twice(alloc: Global, taken: &NameSet, things: &[(u32, &[u8])]) -> Result<(), CheckFault>
    ensures { Tells result (taken_twice (has taken.now) (things_at things.now)) }
{
    let mut met = NameSet::new(alloc);
    for (line, name) in things {
        if is_taken(alloc, taken, &mut met, name)? {
            return Err(CheckFault::DuplicateName(spot(alloc, *line, name)?));
        }
    }
    Ok(())
}

/// Puts the names of signals behind those that are there.
fn put_signals<'a>(found: &mut Vec<(u32, &'a [u8])>, signals: &'a [Signal]) -> Result<(), NoMemory>
    ensures { OnOk result (things_at found.new.items ≡ things_at found.old.items ++ map signal_thing signals.now) }
{
    for signal in signals {
        found.push((signal.line, signal.name.bytes()))?;
    }
    Ok(())
}

/// Puts the names of children behind those that are there.
fn put_child_names<'a>(
    found: &mut Vec<(u32, &'a [u8])>,
    children: &'a [Child],
) -> Result<(), NoMemory>
    ensures { OnOk result (things_at found.new.items ≡ things_at found.old.items ++ map child_thing (map child_of children.now)) }
{
    for child in children {
        found.push((child.line, child.name.bytes()))?;
    }
    Ok(())
}

/// Puts the name of a `let` behind those that are there.
fn put_let<'a>(found: &mut Vec<(u32, &'a [u8])>, stmt: &'a Stmt) -> Result<(), NoMemory>
    ensures { OnOk result (things_at found.new.items ≡ things_at found.old.items ++ lets_in (stmt_of stmt.now ∷ [])) }
{
    if let Some(name) = stmt.let_name() {
        found.push((stmt.line(), name))?;
    }
    Ok(())
}

/// The lets of statements, each with its line.
#[tactic(auto, using(crate::proofs::TakenSteps::lets_next, crate::proofs::TakenSteps::lets_end))]
fn lets_of<'a>(alloc: Global, stmts: &[&'a Stmt]) -> Result<Vec<(u32, &'a [u8])>, NoMemory>
    ensures { IfOk result (λ found. things_at found.items ≡ lets_in (stmts_at stmts.now)) }
{
    let mut found = Vec::new(alloc);
    for stmt in stmts {
        put_let(&mut found, stmt)?;
    }
    Ok(found)
}

/// The signals of a variant as declared, then its children, each with its line.
fn things_of(alloc: Global, variant: &Variant) -> Result<Vec<(u32, &[u8])>, NoMemory>
    ensures { IfOk result (λ found. things_at found.items ≡ things (variant_of variant.now)) }
{
    let mut found = Vec::new(alloc);
    put_signals(&mut found, variant.signals.items())?;
    put_child_names(&mut found, &variant.children)?;
    Ok(found)
}

/// Refuses the first `let` of a block that has a name that is taken, or that another has before it.
fn duplicate_in_block(alloc: Global, taken: &NameSet, block: &Block) -> Result<(), CheckFault>
    ensures { Tells result (duplicate_in_block (has taken.now) (block_of block.now)) }
{
    let stmts = statements(alloc, &block.body)?;
    let lets = lets_of(alloc, &stmts)?;
    taken_twice(alloc, taken, &lets)
}

/// The same of blocks in order.
#[tactic(auto, using(check_core::proofs::Firsts::list_steps))]
fn duplicate_in_blocks(alloc: Global, taken: &NameSet, blocks: &[Block]) -> Result<(), CheckFault>
    ensures { Tells result (first_of (duplicate_in_block (has taken.now)) (map block_of blocks.now)) }
{
    for block in blocks {
        duplicate_in_block(alloc, taken, block)?;
    }
    Ok(())
}

/// Refuses the first signal or child that has the name of one before it.
fn duplicate_thing(alloc: Global, variant: &Variant) -> Result<(), CheckFault>
    ensures { Tells result (taken_twice none (things (variant_of variant.now))) }
{
    let found = things_of(alloc, variant)?;
    let taken = NameSet::new(alloc);
    taken_twice(alloc, &taken, &found)
}

/// The names of the signals and children of a variant.
fn taken_of(alloc: Global, variant: &Variant) -> Result<NameSet, NoMemory>
    ensures { IfOk result (λ taken. has taken ≡ taken_in (variant_of variant.now)) }
{
    let mut taken = names_of(alloc, Kinds::Any, variant.signals.items())?;
    put_children(alloc, &mut taken, &variant.children)?;
    Ok(taken)
}

/// Refuses the first `let` that has the name of a signal or a child, or of a `let` before it in its block.
fn duplicate_let(alloc: Global, variant: &Variant) -> Result<(), CheckFault>
    ensures { Tells result (first_of (duplicate_in_block (taken_in (variant_of variant.now))) (variant_of variant.now).blocks) }
{
    let taken = taken_of(alloc, variant)?;
    duplicate_in_blocks(alloc, &taken, &variant.blocks)
}

/// Refuses the first signal, child or `let` of a variant whose name a signal or a child has, or a `let` before it in its block.
#[tactic(auto, using(check_core::proofs::Firsts::two_steps))]
pub fn duplicate_name(alloc: Global, variant: &Variant) -> Result<(), CheckFault>
    ensures { Tells result (the_duplicate_name (variant_of variant.now)) }
{
    duplicate_thing(alloc, variant)?;
    duplicate_let(alloc, variant)?;
    Ok(())
}
