//! The statements of a variant as slots, in preorder.

ghost use Rattle.std.specs.Prelude.{◌≡◌, ◌++◌, ◌≤◌, length, map, IfOk, OnOk};
ghost use Rattle.std.specs.List.{flat_map};
ghost use Rattle.design_core.specs.View.{block_of, stmt_of, variant_of};
ghost use Rattle.design_core.specs.Statements.{stmts_at};
ghost use Rattle.shape_net.specs.Numbered.{block_slots, design_slots, numbered_stmt, variant_slots};

use crate::ordered::NumberedSlot;
use crate::parts::gens_of;
use crate::scopes::{scope_names, signal_names};
use design_core::{Block, Stmt, Variant, let_names, statements};
use gen_scope::Scope;
use std::alloc::Global;
use symtab::{Names, Slot};
use text_core::{Listed, NoMemory};

/// A statement of the variant of this number, with its own number, where these names are in scope.
fn numbered(
    alloc: Global,
    variant: u32,
    names: &Names,
    stmt: &Stmt,
) -> Result<NumberedSlot, NoMemory>
    ensures { IfOk result (λ numbered. numbered ≡ numbered_stmt variant names.now (stmt_of stmt.now)) }
{
    let gens = gens_of(alloc, stmt.gens())?;
    let names = names.share()?;
    Ok(NumberedSlot {
        number: stmt.slot(),
        slot: Slot {
            variant,
            line: stmt.line(),
            gens,
            names,
            rows: Listed::new(Vec::new(alloc)),
        },
    })
}

/// Puts statements of a block behind others.
fn put_stmts(
    alloc: Global,
    variant: u32,
    names: &Names,
    stmts: &[&Stmt],
    slots: &mut Vec<NumberedSlot>,
) -> Result<(), NoMemory>
    ensures { OnOk result (slots.new.items ≡ slots.old.items ++ map (numbered_stmt variant names.now) (stmts_at stmts.now)) }
{
    for stmt in stmts {
        slots.push(numbered(alloc, variant, names, stmt)?)?;
    }
    Ok(())
}

/// Puts the statements of a block of a variant whose signals have these names behind others, in preorder.
fn put_block(
    alloc: Global,
    variant: u32,
    signals: &Names,
    block: &Block,
    slots: &mut Vec<NumberedSlot>,
) -> Result<(), NoMemory>
    ensures { OnOk result (slots.new.items ≡ slots.old.items ++ block_slots variant signals.now (block_of block.now)) }
{
    let stmts = statements(alloc, &block.body)?;
    let lets = let_names(alloc, &stmts)?;
    let names = scope_names(alloc, signals, &lets)?;
    put_stmts(alloc, variant, &names, &stmts, slots)?;
    Ok(())
}

/// Puts the statements of blocks of a variant whose signals have these names behind others, block by block.
fn put_blocks(
    alloc: Global,
    variant: u32,
    signals: &Names,
    blocks: &[Block],
    slots: &mut Vec<NumberedSlot>,
) -> Result<(), NoMemory>
    ensures { OnOk result (slots.new.items ≡ slots.old.items ++ flat_map (block_slots variant signals.now) (map block_of blocks.now)) }
{
    for block in blocks {
        put_block(alloc, variant, signals, block, slots)?;
    }
    Ok(())
}

/// Puts the statements of a variant behind others.
fn put_variant(
    alloc: Global,
    number: u32,
    variant: &Variant,
    slots: &mut Vec<NumberedSlot>,
) -> Result<(), NoMemory>
    ensures { OnOk result (slots.new.items ≡ slots.old.items ++ variant_slots number (variant_of variant.now)) }
{
    let signals = signal_names(alloc, variant.signals.items())?;
    put_blocks(alloc, number, &signals, &variant.blocks, slots)?;
    Ok(())
}

/// The statements of all variants with their numbers, variant by variant.
pub(crate) fn numbered_slots(
    alloc: Global,
    variants: &[Variant],
) -> Result<Vec<NumberedSlot>, NoMemory>
    requires { length variants.now ≤ 4096 }
    ensures { IfOk result (λ slots. slots.items ≡ design_slots 0 (map variant_of variants.now)) }
{
    let mut slots = Vec::new(alloc);
    for (number, variant) in variants.iter().enumerate() {
        put_variant(alloc, number as u32, variant, &mut slots)?;
    }
    Ok(slots)
}
