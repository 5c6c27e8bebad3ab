//! How many cells a design will have. They are counted before anything is made of it: this bound keeps the tables of the debugger in memory.

ghost use Rattle.std.specs.Prelude.{◌≡◌, ◌+◌, ◌*◌, ◌<◌, ◌≤◌, ◌^◌, min, nat_lt, length, map};
ghost use Rattle.design_core.specs.Slots.{arms_lets, lets_of, let_of, else_lets};
ghost use Rattle.design_core.specs.View.{arms_of, block_of, body_of, else_of, stmt_of};
ghost use Rattle.elab_core.specs.Design.{arms_size, blocks_cells, blocks_size, cells, size, stmt_size, else_size};
ghost use Rattle.elab_core.specs.View.{content_of, instance_of};
ghost use Rattle.gen_elab.specs.Offsets.{all_statements};

use crate::sizes::count;
use design_core::{Arm, Block, Stmt};
use elab_core::{Content, Instance};

/// The most cells that a design has.
pub(crate) const MOST_CELLS: u64 = 4_000_000;

/// How many lets stand in a body, with those inside others.
#[cycle(lets)]
#[tactic(auto, using(crate::proofs::CellLemmas::cell_steps))]
fn count_lets(body: &[Stmt]) -> u32
    requires { size (body_of body.now) < 2 ^ 32 }
    ensures { result ≡ length (lets_of (body_of body.now)) }
{
    let mut total = 0;
    for stmt in body {
        total += stmt_lets(stmt);
    }
    total
}

/// How many lets a statement is, with those inside it.
#[cycle(lets)]
#[tactic(auto, using(design_core::proofs::Views::design_views, crate::proofs::CellLemmas::cell_steps))]
fn stmt_lets(stmt: &Stmt) -> u32
    requires { stmt_size (stmt_of stmt.now) < 2 ^ 32 }
    ensures { result ≡ length (let_of (stmt_of stmt.now)) }
{
    match stmt {
        Stmt::Assign { .. } => 0,
        Stmt::Let { .. } => 1,
        Stmt::If { yes, no, .. } => {
            let first = count_lets(yes);
            let second = count_else_lets(no);
            first + second
        }
        Stmt::Case { arms, other, .. } => {
            let first = count_arm_lets(arms);
            let second = count_else_lets(other);
            first + second
        }
    }
}

/// How many lets arms have.
#[cycle(lets)]
#[tactic(auto, using(crate::proofs::CellLemmas::cell_steps))]
fn count_arm_lets(arms: &[Arm]) -> u32
    requires { arms_size (arms_of arms.now) < 2 ^ 32 }
    ensures { result ≡ length (arms_lets (arms_of arms.now)) }
{
    let mut total = 0;
    for arm in arms {
        total += count_lets(&arm.body);
    }
    total
}

/// How many lets an `else` or a default holds, if one stands there.
#[cycle(lets)]
fn count_else_lets(no: &Option<Vec<Stmt>>) -> u32
    requires { else_size (else_of no.now) < 2 ^ 32 }
    ensures { result ≡ length (else_lets (else_of no.now)) }
{
    match no {
        Some(body) => count_lets(body),
        None => 0,
    }
}

/// The cells of a block among so many signals; the greatest number where they are more.
#[tactic(auto, using(crate::proofs::CellLemmas::cell_steps))]
fn cells_of_block(signals: usize, block: &Block) -> u64
    requires few { size (block_of block.now).body < 2 ^ 32 }
    requires signals { signals < 2 ^ 63 }
    ensures { result ≡ min (size (block_of block.now).body * (signals + length (lets_of (block_of block.now).body))) 18446744073709551615 }
{
    let statements = u64::from(count(&block.body));
    let names = signals as u64 + u64::from(count_lets(&block.body));
    statements.saturating_mul(names)
}

/// The cells of what a body gives; the greatest number where they are more.
#[tactic(auto, unfolding(elab_core::specs::View::content_of), using(crate::proofs::CellLemmas::cell_steps))]
fn cells_of_content(content: &Content) -> u64
    requires { blocks_size (content_of content.now).blocks < 2 ^ 32 }
    ensures { result ≡ min (blocks_cells (content_of content.now) (content_of content.now).blocks) 18446744073709551615 }
{
    let mut total: u64 = 0;
    for block in &content.blocks {
        total = total.saturating_add(cells_of_block(content.signals.len(), block));
    }
    total
}

/// Whether there are more cells than a design has.
#[tactic(auto, using(crate::proofs::CellLemmas::cell_steps))]
pub(crate) fn are_too_many(instances: &[Instance]) -> bool
    requires { all_statements (map instance_of instances.now) ≤ 200000 }
    ensures { result ≡ nat_lt 4000000 (cells (map instance_of instances.now)) }
{
    let mut total: u64 = 0;
    for instance in instances {
        total = total.saturating_add(cells_of_content(&instance.content));
    }
    MOST_CELLS < total
}
