//! How many slots statements take. An arm of a `case` and an `else` have none of their own.

ghost use Rattle.std.specs.Prelude.{◌≡◌, ◌<◌, ◌^◌, map};
ghost use Rattle.design_core.specs.View.{arms_of, block_of, body_of, else_of, stmt_of};
ghost use Rattle.elab_core.specs.Design.{arms_size, blocks_size, size, else_size, stmt_size};

use design_core::{Arm, Block, Stmt};

/// How many statements stand in a body, with those inside others.
#[cycle(counting)]
#[tactic(auto, using(crate::proofs::SizeLemmas::sizes))]
pub(crate) fn count(body: &[Stmt]) -> u32
    requires { size (body_of body.now) < 2 ^ 32 }
    ensures { result ≡ size (body_of body.now) }
{
    let mut total = 0;
    for stmt in body {
        total += count_stmt(stmt);
    }
    total
}

/// How many statements a statement is, with those inside it.
#[cycle(counting)]
#[tactic(auto, using(design_core::proofs::Views::design_views, crate::proofs::SizeLemmas::sizes))]
fn count_stmt(stmt: &Stmt) -> u32
    requires { stmt_size (stmt_of stmt.now) < 2 ^ 32 }
    ensures { result ≡ stmt_size (stmt_of stmt.now) }
{
    match stmt {
        Stmt::Assign { .. } => 1,
        Stmt::Let { .. } => 1,
        Stmt::If { yes, no, .. } => {
            let first = count(yes);
            let second = count_else(no);
            1 + first + second
        }
        Stmt::Case { arms, other, .. } => {
            let first = count_arms(arms);
            let second = count_else(other);
            1 + first + second
        }
    }
}

/// How many statements arms have.
#[cycle(counting)]
#[tactic(auto, using(crate::proofs::SizeLemmas::sizes))]
fn count_arms(arms: &[Arm]) -> u32
    requires { arms_size (arms_of arms.now) < 2 ^ 32 }
    ensures { result ≡ arms_size (arms_of arms.now) }
{
    let mut total = 0;
    for arm in arms {
        total += count(&arm.body);
    }
    total
}

/// How many statements an `else` or a default holds, if one stands there.
#[cycle(counting)]
fn count_else(no: &Option<Vec<Stmt>>) -> u32
    requires { else_size (else_of no.now) < 2 ^ 32 }
    ensures { result ≡ else_size (else_of no.now) }
{
    match no {
        Some(body) => count(body),
        None => 0,
    }
}

/// How many statements blocks have.
#[tactic(auto, using(crate::proofs::SizeLemmas::sizes))]
pub(crate) fn count_blocks(blocks: &[Block]) -> u32
    requires { blocks_size (map block_of blocks.now) < 2 ^ 32 }
    ensures { result ≡ blocks_size (map block_of blocks.now) }
{
    let mut total = 0;
    for block in blocks {
        total += count(&block.body);
    }
    total
}
