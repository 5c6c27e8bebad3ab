//! The keys of a `case`, from its default back to its first arm. It decides that the keys of an arm with all that comes after it are a front
//! of one list, so that no list is made for each arm.

ghost use Rattle.std.specs.Prelude.{◌≡◌, ◌<◌, ◌≤◌, length, take, slice_index_or, IfOk, OnOk};
ghost use Rattle.block_net.specs.Arms.{IsOrder};
ghost use Rattle.block_net.specs.Sets.{IsKept, KeysMore};
ghost use Rattle.block_net.specs.Source.{arms_in, body_in, else_in};
ghost use Rattle.block_net.specs.Walks.{among, either};
ghost use Rattle.exec_core.specs.Block.{body_assigns};

use crate::Key;
use crate::key_set::KeySet;
use crate::keys::{collect, collect_else};
use design_core::{Arm, Stmt};
use std::alloc::Global;
use text_core::NoMemory;

/// Keys, and for each arm how many of them, from the first on, it and what comes after it assign.
#[derive(Drop)]
pub(crate) struct Order {
    pub(crate) keys: Vec<Key>,
    pub(crate) counts: Vec<usize>,
}

/// Puts the keys of statements in, unless they are there.
fn add_body(alloc: Global, set: &mut KeySet, clocked: bool, stmts: &[Stmt]) -> Result<(), NoMemory>
    requires { IsKept set.old }
    ensures kept { OnOk result (IsKept set.new) }
    ensures more { OnOk result (KeysMore set.old set.new) }
    ensures keys { OnOk result (among set.new.keys.items ≡ either (among set.old.keys.items) (body_assigns (body_in clocked stmts.now))) }
{
    let mut keys = Vec::new(alloc);
    collect(alloc, clocked, stmts, &mut keys)?;
    set.add_all(alloc, &keys)?;
    Ok(())
}

/// The same of what a default holds.
fn add_else(
    alloc: Global,
    set: &mut KeySet,
    clocked: bool,
    other: &Option<Vec<Stmt>>,
) -> Result<(), NoMemory>
    requires { IsKept set.old }
    ensures kept { OnOk result (IsKept set.new) }
    ensures keys { OnOk result (among set.new.keys.items ≡ either (among set.old.keys.items) (body_assigns (else_in clocked other.now))) }
{
    let mut keys = Vec::new(alloc);
    collect_else(alloc, clocked, other, &mut keys)?;
    set.add_all(alloc, &keys)?;
    Ok(())
}

/// The keys of arms and of a default.
pub(crate) fn order_of(
    alloc: Global,
    clocked: bool,
    arms: &[Arm],
    other: &Option<Vec<Stmt>>,
) -> Result<Order, NoMemory>
    ensures { IfOk result (λ order. IsOrder (arms_in clocked arms.now) (else_in clocked other.now) order) }
{
    let mut set = KeySet::new(alloc);
    add_else(alloc, &mut set, clocked, other)?;
    let mut counts = Vec::new(alloc);
    let mut left = arms.len();
    while left > 0 {
        left -= 1;
        add_body(alloc, &mut set, clocked, &arms[left].body)?;
        counts.push(set.keys.len())?;
    }
    counts.reverse();
    Ok(Order {
        keys: set.keys,
        counts,
    })
}

impl Order {
    /// The keys of the arm at a place, and of what comes after it.
    pub(crate) fn keys_from(&self, at: usize) -> &[Key]
        requires within { at < length self.now.counts.items }
        requires count { slice_index_or self.now.counts.items at 0 ≤ length self.now.keys.items }
        ensures { result.now ≡ take (slice_index_or self.now.counts.items at 0) self.now.keys.items }
    {
        &self.keys[..self.counts[at]]
    }
}
