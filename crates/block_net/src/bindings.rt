//! What is pending for keys at the end of a branch, and the choice between two ends. A key keeps which of its bits are assigned on every path, which
//! decides `unset`.

ghost use Rattle.std.specs.Prelude.{◌≡◌, [], IfOk, OnOk};
ghost use Rattle.names.specs.Maps.{value_of};
ghost use Rattle.name_widths.specs.DeclaredWidths.{width_at};
ghost use Rattle.block_net.specs.Terms.{Extends, IsWithin, tree_for};
ghost use Rattle.block_net.specs.Walks.{Bind, Chooses, Fits, Grown, HaveTerms, SetsAll, Shows, StandsFor, among, choice, keys_of, pending_in, state_of};

use crate::held::Pending;
use crate::walk::Walk;
use crate::{Key, TermId};
use names::NameMap;
use std::alloc::Global;
use text_core::NoMemory;

/// A key with what is pending for it somewhere.
#[derive(Drop)]
pub(crate) struct Binding {
    pub(crate) key: Key,
    pub(crate) pending: Pending,
}

/// What is pending for these keys.
pub(crate) fn pick(alloc: Global, walk: &mut Walk, keys: &[Key]) -> Result<Vec<Binding>, NoMemory>
    requires { Fits walk.old }
    ensures grown { OnOk result (Grown walk.old walk.new) }
    ensures keys { IfOk result (λ bindings. among (keys_of bindings.items) ≡ among keys.now) }
    ensures bind { IfOk result (λ bindings. Bind walk.new.terms (state_of walk.old) bindings.items) }
{
    let mut bindings = Vec::new(alloc);
    for key in keys {
        let pending = walk.pending_of(alloc, key)?;
        let key = key.copy(alloc)?;
        bindings.push(Binding { key, pending })?;
    }
    Ok(bindings)
}

/// Sets keys to what was pending for them somewhere.
pub(crate) fn set_all(
    alloc: Global,
    widths: &NameMap<i64>,
    walk: &mut Walk,
    bindings: &[Binding],
) -> Result<(), NoMemory>
    requires fits { Fits walk.old }
    requires shows { Shows (width_at (value_of widths.now)) walk.old }
    requires within { HaveTerms walk.old.terms bindings.now }
    ensures fits { OnOk result (Fits walk.new) }
    ensures shows { OnOk result (Shows (width_at (value_of widths.now)) walk.new) }
    ensures terms { OnOk result (Extends walk.old.terms walk.new.terms) }
    ensures sets { OnOk result (SetsAll (width_at (value_of widths.now)) bindings.now walk.old walk.new) }
{
    for binding in bindings {
        let key = binding.key.copy(alloc)?;
        walk.set(alloc, widths, key, binding.pending)?;
    }
    Ok(())
}

/// A choice between two that are pending, with the bits that are assigned in both.
fn choice(
    walk: &mut Walk,
    test: Option<TermId>,
    first: Pending,
    second: Pending,
) -> Result<Pending, NoMemory>
    requires fits { Fits walk.old }
    requires test { IsWithin walk.old.terms test }
    requires first { IsWithin walk.old.terms first.id }
    requires second { IsWithin walk.old.terms second.id }
    ensures grown { OnOk result (Grown walk.old walk.new) }
    ensures stands { IfOk result (λ chosen. StandsFor walk.new.terms chosen
        (choice (tree_for walk.old.terms test) (pending_in walk.old.terms first) (pending_in walk.old.terms second))) }
{
    let id = walk.mux(test, first.id, second.id)?;
    let bits = first.bits.common(second.bits);
    Ok(Pending { id, bits })
}

/// For keys with what was pending for them somewhere: a choice between that and what is pending for them now.
pub(crate) fn choose(
    alloc: Global,
    walk: &mut Walk,
    test: Option<TermId>,
    firsts: &[Binding],
) -> Result<Vec<Binding>, NoMemory>
    requires fits { Fits walk.old }
    requires test { IsWithin walk.old.terms test }
    requires within { HaveTerms walk.old.terms firsts.now }
    ensures grown { OnOk result (Grown walk.old walk.new) }
    ensures keys { IfOk result (λ bindings. among (keys_of bindings.items) ≡ among (keys_of firsts.now)) }
    ensures have { IfOk result (λ bindings. HaveTerms walk.new.terms bindings.items) }
    ensures chooses { IfOk result (λ bindings. Chooses test firsts.now bindings.items walk.old walk.new) }
{
    let mut bindings = Vec::new(alloc);
    for first in firsts {
        let second = walk.pending_of(alloc, &first.key)?;
        let pending = choice(walk, test, first.pending, second)?;
        let key = first.key.copy(alloc)?;
        bindings.push(Binding { key, pending })?;
    }
    Ok(bindings)
}
