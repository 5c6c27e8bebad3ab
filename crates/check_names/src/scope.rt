//! What may be read and assigned in a module: signals, children, and what a block may assign by its kind.

ghost use Rattle.std.specs.Prelude.{◌≡◌, IfOk, OnOk, map};
ghost use Rattle.design_core.specs.View.{child_of, variant_of};
ghost use Rattle.names.specs.Known.{either, has};
ghost use Rattle.check_core.specs.Names.{child_named, scope_of as the_scope};
ghost use Rattle.check_names.specs.Scopes.{scope_in};

use check_core::{Kinds, names_of};
use design_core::{Child, Variant};
use names::NameSet;
use std::alloc::Global;
use text_core::NoMemory;

/// What may be read and assigned in a module, by name.
#[derive(Drop)]
pub(crate) struct Scope {
    pub(crate) signals: NameSet,
    pub(crate) children: NameSet,
    pub(crate) driven: NameSet,
    pub(crate) registers: NameSet,
}

/// Puts the names of children in.
pub(crate) fn put_children(
    alloc: Global,
    names: &mut NameSet,
    children: &[Child],
) -> Result<(), NoMemory>
    ensures { OnOk result (has names.new ≡ either (has names.old) (child_named (map child_of children.now))) }
{
    for child in children {
        names.insert(alloc, child.name.bytes())?;
    }
    Ok(())
}

/// The names of children.
fn children_of(alloc: Global, children: &[Child]) -> Result<NameSet, NoMemory>
    ensures { IfOk result (λ names. has names ≡ child_named (map child_of children.now)) }
{
    let mut names = NameSet::new(alloc);
    put_children(alloc, &mut names, children)?;
    Ok(names)
}

/// What may be read and assigned in a variant.
pub(crate) fn scope_of(alloc: Global, variant: &Variant) -> Result<Scope, NoMemory>
    ensures { IfOk result (λ scope. scope_in scope ≡ the_scope (variant_of variant.now)) }
{
    let signals = variant.signals.items();
    Ok(Scope {
        signals: names_of(alloc, Kinds::Any, signals)?,
        children: children_of(alloc, &variant.children)?,
        driven: names_of(alloc, Kinds::Driven, signals)?,
        registers: names_of(alloc, Kinds::Registers, signals)?,
    })
}
