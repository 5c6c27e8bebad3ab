//! The names in scope of a block: the signals of the module, and then the lets in preorder.

ghost use Rattle.std.specs.Prelude.{◌≡◌, ◌++◌, map, IfOk, OnOk};
ghost use Rattle.design_core.specs.Heads.{names_at};
ghost use Rattle.shape_net.specs.Numbered.{signal_name};

use design_core::Signal;
use std::alloc::Global;
use symtab::Names;
use text_core::{NoMemory, Text};

/// The names of signals, in order.
pub(crate) fn signal_names(alloc: Global, signals: &[Signal]) -> Result<Names, NoMemory>
    ensures { IfOk result (λ names. names ≡ map signal_name signals.now) }
{
    let mut names = Vec::new(alloc);
    for signal in signals {
        names.push(Text::new(alloc, signal.name.bytes())?)?;
    }
    Names::new(alloc, names)
}

/// Puts copies of names behind others.
fn put_names(alloc: Global, names: &mut Vec<Text>, more: &[Text]) -> Result<(), NoMemory>
    ensures { OnOk result (names.new.items ≡ names.old.items ++ more.now) }
{
    for name in more {
        names.push(Text::new(alloc, name.bytes())?)?;
    }
    Ok(())
}

/// The same of names that stand elsewhere.
fn put_lets(alloc: Global, names: &mut Vec<Text>, lets: &[&[u8]]) -> Result<(), NoMemory>
    ensures { OnOk result (names.new.items ≡ names.old.items ++ names_at lets.now) }
{
    for name in lets {
        names.push(Text::new(alloc, name)?)?;
    }
    Ok(())
}

/// Names, and others behind them.
fn both(alloc: Global, first: &[Text], second: &[&[u8]]) -> Result<Names, NoMemory>
    ensures { IfOk result (λ names. names ≡ first.now ++ names_at second.now) }
{
    let mut names = Vec::new(alloc);
    put_names(alloc, &mut names, first)?;
    put_lets(alloc, &mut names, second)?;
    Names::new(alloc, names)
}

/// The names in scope in a block: the signals of its variant as they were declared, then its lets. A block without lets has the
/// list of its variant.
pub(crate) fn scope_names(alloc: Global, signals: &Names, lets: &[&[u8]]) -> Result<Names, NoMemory>
    ensures { IfOk result (λ names. names ≡ signals.now ++ names_at lets.now) }
{
    if lets.is_empty() {
        return signals.share();
    }
    both(alloc, signals.items(), lets)
}
