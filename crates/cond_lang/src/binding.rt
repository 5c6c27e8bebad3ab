//! From a text that was read to a condition at a place. All names are found before a width is judged, so that the first name without
//! a value is told whatever does not fit.

ghost use Rattle.std.specs.Prelude.{◌≡◌, Option, Ok, IfOk, IfErr, []};
ghost use Rattle.std.specs.Str.{IsUtf8};
ghost use Rattle.list_core.specs.Lists.{EachOf};
ghost use Rattle.bv_core.specs.declared.Binding as binding;
ghost use Rattle.cond_lang.specs.Names.{Name};
ghost use Rattle.cond_lang.specs.Judged.{judged};
ghost use Rattle.cond_lang.specs.Meaning.{tree_of, leaves};
ghost use Rattle.cond_lang.specs.Bound.{IsRef, scope_of, bound_by};
ghost use Rattle.cond_lang.specs.Faults.{Refuses, Makes, TellsFound};
ghost use Rattle.cond_lang.specs.Found.{Says, Finds, name_ref, found_after};
ghost use Rattle.cond_lang.specs.Places.{AreRefs, bound_at};
ghost use Rattle.cond_lang.specs.Shown.{cond_tree, cond_width};
ghost use Rattle.cond_lang.specs.TextShown.{text_expr, text_offsets};

use crate::cond::Cond;
use crate::fault::BindEnd;
use crate::text::CondText;
use crate::widths::judge;
use bv_core::{Binding, Ref};
use std::alloc::Global;
use std::sync::Arc;
use text_core::Text;

/// What a name stands for, which is a text.
fn found<F: Fn(&str) -> Option<Binding>>(name: &[u8], find: &F) -> Option<Binding>
    requires callable { F.IsAlwaysCallable find.now }
    requires text { IsUtf8 name.now }
    ensures { (places : Name → Option binding.Binding) → Says F.Fn find.now places name.now → result ≡ places name.now }
{
    match std::str::from_utf8(name) {
        Ok(name) => find(name),
        Err(_) => None,
    }
}

/// Where the value of a name is found, which stands for this.
fn ref_of(alloc: Global, name: &[u8], found: Option<Binding>) -> Result<Ref, BindEnd>
    ensures found { TellsFound (λ at. at) result (name_ref name.now found) }
    ensures good { IfOk result IsRef }
{
    match found {
        Some(Binding::Value(at)) => Ok(at),
        Some(Binding::Unset) => Err(BindEnd::Unset {
            name: Text::new(alloc, name)?,
        }),
        Some(Binding::Removed) => Err(BindEnd::Removed {
            name: Text::new(alloc, name)?,
        }),
        None => Err(BindEnd::Unknown {
            name: Text::new(alloc, name)?,
        }),
    }
}

/// Where the values of names are found, each in turn.
fn refs_of<F: Fn(&str) -> Option<Binding>>(
    alloc: Global,
    names: &[Text],
    find: &F,
) -> Result<Vec<Ref>, BindEnd>
    requires callable { F.IsAlwaysCallable find.now }
    requires texts { EachOf (λ name. IsUtf8 name) names.now }
    ensures good { IfOk result (λ refs. AreRefs refs.items) }
    ensures found { (places : Name → Option binding.Binding) → Finds F.Fn find.now places names.now
        → TellsFound (λ refs. refs.items) result (found_after places [] names.now) }
{
    let mut refs = Vec::new(alloc);
    for name in names {
        let found = found(name.bytes(), find);
        let at = ref_of(alloc, name.bytes(), found)?;
        refs.push(at)?;
    }
    Ok(refs)
}

/// A text's form over places at which its widths fit.
fn cond_at(text: &CondText, refs: Vec<Ref>) -> Result<Cond, BindEnd>
    requires { AreRefs refs.items }
    ensures { Makes (λ cond. (cond_tree cond, cond_width cond)) result (bound_at refs.items text.now.offsets.items text.now.form.value.parts.items) }
{
    let (width, _, _) = judge(&text.form.parts, &refs, &text.offsets, text.offsets.len());
    match width {
        Ok(width) => Ok(Cond {
            form: Arc::try_clone(&text.form)?,
            refs,
            width,
        }),
        Err(offset) => Err(BindEnd::Width {
            offset: u64::from(offset),
        }),
    }
}

/// The condition that a text is at a place, where `find` answers what each name of the text stands for there. It is asked once for each
/// of them, in the order in which they first come, however often they stand there, and for no other.
///
/// # Errors
///
/// `Unknown`, `Removed` and `Unset` with the first name in the text that has no value there; `Width` with the offset of the first
/// part that does not fit, where all names have values; and `NoMemory`.
pub fn bind<F: Fn(&str) -> Option<Binding>>(
    alloc: Global,
    text: &CondText,
    find: &F,
) -> Result<Cond, BindEnd>
    requires { F.IsAlwaysCallable find.now }
    ensures width { (places : Name → Option binding.Binding) → Finds F.Fn find.now places (leaves (tree_of (text_expr text.now)))
        → IfOk result (λ cond. judged (scope_of places) (text_expr text.now) (text_offsets text.now) ≡ Ok (cond_width cond)) }
    ensures bound { (places : Name → Option binding.Binding) → Finds F.Fn find.now places (leaves (tree_of (text_expr text.now)))
        → IfOk result (λ cond. cond_tree cond ≡ bound_by places (text_expr text.now)) }
    ensures refused { (places : Name → Option binding.Binding) → Finds F.Fn find.now places (leaves (tree_of (text_expr text.now)))
        → IfErr result (λ end. Refuses end (judged (scope_of places) (text_expr text.now) (text_offsets text.now))) }
{
    let refs = refs_of(alloc, &text.names, find)?;
    cond_at(text, refs)
}
