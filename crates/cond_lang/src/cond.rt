//! Conditions at a place. That a condition's widths fit is kept in its type, so that evaluation need not ask.

ghost use Rattle.cond_lang.specs.Bound.{IsBound};
ghost use Rattle.cond_lang.specs.Places.{tree_at};
ghost use Rattle.cond_lang.specs.Single.{bound_prop};

use crate::form::Form;
use bv_core::Ref;
use std::sync::Arc;

/// A condition at a place: the form of its text, where its names are found there, and its width. Its widths fit.
#[derive(Drop)]
pub struct Cond {
    pub(crate) form: Arc<Form>,
    pub(crate) refs: Vec<Ref>,
    pub(crate) width: u8,
    ghost fits: { IsBound (tree_at refs.items form.value.parts.items) width } by { bound_prop (tree_at refs.items form.value.parts.items) width },
}
