//! What a walk over the items of a body holds.

use crate::made::Here;
use crate::modules::Modules;
use gen_scope::Scope;
use std::alloc::Global;

/// A walker over the items of a body: the modules of the source, how many levels of instances there is room for below, the instance
/// whose body it is, and the numbers of the names where it stands.
#[derive(Clone, Copy)]
pub(crate) struct Walker<'w> {
    pub alloc: Global,
    pub modules: &'w Modules<'w>,
    pub room: u32,
    pub here: &'w Here,
    pub scope: &'w Scope,
}
