//! Where is waited. It has a file of its own, as what is kept in the types that hold it stands on few definitions.

use cond_lang::Cond;

/// Where a breakpoint or a watch waits: a slot, an instance, and the expression there, if there is one.
#[derive(Drop)]
pub struct Trap {
    pub slot: u32,
    pub instance: u32,
    pub cond: Option<Cond>,
}
