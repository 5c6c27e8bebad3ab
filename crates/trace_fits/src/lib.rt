//! Whether a trace fits a symbol table: asked of the two before a debugger is made of them.
//!
//! A debugger has the condition that its trace fits its table. Whoever has a trace of a compiled design knows that it does; whoever has
//! one of another kind asks here.
#![tactic(auto)]

mod fitting;

pub use fitting::fits;
