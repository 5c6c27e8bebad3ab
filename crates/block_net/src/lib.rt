//! A block run on expressions in place of values: its rows and its last trees, as numbered terms that share what they have in common.
#![tactic(auto)]

mod arms;
mod bindings;
mod block;
mod body;
mod effect;
mod expression;
mod growing;
mod held;
mod key;
mod key_set;
mod keys;
mod laws;
mod order;
mod part;
mod term;
mod terms;
mod walk;

pub use block::{BlockTerms, block_terms};
pub use effect::Effect;
pub use expression::expr_terms;
pub use key::Key;
pub use keys::assigned_by;
pub use laws::tells_the_sample;
pub use term::{Term, TermId};
