//! What a refusal means and what to do about it, for the people who meet one at a terminal.
//!
//! The refusals themselves are told on standard output, and by others. Here stand the sentences beside them, the reading of such a line, and a
//! look at the source: where a signal is declared, and what often stands behind a place that no source goes on with. Nothing here knows how a
//! source is judged: it looks at pieces of text, and what it finds is a hint. It takes no memory.
#![tactic(auto)]

mod fault;
mod pieces;
mod signs;
mod table;
mod text;
mod whereabouts;

pub use fault::{Fault, fault_of};
pub use signs::{Signs, signs_of};
pub use table::{Advice, DESIGN, SENTENCES, STIMULUS, advice_on, sentence_on};
pub use text::{line_at, line_of_offset};
pub use whereabouts::{Assigned, Declared, assigns, declared_as, declared_line};
