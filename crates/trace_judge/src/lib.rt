//! Judges a symbol file, and a value change dump file as the trace of its table: what is accepted, and why the rest is refused.
//!
//! What a file is judged to be is one definition, `specs/Judgement.antt`; the number, the name and the line of each refusal stand in
//! `specs/Refusals.antt`.
#![tactic(auto)]

mod fields;
mod files;
mod laws;
mod lines;
mod refusals;
mod trace_fault;

pub use files::{judge_table, judge_trace};
pub use laws::{lines_are_so, texts_have_one_judgement};
pub use lines::{table_line, trace_line};
pub use refusals::{table_name, table_number};
pub use trace_fault::TraceFault;
