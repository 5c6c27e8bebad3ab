//! Judges the source of a design and its stimulus: what is accepted, and why the rest is refused.
//!
//! A source is read, elaborated from its top, checked, and put in order; the first of these steps that refuses it says why. That
//! order is told in two halves, in `specs/Judgement.antt`: which sources texts are, and which design sources that were read are.
//! The number, the name and the line of each refusal stand in `specs/Refusals.antt`.
#![tactic(auto)]

mod accepted;
mod design_fault;
mod fields;
mod files;
mod laws;
mod lines;
mod loops;
mod source;
mod stimulus_fault;

pub use accepted::{Accepted, Named};
pub use design_fault::DesignFault;
pub use files::{judge_design, judge_named, judge_rows, judge_stimulus};
pub use laws::{lines_are_so, sources_have_one_judgement};
pub use lines::{design_line, stimulus_line};
pub use source::{judge_sources, judge_text};
pub use stimulus_fault::{stimulus_name, stimulus_number};
