//! Tests of the crates at the bottom: texts and digits, files and sinks in memory, tokens, bit vectors and traces of value
//! changes.
//!
//! They stand apart from the crates that they test, since a crate with tests is proved twice: with them and without. What
//! is wanted is written down here, case by case, from what the language and its tools are to do. Each test goes over a
//! `static` table, since what is proved of a test is then the same for one case and for a hundred.
#![tactic(auto)]

#[cfg(test)]
mod bv_core_tests;
#[cfg(test)]
mod gen_token_tests;
#[cfg(test)]
mod io_edge_tests;
#[cfg(test)]
mod table;
#[cfg(test)]
mod text_core_tests;
#[cfg(test)]
mod vcd_texts;
#[cfg(test)]
mod vcd_traces;
