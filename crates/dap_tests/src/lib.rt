//! Tests of an editor's conversation: its framer, and its adapter.
//!
//! They stand apart from the crate that they test, since a crate with tests is proved twice: with them and without. What is taken off each
//! input is written out, and so is what is answered to each message.
#![tactic(auto)]

#[cfg(test)]
mod conversation;
#[cfg(test)]
mod frames;
#[cfg(test)]
mod texts;
