//! Tests of the texts of requests, replies and notices.
//!
//! They stand apart from the crate that they test, since a crate with tests is proved twice: with them and without. The bytes of each
//! reply and notice are written out, and what each kind of request is read as is told in words.
#![tactic(auto)]

#[cfg(test)]
mod notices;
#[cfg(test)]
mod replies;
#[cfg(test)]
mod requests;
