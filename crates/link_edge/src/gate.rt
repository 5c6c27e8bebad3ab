//! A gate: what a session comes through before each turn.
//!
//! It says nothing of a session, so that a test can hold a turn without changing what the turn does.

use std::marker::Send;

/// What a session comes through before each turn. A gate may hold a turn; it changes nothing of the session.
pub trait Gate: Send + Drop {
    /// Called before each turn.
    fn before_turn(&mut self);
}

/// A gate that holds nothing.
#[derive(Clone, Copy)]
pub struct OpenGate;

impl Gate for OpenGate {
    fn before_turn(&mut self) {}
}
