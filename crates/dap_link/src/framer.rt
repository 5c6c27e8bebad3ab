//! The framer: takes an input piece by piece, and hands on its messages.
//!
//! Decides: that a head is read anew for each piece, since a head is at most 4,096 bytes; and that the bytes of a message are let go only
//! once its body has memory of its own, so that a want of memory loses nothing.

ghost use Rattle.std.specs.Prelude.{◌≡◌, ◌++◌, ◌+◌, ◌≤◌, [], Bool, Some, None, length, IfOk, OnOk, OnErr};
ghost use Rattle.dap_link.specs.declared.framer.Framed.TheVariants.{Fault};
ghost use Rattle.dap_link.specs.Framing.{IsFirst, IsNext};
ghost use Rattle.dap_link.specs.Frames.{is_message, is_message_text, IsUnfinished};
ghost use Rattle.dap_link.specs.Heads.{IsBodyAt};
ghost use Rattle.serde_json.specs.View.{view};

use crate::head::{Front, front_of};
use serde_json::Value;
use std::alloc::Global;
use std::marker::Model;
use text_core::NoMemory;

/// What a framer tells of the bytes that came.
#[derive(Drop)]
pub enum Framed {
    /// The body of the next message.
    Message(Vec<u8>),
    /// Neither a whole message nor a fault is there.
    More,
    /// The input is wrong here: 1, no head; 2, not one length; 3, a length of more than 1,048,576; 4, it ends within a message; 5, the
    /// body is no JSON object with a whole `seq` from 0 to 2^63-1 and a text `command`.
    Fault(u8),
}

/// The bytes of an input that are in no message yet, and its fault, where it has one. A head has at most 4,096 bytes and 16 fields.
#[derive(Drop)]
pub struct Framer {
    alloc: Global,
    held: Vec<u8>,
    fault: Option<u8>,
}

impl Model for Framer {
    ghost use Rattle.dap_link.specs.Framing.{Framing};

    ghost Value = { Framing };

    ghost view = { λ f. record { held = f.held.items; fault = f.fault } };
}

/// Whether a JSON value is a message.
fn is_message(value: &Value) -> bool
    ensures { result ≡ is_message (view value.now) }
{
    let seq = value.get("seq").and_then(Value::as_u64);
    let command = value.get("command").and_then(Value::as_str);
    match seq {
        Some(seq) => seq < 1 << 63 && command.is_some(),
        None => false,
    }
}

/// Whether a body is one of a message. Fails only where memory runs out.
fn is_message_text(alloc: Global, body: &[u8]) -> Result<bool, NoMemory>
    ensures { IfOk result (λ found. found ≡ is_message_text body.now) }
{
    match Value::from_slice(alloc, body) {
        Ok(value) => Ok(is_message(&value)),
        Err(e) => {
            if e.is_memory() {
                Err(NoMemory)
            } else {
                Ok(false)
            }
        }
    }
}

impl Framer {
    /// A framer that has taken nothing. Takes no memory.
    pub fn new(alloc: Global) -> Framer
        ensures { result ≡ record { held = []; fault = None } }
    {
        Framer {
            alloc,
            held: Vec::new(alloc),
            fault: None,
        }
    }

    /// Takes a piece of the input.
    pub fn feed(&mut self, piece: &[u8]) -> Result<(), NoMemory>
        ensures ok { OnOk result (self.new ≡ record { held = self.old.held ++ piece.now; fault = self.old.fault }) }
        ensures err { OnErr result (self.new ≡ self.old) }
    {
        self.held.extend_from_slice(piece)?;
        Ok(())
    }

    /// The next message or the fault of what was taken, or that more is wanted; `ended` says that nothing comes any more. A fault stays.
    /// Fails only where memory runs out, and then nothing has changed.
    pub fn next(&mut self, ended: bool) -> Result<Framed, NoMemory>
        ensures ok { IfOk result (λ framed. IsNext self.old ended framed self.new) }
        ensures err { OnErr result (self.new ≡ self.old) }
    {
        if let Some(fault) = self.fault {
            return Ok(Framed::Fault(fault));
        }
        match front_of(&self.held) {
            Front::Fault(fault) => Ok(self.stop(fault)),
            Front::Unfinished => Ok(self.wait(ended)),
            Front::Body { at, len } => {
                if len <= self.held.len() - at {
                    self.take(at, len)
                } else {
                    Ok(self.wait(ended))
                }
            }
        }
    }

    /// Tells a fault, now and from here on.
    fn stop(&mut self, fault: u8) -> Framed
        ensures told { result ≡ Fault fault }
        ensures kept { self.new ≡ record { held = self.old.held; fault = Some fault } }
    {
        self.fault = Some(fault);
        Framed::Fault(fault)
    }

    /// Tells that more is wanted; or, where nothing comes any more, that the input ends within a message.
    fn wait(&mut self, ended: bool) -> Framed
        requires unfinished { IsUnfinished self.old.held }
        requires sound { self.old.fault ≡ None }
        ensures { IsFirst self.old.held ended result self.new }
    {
        if ended && !self.held.is_empty() {
            self.stop(4)
        } else {
            Framed::More
        }
    }

    /// Takes the body of so many bytes that begins at a place.
    fn take(&mut self, at: usize, len: usize) -> Result<Framed, NoMemory>
        requires head { IsBodyAt self.old.held at len }
        requires whole { at + len ≤ length self.old.held }
        requires sound { self.old.fault ≡ None }
        ensures ok { IfOk result (λ framed. (ended : Bool) → IsFirst self.old.held ended framed self.new) }
        ensures err { OnErr result (self.new ≡ self.old) }
    {
        let (whole, rest) = self.held.split_at(at + len);
        let body = whole[at..].to_vec(self.alloc)?;
        if !is_message_text(self.alloc, &body)? {
            return Ok(self.stop(5));
        }
        self.held = rest.to_vec(self.alloc)?;
        Ok(Framed::Message(body))
    }
}
