//! A link: polls for the messages of one client, and sends lines to it.
//!
//! What it means is one record of `specs/Links`, so that whoever serves a link is measured by what passed through it.

ghost use Rattle.std.specs.Prelude.{◌≡◌, [], ◌∷◌, false, IsErrOf, OnOk, OnErr};
ghost use Rattle.io_edge.specs.Faults.{Rose};

use crate::answers::{LinkEnd, Polled};
use std::alloc::Global;
use std::marker::Send;

/// A stream of messages both ways.
pub trait Link: Send + Drop {
    ghost use Rattle.link_edge.specs.Links.{Meaning, AfterPoll, AfterSend, after_close};

    /// What passed through it, where it tells that, its three counts, and whether it was shut.
    ghost meaning: { Self → Meaning };

    /// The count of faults. It never falls, and stays at 2^64 - 1.
    fn faults(&self) -> u64
        ensures { result ≡ (meaning self.now).faults };

    /// The count of polls that found nothing. It never falls, and stays at 2^64 - 1.
    fn idles(&self) -> u64
        ensures { result ≡ (meaning self.now).idles };

    /// The count of polls that found the stream at its end. It never falls, and stays at 2^64 - 1.
    fn ends(&self) -> u64
        ensures { result ≡ (meaning self.now).ends };

    /// Whether it was shut by a `close`.
    fn shut(&self) -> bool
        ensures { result ≡ (meaning self.now).shut };

    /// What has come since the last poll. Returns at once. A message and a nothing are put last among the polls that are told, and a
    /// message last among the messages received; every other answer leaves both.
    fn poll(&mut self, alloc: Global) -> Polled
        requires { (meaning self.old).shut ≡ false }
        ensures after { AfterPoll (meaning self.old) result (meaning self.new) };

    /// Sends a message, which is put last among those sent, where these are told; where it was not sent, they stay.
    fn send(&mut self, alloc: Global, text: &[u8]) -> Result<(), LinkEnd>
        requires { (meaning self.old).shut ≡ false }
        ensures ok { OnOk result (AfterSend (meaning self.old) (text.now ∷ []) (meaning self.new)) }
        ensures err { OnErr result (AfterSend (meaning self.old) [] (meaning self.new)) }
        ensures failed { IsErrOf result LinkEnd.Failed → Rose (meaning self.old).faults (meaning self.new).faults };

    /// Ends the stream as far as it can, and shuts the link. The lists and the counts stay.
    fn close(&mut self)
        ensures { meaning self.new ≡ after_close (meaning self.old) };
}
