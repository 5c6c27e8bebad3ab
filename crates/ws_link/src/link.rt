//! A link over a WebSocket.

ghost use Rattle.link_edge.specs.Links.{IsFresh};
ghost use Rattle.ws_link.specs.Untold.{untold};

use crate::counts::Counts;
use crate::heard::{answer, code_of};
use crate::socket::{Socket, finish, read, say};
use link_edge::{Link, LinkEnd, Polled};
use std::alloc::Global;
use std::io::{Read, Write};
use std::marker::Send;
use std::net::OpenStream;
use tungstenite::{CloseCode, Error};

/// A link over a WebSocket whose stream returns at once. It tells nothing of what passes through it.
///
/// - A text or binary message of at most `MESSAGE_BYTES` is received as its bytes. A ping is answered by a pong, and is nothing, as a
///   pong is. A close frame, and a stream that ends without one, close the link. All else, as a frame without a mask, a text that is not
///   UTF-8, a longer message or a stream that was reset, is a fault.
/// - A line is sent as one text message. Where the peer does not read, up to `WAITING_BYTES` wait in the link and leave in order with
///   the next calls; a line beyond that is a fault, as is one behind the peer's close frame.
/// - A close sends what waits and a close frame, as far as the peer takes them within `FLUSH_TRIES`, ends the stream, waits for the
///   peer to do the same, `LINGER_READS` reads at most, and lets go of the socket. The frame has the code 1000; 1002, 1007 or 1009
///   where the peer broke the protocol, sent a text that is not UTF-8, or a longer message; and 1011 where a line was not sent or
///   memory ran out.
#[derive(Drop)]
pub struct WsLink<S> {
    // None once the link is shut.
    socket: Option<Socket<S>>,
    // With which the socket is closed.
    code: CloseCode,
    pub(crate) counts: Counts,
}

impl<S> WsLink<S> {
    /// The link over this socket, as yet unused.
    pub(crate) fn new(socket: Socket<S>) -> WsLink<S>
        ensures { IsFresh (untold result.counts) }
    {
        WsLink {
            socket: Some(socket),
            code: CloseCode::Normal,
            counts: Counts::new(),
        }
    }
}

impl<S: Read + Write + OpenStream + Send + Drop> Link for WsLink<S> {
    ghost meaning = { λ l. untold l.counts };

    fn faults(&self) -> u64 {
        self.counts.faults
    }

    fn idles(&self) -> u64 {
        self.counts.idles
    }

    fn ends(&self) -> u64 {
        self.counts.ends
    }

    fn shut(&self) -> bool {
        self.counts.shut
    }

    fn poll(&mut self, alloc: Global) -> Polled {
        let read = match &mut self.socket {
            Some(socket) => read(socket),
            None => Err(Error::AlreadyClosed),
        };
        self.code = code_of(&read);
        let answer = answer(alloc, &read);
        self.counts.count_poll(&answer);
        answer
    }

    fn send(&mut self, alloc: Global, text: &[u8]) -> Result<(), LinkEnd> {
        let said = match &mut self.socket {
            Some(socket) => say(socket, alloc, text),
            None => Err(LinkEnd::Failed),
        };
        if let Err(end) = said {
            self.code = CloseCode::Error;
            self.counts.count_unsent(end);
        }
        said
    }

    fn close(&mut self) {
        if let Some(mut socket) = self.socket.take() {
            finish(&mut socket, self.code);
        }
        self.counts.note_close();
    }
}
