//! What a link does with its socket: it reads a message, says a text, and ends the stream.
//!
//! A text that the stream does not take at once waits in the socket, whole or in part, and goes out in order before all that is said
//! later: at the next poll, the next send, or the close. So no byte of a frame is lost or sent twice while the link lasts.

use crate::heard::{is_for_now, sent};
use crate::limits::{CALL_STEPS, FLUSH_TRIES, LINGER_READS};
use crate::rationed::Rationed;
use link_edge::LinkEnd;
use std::alloc::Global;
use std::io::{Read, Write};
use std::net::{OpenStream, Shutdown};
use std::str;
use tungstenite::{CloseCode, CloseFrame, Error, Message, NoMask, Utf8Bytes, WebSocket};

/// A server's socket over a stream.
pub type Socket<S> = WebSocket<Rationed<S>, NoMask>;

/// What the library reads next, as far as `CALL_STEPS` reads go. It first sends on what waits.
pub fn read<S: Read + Write + Drop>(socket: &mut Socket<S>) -> Result<Message, Error> {
    socket.get_mut().allow(CALL_STEPS, CALL_STEPS);
    socket.read()
}

/// Sends a text message, behind what waits; what the stream does not take waits too. It fails where the text is not UTF-8, where more
/// than `WAITING_BYTES` would wait, and where the stream is broken or was ended.
pub fn say<S: Read + Write + Drop>(
    socket: &mut Socket<S>,
    alloc: Global,
    text: &[u8],
) -> Result<(), LinkEnd> {
    let Ok(text) = str::from_utf8(text) else {
        return Err(LinkEnd::Failed);
    };
    let Ok(message) = Message::text(alloc, text) else {
        return Err(LinkEnd::NoMemory);
    };
    socket.get_mut().allow(0, CALL_STEPS);
    sent(&socket.send(message))
}

/// Reads a piece, for which the stream waits a step, and drops it. Answers whether more may come.
fn skip_piece<S: Read>(stream: &mut Rationed<S>) -> bool {
    let mut piece = [0u8; 4096];
    stream.allow(1, 0);
    match stream.read(&mut piece) {
        Ok(count) => count > 0,
        Err(error) => is_for_now(&error),
    }
}

/// Sends what waits, in `FLUSH_TRIES` tries at most. Between them it takes what the peer sends, so that two sides that both write do not
/// wait for each other.
fn flush_waiting<S: Read + Write + Drop>(socket: &mut Socket<S>) {
    for _ in 0..FLUSH_TRIES {
        socket.get_mut().allow(0, 1);
        match socket.flush() {
            Err(Error::Io(cause)) if is_for_now(&cause) => {}
            _ => return,
        }
        let _ = skip_piece(socket.get_mut());
    }
}

/// Takes what the peer still sends, until it ends the stream, in `LINGER_READS` reads at most. A stream that is closed while something
/// in it was not read is reset, and then the peer could lose the last lines.
pub fn linger<S: Read>(stream: &mut Rationed<S>) {
    for _ in 0..LINGER_READS {
        if !skip_piece(stream) {
            return;
        }
    }
}

/// Sends what waits and a close frame with this code, ends this side's half of the stream, and waits for the peer to end its own.
pub fn finish<S: Read + Write + OpenStream + Drop>(socket: &mut Socket<S>, code: CloseCode) {
    socket.get_mut().allow(0, CALL_STEPS);
    let _ = socket.close(Some(CloseFrame {
        code,
        reason: Utf8Bytes::new(),
    }));
    let _ = socket.get_ref().stream().set_nonblocking(false);
    flush_waiting(socket);
    let _ = socket.get_ref().stream().shutdown(Shutdown::Write);
    linger(socket.get_mut());
}
