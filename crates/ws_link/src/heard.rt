//! What the library's answers are to a link: what was read, how a text was sent, and with which code a socket is closed behind it.

ghost use Rattle.std.specs.Prelude.{◌≡◌, ◌⊎◌, Ok, Err, MatchBool};
ghost use Rattle.ws_link.specs.Heard.{IsForNow, ByIo, answer_to, protocol_answer, AnswersError, AnswersRead, IsSent, code_of};

use link_edge::{LinkEnd, Polled};
use std::alloc::Global;
use std::io;
use std::io::ErrorKind;
use text_core::Listed;
use tungstenite::{CloseCode, Error, Message};
use websocket::error::ProtocolError;

/// Whether an error says no more than that nothing can be done at this time.
pub fn is_for_now(error: &io::Error) -> bool
    ensures { MatchBool result (IsForNow error.now) (IsForNow error.now → ⊥) }
{
    error.kind() == ErrorKind::WouldBlock || error.kind() == ErrorKind::Interrupted
}

/// What a message is to a link, where memory lasts.
fn answer_message(alloc: Global, message: &Message) -> Polled
    ensures { (result ≡ answer_to message.now) ⊎ (result ≡ Polled.NoMemory) }
{
    let bytes = match message {
        Message::Text(text) => text.as_str().as_bytes().to_vec(alloc),
        Message::Binary(bytes) => bytes.as_slice().to_vec(alloc),
        Message::Ping(_) | Message::Pong(_) => return Polled::Nothing,
        Message::Close(_) => return Polled::Closed,
    };
    match bytes {
        Ok(bytes) => Polled::Message(Listed::new(bytes)),
        Err(_) => Polled::NoMemory,
    }
}

/// What a breach of the protocol is to a link.
fn answer_protocol(cause: &ProtocolError) -> Polled
    ensures { result ≡ protocol_answer cause.now }
{
    match cause {
        ProtocolError::ResetWithoutClosingHandshake => Polled::Closed,
        _ => Polled::Failed,
    }
}

/// What an error of the stream is to a link.
fn answer_io(cause: &io::Error) -> Polled
    ensures { ByIo cause.now Polled.Nothing Polled.Failed result }
{
    if is_for_now(cause) {
        Polled::Nothing
    } else {
        Polled::Failed
    }
}

/// What an error of a read is to a link.
fn answer_error(error: &Error) -> Polled
    ensures { AnswersError error.now result }
{
    match error {
        Error::Io(cause) => answer_io(cause),
        Error::ConnectionClosed | Error::AlreadyClosed => Polled::Closed,
        Error::Protocol(cause) => answer_protocol(cause),
        Error::OutOfMemory => Polled::NoMemory,
        _ => Polled::Failed,
    }
}

/// What a read of the socket is to a link.
pub fn answer(alloc: Global, read: &Result<Message, Error>) -> Polled
    ensures { AnswersRead read.now result }
{
    match read {
        Ok(message) => answer_message(alloc, message),
        Err(error) => answer_error(error),
    }
}

/// How a text was sent, by an error of the stream.
fn sent_io(cause: &io::Error) -> Result<(), LinkEnd>
    ensures { ByIo cause.now (Ok record {}) (Err LinkEnd.Failed) result }
{
    if is_for_now(cause) {
        Ok(())
    } else {
        Err(LinkEnd::Failed)
    }
}

/// How a text was sent, by what the socket said of it. What the stream does not take now waits in the socket.
pub fn sent(done: &Result<(), Error>) -> Result<(), LinkEnd>
    ensures { IsSent done.now result }
{
    match done {
        Ok(()) => Ok(()),
        Err(Error::Io(cause)) => sent_io(cause),
        Err(Error::OutOfMemory) => Err(LinkEnd::NoMemory),
        Err(_) => Err(LinkEnd::Failed),
    }
}

/// The code with which a socket is closed behind a read.
pub fn code_of(read: &Result<Message, Error>) -> CloseCode
    ensures { result ≡ code_of read.now }
{
    match read {
        Err(Error::Protocol(_)) => CloseCode::Protocol,
        Err(Error::Utf8) => CloseCode::Invalid,
        Err(Error::Capacity(_)) => CloseCode::Size,
        Err(Error::OutOfMemory) => CloseCode::Error,
        _ => CloseCode::Normal,
    }
}
