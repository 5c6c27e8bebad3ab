//! The handshake with a peer that has connected.
//!
//! The stream waits a step for each read and each write, and the handshake has a ration of both. So a peer that says nothing, that
//! says it byte by byte, or that does not read the answer holds the door no longer than the ration lasts.
//!
//! The library is handed the stream by reference, so that a peer whose request it refuses can still be answered.

use crate::limits::{MESSAGE_BYTES, READ_BYTES, SHAKE_STEPS, STEP_MILLIS, WAITING_BYTES};
use crate::rationed::Rationed;
use crate::socket::{Socket, linger};
use crate::stranger::{is_right_host, is_right_origin};
use http::header::HeaderMap;
use http::{Request, Response, StatusCode};
use link_edge::DoorEnd;
use std::alloc::Global;
use std::io;
use std::io::{Read, Write};
use std::net::{OpenStream, Shutdown};
use std::time::Duration;
use tungstenite::handshake::server::{ErrorResponse, start};
use tungstenite::{
    Callback, Error, HandshakeError, MidHandshake, NoMask, Role, ServerHandshake, WebSocket,
    WebSocketConfig,
};
use websocket::handshake::HandshakeError as HeadError;

/// A server's handshake over a stream.
type Shaking<'s, S> = MidHandshake<ServerHandshake<&'s mut Rationed<S>, Doorkeeper>>;

/// What a peer is told whose request is none for a WebSocket.
static BAD_REQUEST: &str =
    "HTTP/1.1 400 Bad Request\r\nConnection: close\r\nContent-Length: 0\r\n\r\n";

/// What a peer is told that asks for another version.
static UPGRADE_REQUIRED: &str = "HTTP/1.1 426 Upgrade Required\r\nSec-WebSocket-Version: 13\r\n\
     Upgrade: websocket\r\nConnection: Upgrade, close\r\nContent-Length: 0\r\n\r\n";

/// Who looks at the fields of a request for a WebSocket before it is accepted.
#[derive(Clone, Copy)]
struct Doorkeeper {
    alloc: Global,
}

/// Whether each of these fields names a host that a peer may name.
fn has_right_hosts(fields: &HeaderMap) -> bool {
    for host in fields.get_all("host").iter() {
        if !is_right_host(host.as_bytes()) {
            return false;
        }
    }
    true
}

/// Whether each of these fields names an origin from which a page may come.
fn has_right_origins(fields: &HeaderMap) -> bool {
    for origin in fields.get_all("origin").iter() {
        if !is_right_origin(origin.as_bytes()) {
            return false;
        }
    }
    true
}

/// The status with which a request is refused, if it is.
fn refusal_of(fields: &HeaderMap) -> Option<StatusCode> {
    if fields.get_all("sec-websocket-key").iter().count() > 1 {
        return Some(StatusCode::BAD_REQUEST);
    }
    if has_right_hosts(fields) && has_right_origins(fields) {
        return None;
    }
    Some(StatusCode::FORBIDDEN)
}

impl Callback for Doorkeeper {
    fn on_request(
        self,
        request: &Request<()>,
        response: Response<()>,
    ) -> Result<Response<()>, ErrorResponse> {
        match refusal_of(request.headers()) {
            None => Ok(response),
            Some(status) => {
                let mut refused = Response::new(self.alloc, None);
                *refused.status_mut() = status;
                Err(refused)
            }
        }
    }
}

/// How a socket is set up.
fn config() -> WebSocketConfig {
    WebSocketConfig::default()
        .read_buffer_size(READ_BYTES)
        .max_write_buffer_size(WAITING_BYTES)
        .max_message_size(Some(MESSAGE_BYTES))
        .max_frame_size(Some(MESSAGE_BYTES))
}

/// Makes a stream wait a step for each read and each write. Small messages leave at once, where the stream can do that.
fn make_stepwise<S: OpenStream>(stream: &S) -> io::Result<()> {
    let step = Some(Duration::from_millis(STEP_MILLIS));
    stream.set_read_timeout(step)?;
    stream.set_write_timeout(step)?;
    let _ = stream.set_nodelay(true);
    Ok(())
}

/// Goes on with a handshake until it is done, fails, or its ration is used up.
fn shake<S: Read + Write + Drop>(begun: Shaking<'_, S>) -> Result<(), Error> {
    let mut rest = begun;
    for _ in 0..SHAKE_STEPS {
        match rest.handshake() {
            Ok(_) => return Ok(()),
            Err(HandshakeError::Interrupted(further)) => rest = further,
            Err(HandshakeError::Failure(error)) => return Err(error),
        }
    }
    Err(Error::HandshakeIncomplete)
}

/// What a peer is told whose handshake failed so; nothing where the stream is broken, and where the library has told it.
fn answer_to(error: &Error) -> &'static [u8] {
    match error {
        Error::Handshake(HeadError::MissingSecWebSocketVersionHeader) => {
            UPGRADE_REQUIRED.as_bytes()
        }
        Error::Handshake(_) | Error::Url | Error::AttackAttempt | Error::JunkAfterRequest => {
            BAD_REQUEST.as_bytes()
        }
        _ => b"",
    }
}

/// Tells a peer that it is turned away, and lets it read that.
fn turn_away<S: Read + Write + OpenStream>(stream: &mut Rationed<S>, error: &Error) {
    stream.allow(0, 1);
    let _ = stream.write(answer_to(error));
    let _ = stream.stream().shutdown(Shutdown::Write);
    linger(stream);
}

/// The socket over a stream with which the handshake was made. From then on its reads and writes return at once.
fn opened<S: Read + Write + OpenStream + Drop>(
    alloc: Global,
    stream: Rationed<S>,
) -> Result<Socket<S>, DoorEnd> {
    match stream.stream().set_nonblocking(true) {
        Ok(()) => Ok(WebSocket::from_raw_socket(
            alloc,
            stream,
            NoMask,
            Role::Server,
            Some(config()),
        )),
        Err(_) => Err(DoorEnd::Failed),
    }
}

/// The socket over a stream, after the peer's handshake. It fails where the peer asks for no WebSocket or for another version of it, for
/// this machine by another name, from a page of another one, or with two keys; where it sends more than 64 KiB or on behind its request,
/// where it ends the stream, and where it needs more than `SHAKE_STEPS` reads or writes. A peer that is refused is told so. Where memory
/// runs out as the request is taken apart, that can be told as a fault too.
pub fn shake_hands<S: Read + Write + OpenStream + Drop>(
    alloc: Global,
    stream: S,
) -> Result<Socket<S>, DoorEnd> {
    if make_stepwise(&stream).is_err() {
        return Err(DoorEnd::Failed);
    }
    let mut stream = Rationed::new(stream);
    stream.allow(SHAKE_STEPS, SHAKE_STEPS);
    match shake(start(alloc, &mut stream, Doorkeeper { alloc }, Some(config()))) {
        Ok(()) => opened(alloc, stream),
        Err(Error::OutOfMemory) => Err(DoorEnd::NoMemory),
        Err(Error::HandshakeIncomplete) | Err(Error::Io(_)) => Err(DoorEnd::Failed),
        Err(error) => {
            turn_away(&mut stream, &error);
            Err(DoorEnd::Failed)
        }
    }
}
