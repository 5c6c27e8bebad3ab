//! A door to a TCP port: each link that it hands out is a WebSocket of one who connected.

ghost use Rattle.std.specs.Prelude.{◌≡◌, None, IfOk, string_bytes};
ghost use Rattle.link_edge.specs.Links.{IsFresh};
ghost use Rattle.ws_link.specs.Untold.{untold};

use crate::link::WsLink;
use crate::shake::shake_hands;
use link_edge::{Door, DoorEnd};
use std::alloc::Global;
use std::io;
use std::marker::Send;
use std::net::{Net, OpenListener, TcpListener};
use text_core::NoMemory;

/// A door to a TCP port. It tells nothing of the links that are to come.
///
/// Its first `next` binds the address, and a later one does where none before could; that one has failed. Each `next` waits for one
/// peer, for ever where none comes, and makes the handshake with it, within `SHAKE_STEPS` reads and writes; where that does not end in
/// a WebSocket, the call fails and the next one takes the next peer. A peer whose request is refused is told so, and has `LINGER_READS`
/// reads more to end its stream. Those who connect meanwhile wait in the system's queue.
#[derive(Drop)]
pub struct TcpDoor<R: Net> {
    rt: R,
    address: String,
    listener: Option<R::Listener>,
    refused: Option<io::Error>,
    faults: u64,
}

impl<R: Net + Drop> TcpDoor<R> {
    /// A door to this address, a host or an IP address and a port, as `127.0.0.1:8888`. The system is not yet asked for it.
    pub fn new(rt: R, alloc: Global, address: &str) -> Result<TcpDoor<R>, NoMemory>
        ensures faults { IfOk result (λ door. door.faults ≡ 0) }
        ensures address { IfOk result (λ door. string_bytes door.address ≡ address.now) }
    {
        Ok(TcpDoor {
            rt,
            address: String::from_str(alloc, address)?,
            listener: None,
            refused: None,
            faults: 0,
        })
    }

    /// What the system said where the address could not be bound, the last time that it was tried.
    pub fn refused(&self) -> Option<&io::Error> {
        self.refused.as_ref()
    }

    /// Binds the address, if that is not done.
    fn bind(&mut self) -> Result<(), DoorEnd>
        ensures { self.new.faults ≡ self.old.faults }
    {
        if self.listener.is_some() {
            return Ok(());
        }
        match TcpListener::bind(&self.rt, self.address.as_str()) {
            Ok(listener) => {
                self.listener = Some(listener);
                self.refused = None;
                Ok(())
            }
            Err(error) => {
                self.refused = Some(error);
                Err(DoorEnd::Failed)
            }
        }
    }

    /// The stream of the next peer.
    fn accept(&self) -> Result<R::Stream, DoorEnd> {
        match &self.listener {
            Some(listener) => match listener.accept() {
                Ok((stream, _)) => Ok(stream),
                Err(_) => Err(DoorEnd::Failed),
            },
            None => Err(DoorEnd::Failed),
        }
    }

    /// The link of the next peer, with which the handshake was made.
    fn open(&mut self, alloc: Global) -> Result<WsLink<R::Stream>, DoorEnd>
        ensures fresh { IfOk result (λ link. IsFresh (untold link.counts)) }
        ensures faults { self.new.faults ≡ self.old.faults }
    {
        self.bind()?;
        let stream = self.accept()?;
        Ok(WsLink::new(shake_hands(alloc, stream)?))
    }
}

impl<R: Net + Drop> Door for TcpDoor<R>
where
    R::Stream: Send,
{
    type Out = WsLink<R::Stream>;

    ghost left = { λ _. None };

    ghost fault_count = { λ d. d.faults };

    fn faults(&self) -> u64 {
        self.faults
    }

    fn next(&mut self, alloc: Global) -> Result<WsLink<R::Stream>, DoorEnd> {
        let opened = self.open(alloc);
        if let Err(DoorEnd::Failed) = &opened {
            self.faults = self.faults.saturating_add(1);
        }
        opened
    }
}
