//! A link as the session's side sees it: in a thread of its own, through two rings, or at hand.
//!
//! What a port means tells which of both it is, so that it is known again after it was lent.

ghost use Rattle.std.specs.Prelude.{◌≡◌};

use hub_core::Parter;
use link_edge::{Link, LinkEnd, Polled};
use link_pump::Ends;
use std::alloc::Global;
use std::sync::Wait;

/// A link.
#[derive(Drop)]
pub enum Port<'r, R, L> {
    /// One in a thread of its own: the session's ends of its rings.
    Far(Ends<'r, R>),
    /// One at hand.
    Near(L),
}

impl<'r, R: Wait + Sync, L: Link> Link for Port<'r, R, L> {
    ghost use Rattle.hub_run.specs.Ports.{port_means};

    ghost meaning = { λ p. port_means L.meaning p };

    fn faults(&self) -> u64 {
        match self {
            Port::Far(ends) => ends.faults(),
            Port::Near(link) => link.faults(),
        }
    }

    fn idles(&self) -> u64 {
        match self {
            Port::Far(ends) => ends.idles(),
            Port::Near(link) => link.idles(),
        }
    }

    fn ends(&self) -> u64 {
        match self {
            Port::Far(ends) => ends.ends(),
            Port::Near(link) => link.ends(),
        }
    }

    fn shut(&self) -> bool {
        match self {
            Port::Far(ends) => ends.shut(),
            Port::Near(link) => link.shut(),
        }
    }

    fn poll(&mut self, alloc: Global) -> Polled {
        match self {
            Port::Far(ends) => ends.poll(alloc),
            Port::Near(link) => link.poll(alloc),
        }
    }

    fn send(&mut self, alloc: Global, text: &[u8]) -> Result<(), LinkEnd> {
        match self {
            Port::Far(ends) => ends.send(alloc, text),
            Port::Near(link) => link.send(alloc, text),
        }
    }

    fn close(&mut self) {
        match self {
            Port::Far(ends) => ends.close(),
            Port::Near(link) => link.close(),
        }
    }
}

/// Tells a link's thread that its client has left. A link at hand is shut once all are served.
#[derive(Clone, Copy)]
pub struct Marks;

impl<'r, R: Wait + Sync, L: Link> Parter<Port<'r, R, L>> for Marks {
    fn part(&self, port: &mut Port<'r, R, L>) {
        match port {
            Port::Far(ends) => ends.part(),
            Port::Near(_) => {}
        }
    }
}
