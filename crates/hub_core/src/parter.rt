//! What is done of a link whose client has left, while the others are served on.
//!
//! Decides: nothing is shut between two rounds, as that may take time. Who holds a link in a thread of its own is only told, and shuts it there.

ghost use Rattle.std.specs.Prelude.{◌≡◌};

use link_edge::Link;

/// Parts a link from a client that has left. Takes no memory.
pub trait Parter<L: Link>: Drop {
    /// Done between two rounds, again and again once the client has left. The link means what it did.
    fn part(&self, link: &mut L)
        ensures { L.meaning link.new ≡ L.meaning link.old };
}

/// Does nothing: the link is shut once all are served.
#[derive(Clone, Copy)]
pub struct Later;

impl<L: Link> Parter<L> for Later {
    fn part(&self, _link: &mut L) {}
}
