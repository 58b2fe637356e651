//! What may happen in a world.

ghost use Rattle.std.specs.Prelude.{◌≡◌};
ghost use Rattle.tftp_player.specs.PlayedWorld.{is_stray};

use tftp_ends::Endpoint;
use tftp_negotiate::Asked;
use tftp_wire::{Bytes, Mode};

/// An event. The caller chooses it, and so what the network does.
#[derive(Debug, Drop)]
pub enum Event {
    /// A client reads the server's file of this name.
    Get {
        /// The name in the request.
        name: Bytes,
        /// The mode of the transfer.
        mode: Mode,
        /// The options of the request.
        asked: Asked,
    },
    /// A client writes a file to the server, under this name.
    Put {
        /// The name in the request.
        name: Bytes,
        /// The mode of the transfer.
        mode: Mode,
        /// The options of the request.
        asked: Asked,
        /// The file, as the host stores it.
        bytes: Bytes,
    },
    /// The datagram at this index of all that was sent arrives, counted from 0.
    Deliver(usize),
    /// A timeout at the end of this port.
    Timeout(u16),
    /// Sets the receiver at this port to refuse its next append or commit, as a full store does.
    RefuseStore(u16),
    /// A datagram of these bytes arrives from the first endpoint, which is at neither host, at the
    /// second.
    Stray(Endpoint, Endpoint, Bytes),
}

impl Event {
    /// Whether it is a datagram of neither host.
    pub(crate) fn is_stray(&self) -> bool
        ensures { result ≡ is_stray self.now }
    {
        matches!(self, Event::Stray(..))
    }
}
