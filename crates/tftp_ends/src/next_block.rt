//! The next block of a transfer, which most datagrams request or bring.

ghost use Rattle.std.specs.Prelude.{◌≡◌};

use crate::endpoint::Endpoint;
use crate::phase::Terms;

/// The block after the newest one, which is sent or stored next.
#[derive(Clone, Copy)]
pub struct NextBlock {
    pub(crate) terms: Terms,
    /// The number of the block before it: a sender's newest, or the last that a receiver has stored.
    pub(crate) newest: u16,
    pub(crate) number: u16,
}

impl NextBlock {
    /// The other end.
    pub fn peer(self) -> Endpoint
        ensures { result ≡ self.terms.peer }
    {
        self.terms.peer
    }
}
