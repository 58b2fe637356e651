//! What the network carries, and never removes.

use tftp_ends::Endpoint;
use tftp_wire::Bytes;

/// A datagram that was sent. It is never removed from the network: it may arrive any number of
/// times, in any order, or never.
#[derive(Debug, Drop)]
pub struct Datagram {
    /// The sender.
    pub from: Endpoint,
    /// The destination.
    pub to: Endpoint,
    /// Its bytes, as UDP carries them.
    pub bytes: Bytes,
}
