//! A datagram that was received.

use tftp_ends::Endpoint;

/// A received datagram.
#[derive(Clone, Copy)]
pub(crate) struct Datagram<'a> {
    /// The sender.
    pub(crate) from: Endpoint,
    pub(crate) bytes: &'a [u8],
}
