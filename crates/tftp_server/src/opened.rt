//! The result of a request.

use tftp_ends::Endpoint;

/// The result of a datagram to the request port.
#[derive(Clone, Copy, Debug, PartialEq, Eq)]
pub struct Opened {
    /// The identifier of the transfer that opened, if one did. The datagram is to be sent from its
    /// port, or from the request port if none opened.
    pub tid: Option<u16>,
    /// The destination of the one datagram that the call appended, if it appended one.
    pub to: Option<Endpoint>,
}
