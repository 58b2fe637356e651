//! The result of a receive.

use tftp_ends::Endpoint;

/// The result of a receive at a port.
#[derive(Clone, Copy)]
pub enum Receipt {
    /// A datagram: its sender, and its length in bytes.
    Datagram(Endpoint, usize),
    /// Nothing has arrived.
    Nothing,
    /// The system refused for another reason than that nothing has arrived, or what has arrived is
    /// left to another server. A datagram may be there.
    Failed,
}
