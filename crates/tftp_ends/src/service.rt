//! What a server's end that sends is opened with.

use crate::endpoint::Endpoint;
use tftp_wire::Mode;

/// A read that a server's end serves.
#[derive(Clone, Copy, Debug)]
pub struct ReadService {
    /// The client that reads.
    pub peer: Endpoint,
    /// The transfer mode.
    pub mode: Mode,
    /// The length of the file in bytes of wire text.
    pub length: u64,
    /// How many times in a row a datagram is retransmitted, 0 to 10.
    pub retries: u8,
}
