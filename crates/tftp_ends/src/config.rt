//! The configuration of a client's end.

use tftp_negotiate::Limits;

/// The limits of an end, and its retries.
#[derive(Clone, Copy, Debug, PartialEq, Eq)]
pub struct EndConfig {
    /// The largest block size and the longest file.
    pub limits: Limits,
    /// How many times in a row a datagram is retransmitted, 0 to 10.
    pub retries: u8,
}
