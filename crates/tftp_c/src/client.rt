//! What a handle holds: an end, which its calls change, and what its peer stated.

use tftp_ends::{Backoff, End};

/// An end of a transfer, behind the pointer of a handle.
#[derive(Drop)]
pub struct Client {
    pub(crate) end: End,
    /// The length of the file that the answer to its request stated (`tsize`).
    pub(crate) stated: Option<u64>,
    /// Whether its waits grow after timeouts.
    pub(crate) backoff: Backoff,
}
