//! The role of an end, which its opening fixes.

use crate::side::Side;
use tftp_wire::Mode;

/// The role of an end. It does not change after the opening.
#[derive(Clone, Copy, Debug)]
pub(crate) struct Role {
    /// Which end of which transfer.
    pub(crate) side: Side,
    /// The transfer mode.
    pub(crate) mode: Mode,
    /// The measured length of a sender's file, in bytes of wire text; 0 at a receiver.
    pub(crate) length: u64,
    /// How many times in a row a datagram is retransmitted before the end closes.
    pub(crate) retries: u8,
}
