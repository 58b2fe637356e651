//! The datagram to send after a call.

use crate::error_reply::ErrorReply;

/// The datagram to send to [`Step::to`](crate::Step::to). [`End::bytes_of`](crate::End::bytes_of)
/// lends its bytes.
#[derive(Clone, Copy, Debug, PartialEq, Eq)]
pub enum Outgoing {
    /// No datagram.
    Nothing,
    /// The datagram that the end keeps for retransmission.
    LastSent,
    /// An ERROR, whose bytes are fixed.
    Error(ErrorReply),
}
