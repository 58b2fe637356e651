//! The actions of an end: how it handles an event, before it uses a file.

use crate::error_reply::ErrorReply;
use crate::outcome::Outcome;
use crate::phase::Terms;

/// What an end does at an event.
#[derive(Clone, Copy)]
pub enum Action {
    /// An action that uses no file.
    Respond(Response),
    /// Read the block of this number from the source, and send it as DATA.
    Send { terms: Terms, number: u16 },
    /// Store the received data as the block of this number, and then acknowledge it.
    Store { terms: Terms, number: u16 },
}

/// An action that uses no file.
#[derive(Clone, Copy)]
pub enum Response {
    /// No datagram and no change.
    Ignore,
    /// ERROR 5 to the sender of the datagram, and no change.
    WrongPeer,
    /// Send the last datagram again, and no change.
    ResendReply,
    /// A timeout with a retry left: send the last datagram again, for one retry.
    Retransmit,
    /// The first timeout of a dally.
    Wait,
    /// Close without a reply.
    Close {
        outcome: Outcome,
    },
    /// Send an ERROR and close. There are terms if the peer is known by then.
    Refuse {
        terms: Option<Terms>,
        reply: ErrorReply,
        outcome: Outcome,
    },
    /// A client that reads accepts an OACK: ACK 0.
    Accept {
        terms: Terms,
    },
    /// The last block is acknowledged: close as complete, without a reply.
    Complete,
}
