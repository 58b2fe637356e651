//! What happened at a server, for whoever counts it.

use tftp_ends::{Endpoint, Outcome};

/// Which way the file of a transfer goes.
#[derive(Clone, Copy)]
pub enum Direction {
    /// A client reads it (RRQ).
    Read,
    /// A client writes it (WRQ).
    Write,
}

/// What happened at a server, for whoever counts it.
#[derive(Clone, Copy)]
pub enum Entry {
    /// A request opened a transfer.
    Opened(Direction),
    /// A datagram of the request port was answered by an ERROR, and not because all slots are taken.
    Refused,
    /// A request was answered by an ERROR, since all slots are taken.
    Busy,
    /// A datagram of the request port opened nothing and got no answer.
    Ignored,
    /// A request that might have opened a transfer is lost.
    Lost,
    /// A transfer closed.
    Closed {
        direction: Direction,
        outcome: Outcome,
        /// The bytes of DATA, each block once.
        bytes: u64,
        /// How many datagrams were sent again.
        again: u64,
    },
}

/// An open transfer, as a report of them has it.
#[derive(Clone, Copy)]
pub struct OpenTransfer<'a> {
    /// The server's port.
    pub port: u16,
    pub peer: Endpoint,
    pub direction: Direction,
    /// The line of the request.
    pub request: &'a str,
    /// The bytes of DATA so far, each block once.
    pub bytes: u64,
    /// The length of the file in bytes, if the answer stated it (`tsize`, RFC 2349).
    pub length: Option<u64>,
    /// Milliseconds since the opening.
    pub millis: u64,
    /// How many datagrams were sent again.
    pub again: u64,
}
