//! The report of an event.

use tftp_ends::Outcome;

/// The effect of an event on the network and on the ends.
#[derive(Clone, Copy, Debug, PartialEq, Eq)]
pub struct Report {
    /// The index of the datagram that was sent, if any; an event sends at most one.
    pub added: Option<usize>,
    /// The port of the end that the event closed, and its outcome.
    pub closed: Option<(u16, Outcome)>,
}
