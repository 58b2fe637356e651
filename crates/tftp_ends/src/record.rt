//! The reports of an end: its state, and what a call did.

ghost use Rattle.std.specs.Prelude.{◌≡◌};
ghost use Rattle.tftp_ends.specs.End.{seconds_of};

use crate::endpoint::Endpoint;
use crate::outcome::Outcome;
use crate::side::Side;

/// The timeout interval in seconds where none is agreed; no RFC states a default.
pub const DEFAULT_INTERVAL: u8 = 1;

const _: () = prove!(DEFAULT_INTERVAL == 1);

/// The state of an end, as it reports it.
#[derive(Clone, Copy, Debug, PartialEq, Eq)]
pub struct Record {
    /// Which end it is.
    pub side: Side,
    /// The other end, once it is known.
    pub peer: Option<Endpoint>,
    /// The block size in bytes; 512 while there is no peer.
    pub size: u16,
    /// The agreed timeout in seconds (RFC 2349, "Timeout Interval Option Specification").
    pub timeout: Option<u8>,
    /// A sender's newest DATA number, or how many blocks a receiver has stored.
    pub number: u16,
    /// Whether a sender's last block was acknowledged, or a receiver has stored and committed the
    /// whole file.
    pub complete: bool,
    /// How it ended, once it is closed.
    pub outcome: Option<Outcome>,
}

impl Record {
    /// The timeout interval in seconds: the agreed one (RFC 2349, "Timeout Interval Option
    /// Specification"), or [`DEFAULT_INTERVAL`].
    pub fn interval(&self) -> u8
        ensures { result ≡ seconds_of self.now.timeout }
    {
        self.timeout.unwrap_or(DEFAULT_INTERVAL)
    }
}

/// How many bytes an end keeps between two events.
#[derive(Clone, Copy, Debug, PartialEq, Eq)]
pub struct Held {
    /// The newest datagram, which a timeout retransmits, in bytes.
    pub datagram: usize,
    /// Wire text that awaits its next byte, in bytes: in netascii the CR of a pair (RFC 764).
    pub text: usize,
}

/// What a call did.
#[derive(Clone, Copy, Debug, PartialEq, Eq)]
pub struct Step {
    /// The destination of the datagram to send, or `None` if there is no datagram.
    pub to: Option<Endpoint>,
    /// Whether the peer became known, the number rose, or the end became complete. False at an
    /// opening.
    pub progress: bool,
    /// How the end closed, if the call closed it.
    pub closed: Option<Outcome>,
}
