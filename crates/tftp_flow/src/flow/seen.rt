//! A datagram that was seen: where, when and between which endpoints.

use crate::flow::moment::Moment;
use crate::flow::payload::Payload;
use std::fmt;
use std::net::SocketAddrV4;

/// Where a datagram stands in what is read.
#[derive(Clone, Copy)]
pub enum Spot {
    /// In this line, counted from 1.
    Line(u64),
    /// In this frame of a capture, counted from 1.
    Frame(u64),
}

impl Spot {
    /// Its number.
    pub(crate) fn number(self) -> u64 {
        match self {
            Spot::Line(number) => number,
            Spot::Frame(number) => number,
        }
    }
}

impl fmt::Display for Spot {
    fn fmt<W: fmt::Write>(&self, f: &mut fmt::Formatter<W>) -> fmt::Result {
        let (place, number) = match *self {
            Spot::Line(number) => ("line", number),
            Spot::Frame(number) => ("frame", number),
        };
        write!(f, "{place} {number}")
    }
}

/// A datagram that was seen.
#[derive(Drop)]
pub struct Seen<'s> {
    /// Where it stands.
    pub spot: Spot,
    /// When it was seen.
    pub at: Moment,
    /// Its source.
    pub from: SocketAddrV4,
    /// Its destination.
    pub to: SocketAddrV4,
    /// Its payload.
    pub payload: Payload<'s>,
}

/// Whether two endpoints are the same. As numbers they are compared at once, and ports first, which
/// differ most often.
pub(crate) fn is_same_endpoint(one: SocketAddrV4, other: SocketAddrV4) -> bool {
    one.port() == other.port() && one.ip().to_bits() == other.ip().to_bits()
}
