//! The source or destination of a datagram.

ghost use Rattle.std.specs.Prelude.{◌≡◌, ◌+◌, ◌*◌, ◌<◌};
ghost use Rattle.tftp_ends.specs.Action.{same_address, same_endpoint};

use std::fmt;
use std::net::{Ipv4Addr, SocketAddrV4};

/// An IPv4 address and a UDP port: with the port of its other end, the transfer identifiers of a
/// transfer (RFC 1350, section 4).
#[derive(Clone, Copy, Debug, PartialEq, Eq, PartialOrd, Ord)]
pub struct Endpoint {
    /// The four bytes of the address, in network order.
    pub ip: [u8; 4],
    /// The UDP port.
    pub port: u16,
}

/// Four bytes as one number, so that two addresses are compared at once.
#[inline(always)]
fn word(a: u8, b: u8, c: u8, d: u8) -> u32
    ensures value { result ≡ a + b * 256 + c * 65536 + d * 16777216 }
    ensures bytes { (a < 256) × ((b < 256) × ((c < 256) × (d < 256))) }
{
    u32::from_le_bytes([a, b, c, d])
}

impl Endpoint {
    /// Whether both have the same address.
    #[inline(always)]
    pub(crate) fn has_address_of(self, other: Endpoint) -> bool
        ensures { result ≡ same_address self other }
    {
        let [a, b, c, d] = self.ip;
        let [e, f, g, h] = other.ip;
        word(a, b, c, d) == word(e, f, g, h)
    }

    /// Whether both have the same address and the same port.
    #[inline(always)]
    pub(crate) fn is_same(self, other: Endpoint) -> bool
        ensures { result ≡ same_endpoint self other }
    {
        self.has_address_of(other) && self.port == other.port
    }
}

impl fmt::Display for Endpoint {
    ghost use Rattle.std.specs.Prelude.{Some};
    ghost use Rattle.tftp_ends.specs.Endpoint.{endpoint_text};

    ghost output = { λ e. Some (endpoint_text e) };

    fn fmt<W: fmt::Write>(&self, f: &mut fmt::Formatter<W>) -> fmt::Result {
        let [a, b, c, d] = self.ip;
        let port = self.port;
        write!(f, "{a}.{b}.{c}.{d}:{port}")
    }
}

impl From<SocketAddrV4> for Endpoint {
    ghost use Rattle.tftp_ends.specs.Endpoint.{IsSameAddress};

    ghost from_gives = { λ address endpoint. IsSameAddress endpoint address };

    fn from(address: SocketAddrV4) -> Endpoint {
        Endpoint {
            ip: address.ip().octets(),
            port: address.port(),
        }
    }
}

impl From<Endpoint> for SocketAddrV4 {
    ghost use Rattle.tftp_ends.specs.Endpoint.{IsSameAddress};

    ghost from_gives = { λ endpoint address. IsSameAddress endpoint address };

    fn from(endpoint: Endpoint) -> SocketAddrV4 {
        SocketAddrV4::new(Ipv4Addr::from_octets(endpoint.ip), endpoint.port)
    }
}
