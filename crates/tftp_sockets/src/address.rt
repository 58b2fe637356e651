//! Addresses, and the size of a datagram buffer, for the programs over UDP.

ghost use Rattle.tftp_sockets.specs.Address.{IsAddressOf, IsEndpointOf, Names};

use std::net::{SocketAddr, SocketAddrV4};
use tftp_ends::Endpoint;
use tftp_wire::MAX_DATA;

/// The size of a datagram buffer, in bytes: one more than the longest valid datagram. A longer one
/// is then malformed, and is not truncated to a valid one (RFC 2348, "Blocksize Option
/// Specification").
pub const DATAGRAM_BUFFER: usize = MAX_DATA + 1;

/// The socket address of an endpoint.
pub fn address_of(endpoint: Endpoint) -> SocketAddr
    ensures { IsAddressOf endpoint result }
{
    SocketAddr::V4(SocketAddrV4::from(endpoint))
}

/// The endpoint of an IPv4 socket address; `None` for IPv6.
pub fn endpoint_of(address: SocketAddr) -> Option<Endpoint>
    ensures { IsEndpointOf address result }
{
    match address {
        SocketAddr::V4(address) => Some(Endpoint::from(address)),
        SocketAddr::V6(_) => None,
    }
}

/// The endpoint that a word `ADDR:PORT` names, with a dotted IPv4 address; `None` for other words.
pub fn endpoint_in(word: &str) -> Option<Endpoint>
    ensures { Names word.now result }
{
    match word.parse::<SocketAddrV4>() {
        Ok(address) => Some(Endpoint::from(address)),
        Err(_) => None,
    }
}
