//! An IPv4 packet (RFC 791, section 3.1): what it carries, from where to where.

ghost use Rattle.std.specs.Prelude.{◌≡◌, ◌+◌, ◌≤◌, length};
ghost use Rattle.std.specs.Net.Addr.{ipv4_octets};
ghost use Rattle.tftp_capture.specs.Frame.{IsWanted, carried_of, carried_view, octets_at};

use crate::fault::FrameFault;
use crate::number::{after, big_pair, first};
use std::net::Ipv4Addr;

/// The shortest header, in bytes.
const SHORTEST: usize = 20;

/// The number of UDP.
const UDP: u8 = 17;

/// What an IPv4 packet carries of a datagram of UDP, or of its first fragment.
#[derive(Clone, Copy)]
pub(crate) struct Carried<'f> {
    pub(crate) source: Ipv4Addr,
    pub(crate) target: Ipv4Addr,
    /// What the frame has of it.
    pub(crate) body: &'f [u8],
    /// How many bytes it has by the packet's header.
    pub(crate) size: usize,
    /// Whether fragments follow.
    pub(crate) goes_on: bool,
}

/// What a packet carries of UDP.
pub(crate) fn carried_by(packet: &[u8]) -> Result<Carried<'_>, FrameFault>
    ensures { IsWanted carried_view (carried_of packet.now) result }
{
    if packet.len() < SHORTEST {
        return Err(FrameFault::Short);
    }
    if packet[0] / 16 != 4 {
        return Err(FrameFault::NotIpv4);
    }
    let header = usize::from(packet[0] % 16) * 4;
    let total = usize::from(big_pair(packet, 2));
    if header < SHORTEST || total < header {
        return Err(FrameFault::Header);
    }
    if packet[9] != UDP {
        return Err(FrameFault::NotUdp);
    }
    if big_pair(packet, 6) % 0x2000 != 0 {
        return Err(FrameFault::Fragment);
    }
    if packet.len() < header {
        return Err(FrameFault::Short);
    }
    let size = total - header;
    Ok(Carried {
        source: address_at(packet, 12),
        target: address_at(packet, 16),
        body: first(after(packet, header), size),
        size,
        goes_on: big_pair(packet, 6) / 0x2000 % 2 == 1,
    })
}

/// The address at an offset.
fn address_at(packet: &[u8], at: usize) -> Ipv4Addr
    requires { at + 4 ≤ length packet.now }
    ensures { ipv4_octets result ≡ octets_at at packet.now }
{
    Ipv4Addr::new(packet[at], packet[at + 1], packet[at + 2], packet[at + 3])
}
