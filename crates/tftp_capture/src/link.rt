//! The header of a link: where the IPv4 packet of a frame begins.

ghost use Rattle.std.specs.Prelude.{◌≡◌, ◌+◌, ◌≤◌};
ghost use Rattle.tftp_capture.specs.Frame.{IsWanted, borrowed, ip_packet, typed, family, untagged};
ghost use Rattle.tftp_capture.specs.Frame.{tagged, twice_tagged, is_tag, link_of};

use crate::fault::FrameFault;
use crate::number::{after, big_pair};

/// The type of IPv4 in a header of Ethernet (RFC 894).
const IPV4: u16 = 0x0800;

/// How the frames of an interface begin.
#[derive(Clone, Copy)]
pub enum Link {
    /// Ethernet, with at most two VLAN tags.
    Ethernet,
    /// Linux cooked, version 1: what `tcpdump -i any` writes.
    Cooked,
    /// Linux cooked, version 2.
    Cooked2,
    /// IP without a link.
    Raw,
    /// The loopback of BSD and macOS: an address family in four bytes, of either order.
    Loopback,
    /// Another.
    Other,
}

impl Link {
    /// The link of a number, as tcpdump.org lists them.
    pub fn of(number: u32) -> Link
        ensures { result ≡ link_of number }
    {
        match number {
            0 | 108 => Link::Loopback,
            1 => Link::Ethernet,
            12 | 14 | 101 | 228 => Link::Raw,
            113 => Link::Cooked,
            276 => Link::Cooked2,
            _ => Link::Other,
        }
    }
}

/// The IP packet in a frame.
pub(crate) fn packet_in(link: Link, frame: &[u8]) -> Result<&[u8], FrameFault>
    ensures { IsWanted borrowed (ip_packet link frame.now) result }
{
    match link {
        Link::Ethernet => packet_by_type(frame, 12, 14),
        Link::Cooked => packet_by_type(frame, 14, 16),
        Link::Cooked2 => packet_by_type(frame, 0, 20),
        Link::Raw => Ok(frame),
        Link::Loopback => packet_by_family(frame),
        Link::Other => Err(FrameFault::Link),
    }
}

/// The packet that begins at `start`, in a frame that has the packet's type at `at`.
fn packet_by_type(frame: &[u8], at: usize, start: usize) -> Result<&[u8], FrameFault>
    requires { at + 2 ≤ start }
    ensures { IsWanted borrowed (typed at start frame.now) result }
{
    if frame.len() < start {
        return Err(FrameFault::Short);
    }
    after_two_tags(big_pair(frame, at), after(frame, start))
}

/// What is left of a frame after at most two tags.
fn after_two_tags(kind: u16, rest: &[u8]) -> Result<&[u8], FrameFault>
    ensures { IsWanted borrowed (twice_tagged kind rest.now) result }
{
    if !is_tag(kind) {
        return untagged(kind, rest);
    }
    if rest.len() < 4 {
        return Err(FrameFault::Short);
    }
    after_tag(big_pair(rest, 2), after(rest, 4))
}

/// What is left of a frame after at most one tag.
fn after_tag(kind: u16, rest: &[u8]) -> Result<&[u8], FrameFault>
    ensures { IsWanted borrowed (tagged kind rest.now) result }
{
    if !is_tag(kind) {
        return untagged(kind, rest);
    }
    if rest.len() < 4 {
        return Err(FrameFault::Short);
    }
    untagged(big_pair(rest, 2), after(rest, 4))
}

/// The packet after all tags.
fn untagged(kind: u16, rest: &[u8]) -> Result<&[u8], FrameFault>
    ensures { IsWanted borrowed (untagged kind rest.now) result }
{
    if kind == IPV4 {
        Ok(rest)
    } else {
        Err(FrameFault::NotIpv4)
    }
}

/// Whether a type is that of a VLAN tag (IEEE 802.1Q and 802.1ad, and an older number).
fn is_tag(kind: u16) -> bool
    ensures { result ≡ is_tag kind }
{
    kind == 0x8100 || kind == 0x88a8 || kind == 0x9100
}

/// The packet after an address family, whose byte order is that of the host that captured.
fn packet_by_family(frame: &[u8]) -> Result<&[u8], FrameFault>
    ensures { IsWanted borrowed (family frame.now) result }
{
    if frame.len() < 4 {
        return Err(FrameFault::Short);
    }
    let (first, second) = (big_pair(frame, 0), big_pair(frame, 2));
    if (first == 0 && second == 2) || (first == 0x0200 && second == 0) {
        Ok(after(frame, 4))
    } else {
        Err(FrameFault::NotIpv4)
    }
}
