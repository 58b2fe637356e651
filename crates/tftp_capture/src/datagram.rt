//! The UDP datagram of a frame (RFC 768).

ghost use Rattle.std.specs.Prelude.{◌≡◌, IfOk, IfErr, IsOkAnd, Ok, Err};
ghost use Rattle.tftp_capture.specs.Frame.{IsWanted, Udp, datagram_of, udp_of, udp_view, carried_view};

use crate::fault::FrameFault;
use crate::ip::{Carried, carried_by};
use crate::link::{Link, packet_in};
use crate::number::{after, big_pair, first};
use std::net::SocketAddrV4;

/// The length of a UDP header.
const HEADER: usize = 8;

/// A UDP datagram of a frame, borrowed from it.
#[derive(Clone, Copy)]
pub struct Datagram<'f> {
    /// Its source.
    pub from: SocketAddrV4,
    /// Its destination.
    pub to: SocketAddrV4,
    /// What the frame has of its payload.
    pub payload: &'f [u8],
    /// The length of its payload by its header: more than the frame has if fragments follow, or if
    /// the capture has the first bytes of each frame alone.
    pub length: usize,
}

/// The UDP datagram of a frame, or why it has none. Allocates no memory.
///
/// The error is the first fault of the frame.
pub fn read_datagram(link: Link, frame: &[u8]) -> Result<Datagram<'_>, FrameFault>
    ensures found { IfOk result (λ d. datagram_of link frame.now ≡ Ok (udp_view d)) }
    ensures only { (u : Udp) → datagram_of link frame.now ≡ Ok u
        → IsOkAnd result (λ d. udp_view d ≡ u) }
    ensures fault { IfErr result (λ e. datagram_of link frame.now ≡ Err e) }
{
    read_frame(link, frame)
}

fn read_frame(link: Link, frame: &[u8]) -> Result<Datagram<'_>, FrameFault>
    ensures { IsWanted udp_view (datagram_of link frame.now) result }
{
    let packet = match packet_in(link, frame) {
        Ok(packet) => packet,
        Err(fault) => return Err(fault),
    };
    match carried_by(packet) {
        Ok(carried) => read_udp(carried),
        Err(fault) => Err(fault),
    }
}

/// The datagram that a packet carries.
fn read_udp(carried: Carried<'_>) -> Result<Datagram<'_>, FrameFault>
    ensures { IsWanted udp_view (udp_of (carried_view carried.entry)) result }
{
    let body = carried.body;
    if body.len() < HEADER {
        return Err(FrameFault::Short);
    }
    let length = usize::from(big_pair(body, 4));
    if length < HEADER {
        return Err(FrameFault::Length);
    }
    if !carried.goes_on && carried.size < length {
        return Err(FrameFault::Length);
    }
    Ok(Datagram {
        from: SocketAddrV4::new(carried.source, big_pair(body, 0)),
        to: SocketAddrV4::new(carried.target, big_pair(body, 2)),
        payload: first(after(body, HEADER), length - HEADER),
        length: length - HEADER,
    })
}
