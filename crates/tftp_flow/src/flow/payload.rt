//! The payload of a datagram, which is decoded once.

ghost use Rattle.std.specs.Prelude.{◌≡◌, ◌<◌, ◌≤◌, ◌++◌, ◌↔◌, IfOk, IsTrue, None, OnOk, Some, is_none};
ghost use Rattle.std.specs.Prelude.{length};
ghost use Rattle.std.specs.Result.{ForErr, ForOk};
ghost use Rattle.std.specs.String.{string_bytes};
ghost use Rattle.tftp_wire.specs.Borrowed.{owned};
ghost use Rattle.tftp_wire.specs.Datagram.{datagram_shown};
ghost use Rattle.tftp_wire.specs.Parts.{packet_in};
ghost use Rattle.tftp_wire.specs.Reading.{first_fault};

use crate::flow::transfer_datagram::What;
use std::alloc::{AllocError, Global};
use tftp_wire::{OptionsRef, PacketFault, PacketRef, decode_ref, laws, show_datagram, show_ref};

/// The payload of a datagram, or the beginning of that, and what it is.
#[derive(Drop)]
pub struct Payload<'s> {
    /// The bytes that were seen.
    pub(crate) bytes: &'s [u8],
    /// Its length by the header of its datagram.
    length: usize,
    /// The packet that the bytes spell, or their first fault.
    packet: Result<PacketRef<'s>, PacketFault>,
    /// What it is, by its beginning and by its length.
    pub(crate) what: What,
    ghost whole: { ForOk packet (λ packet. first_fault bytes.now ≡ None) },
    ghost spelled: { ForOk packet (λ packet. packet_in bytes.now ≡ owned packet) },
    ghost faulty: { ForErr packet (λ fault. first_fault bytes.now ≡ Some fault) },
}

impl<'s> Payload<'s> {
    /// Decodes a payload, or the beginning of one that has this length by its header.
    pub fn new(bytes: &'s [u8], length: usize) -> Payload<'s>
        ensures bytes { result.bytes.now ≡ bytes.now }
        ensures length { result.length ≡ length }
    {
        // Bytes that spell a packet have no fault, and `packet_in` computes that packet.
        laws::fault_or_packet();
        laws::spelled_is_found();
        let packet = decode_ref(bytes);
        let what = What::of(&packet, bytes, length);
        Payload {
            bytes,
            length,
            packet,
            what,
        }
    }

    /// Whether only its beginning was seen.
    pub(crate) fn is_cut(&self) -> bool
        ensures { IsTrue result ↔ (length self.now.bytes.now < self.now.length) }
    {
        self.bytes.len() < self.length
    }

    /// The options, if it is an OACK.
    pub(crate) fn agreed(&self) -> Option<&OptionsRef<'s>> {
        match &self.packet {
            Ok(PacketRef::Oack(options)) => Some(options),
            _ => None,
        }
    }

    /// Its line.
    pub(crate) fn line(&self, alloc: Global) -> Result<String, AllocError> {
        let mut line = String::new(alloc);
        self.show(&mut line)?;
        Ok(line)
    }

    /// Appends its line, and returns whether it is a packet. Of a DATA whose beginning alone was seen
    /// the line has the length that its header says.
    ///
    /// It fails only when out of memory, with a beginning of the line in `out`, if any.
    pub fn show(&self, out: &mut String) -> Result<bool, AllocError>
        ensures is_packet { self.now.length ≤ length self.now.bytes.now
            → IfOk result (λ is_packet. is_packet ≡ is_none (first_fault self.now.bytes.now)) }
        ensures appended { self.now.length ≤ length self.now.bytes.now
            → OnOk result (string_bytes out.new ≡ string_bytes out.old
            ++ datagram_shown self.now.bytes.now (first_fault self.now.bytes.now)) }
    {
        if self.is_cut() {
            if let What::Data { block: 1.., .. } = self.what {
                let what = self.what;
                write!(out, "{what}")?;
                return Ok(true);
            }
        }
        self.show_seen(out)
    }

    /// Appends the line of the bytes that were seen. Bytes that are no packet are decoded again.
    fn show_seen(&self, out: &mut String) -> Result<bool, AllocError>
        ensures is_packet { IfOk result (λ is_packet.
            is_packet ≡ is_none (first_fault self.now.bytes.now)) }
        ensures appended { OnOk result (string_bytes out.new ≡ string_bytes out.old
            ++ datagram_shown self.now.bytes.now (first_fault self.now.bytes.now)) }
    {
        match &self.packet {
            Ok(packet) => match show_ref(packet, out) {
                Ok(()) => Ok(true),
                Err(_) => Err(AllocError),
            },
            Err(_) => match show_datagram(self.bytes, out) {
                Ok(is_packet) => Ok(is_packet),
                Err(_) => Err(AllocError),
            },
        }
    }
}
