//! Owned packets from a datagram's bytes.

ghost use Rattle.std.specs.Prelude.{◌≡◌, IfOk, IfErr, MatchResult};
ghost use Rattle.tftp_wire.specs.Borrowed.{owned, owned_request, owned_option};
ghost use Rattle.tftp_wire.specs.Faults.{out_of_memory, IsFailure};
ghost use Rattle.tftp_wire.specs.Reading.{first_fault};
ghost use Rattle.tftp_wire.specs.Spelling.{Spells};
ghost use Rattle.tftp_wire.specs.declared.packet.Packet.{Packet};

use crate::bytes::Bytes;
use crate::fault::PacketFault;
use crate::options::{OptionRef, OptionsRef, RawOption, RawOptions};
use crate::packet::{Packet, PacketRef, Request, RequestRef};
use crate::reader::decode_ref;
use std::alloc::{AllocError, Global};

/// The packet that the bytes spell.
///
/// If they spell none, the error is their first fault from the left, with its offset. The error is
/// `Memory` only for bytes that spell a packet.
pub fn decode(alloc: Global, bytes: &[u8]) -> Result<Packet, PacketFault>
    ensures found { IfOk result (λ p. Spells p bytes.now) }
    ensures only { (p : Packet) → Spells p bytes.now
        → MatchResult result (λ q. q ≡ p) (λ e. e ≡ out_of_memory) }
    ensures fault { IfErr result (λ e. IsFailure (first_fault bytes.now) e) }
{
    decode_ref(bytes)?.to_packet(alloc)
}

impl<'a> PacketRef<'a> {
    /// A copy of the packet that owns its bytes. It fails only when out of memory.
    pub fn to_packet(&self, alloc: Global) -> Result<Packet, PacketFault>
        ensures ok { IfOk result (λ p. p ≡ owned self.now) }
        ensures err { IfErr result (λ e. e ≡ out_of_memory) }
    {
        Ok(match self {
            PacketRef::Read(request) => Packet::Read(request.to_request(alloc)?),
            PacketRef::Write(request) => Packet::Write(request.to_request(alloc)?),
            PacketRef::Data { block, bytes } => Packet::Data {
                block: *block,
                bytes: Bytes::from_slice(alloc, bytes)?,
            },
            PacketRef::Ack { block } => Packet::Ack { block: *block },
            PacketRef::Error { code, text } => Packet::Error {
                code: *code,
                text: Bytes::from_slice(alloc, text)?,
            },
            PacketRef::Oack(options) => Packet::Oack(options.to_options(alloc)?),
        })
    }
}

impl<'a> RequestRef<'a> {
    /// A copy of the request that owns its bytes. It fails only when out of memory.
    pub fn to_request(&self, alloc: Global) -> Result<Request, AllocError>
        ensures { IfOk result (λ r. r ≡ owned_request self.now) }
    {
        Ok(Request {
            name: Bytes::from_slice(alloc, self.name)?,
            mode: self.mode,
            options: self.options.to_options(alloc)?,
        })
    }
}

impl<'a> OptionsRef<'a> {
    /// A copy of the options that owns its bytes. It fails only when out of memory.
    pub fn to_options(&self, alloc: Global) -> Result<RawOptions, AllocError>
        ensures { IfOk result (λ options. options ≡ self.now) }
    {
        let mut items = Vec::new(alloc);
        for option in self.iter() {
            items.push(option.to_option(alloc)?)?;
        }
        Ok(RawOptions::from(items))
    }
}

impl<'a> OptionRef<'a> {
    /// A copy of the option that owns its bytes. It fails only when out of memory.
    pub fn to_option(&self, alloc: Global) -> Result<RawOption, AllocError>
        ensures { IfOk result (λ option. option ≡ owned_option self.now) }
    {
        Ok(RawOption {
            name: Bytes::from_slice(alloc, self.name)?,
            value: Bytes::from_slice(alloc, self.value)?,
        })
    }
}
