//! Compares packets with packets, and packets with datagrams.

ghost use Rattle.std.specs.Prelude.{◌≡◌, ◌↔◌, IsTrue};
ghost use Rattle.tftp_wire.specs.Borrowed.{owned, owned_request};
ghost use Rattle.tftp_wire.specs.Spelling.{Spells};

use crate::packet::{PacketRef, RequestRef};
use crate::reader::decode_ref;

impl<'a> RequestRef<'a> {
    /// Whether both have the same name, mode and options.
    pub fn is_same(&self, other: &RequestRef<'_>) -> bool
        ensures { IsTrue result ↔ (owned_request self.now ≡ owned_request other.now) }
    {
        self.name == other.name && self.mode == other.mode && self.options.is_same(&other.options)
    }
}

impl<'a> PacketRef<'a> {
    /// Whether both are the same packet.
    pub fn is_same(&self, other: &PacketRef<'_>) -> bool
        ensures { IsTrue result ↔ (owned self.now ≡ owned other.now) }
    {
        match self {
            PacketRef::Read(request) => {
                matches!(other, PacketRef::Read(asked) if request.is_same(asked))
            }
            PacketRef::Write(request) => {
                matches!(other, PacketRef::Write(asked) if request.is_same(asked))
            }
            PacketRef::Data { block, bytes } => match other {
                PacketRef::Data {
                    block: number,
                    bytes: data,
                } => block == number && bytes == data,
                _ => false,
            },
            PacketRef::Ack { block } => match other {
                PacketRef::Ack { block: number } => block == number,
                _ => false,
            },
            PacketRef::Error { code, text } => match other {
                PacketRef::Error {
                    code: number,
                    text: words,
                } => code == number && text == words,
                _ => false,
            },
            PacketRef::Oack(options) => match other {
                PacketRef::Oack(agreed) => options.is_same(agreed),
                _ => false,
            },
        }
    }

    /// Whether the bytes spell this packet.
    pub fn is_spelled(&self, bytes: &[u8]) -> bool
        ensures { IsTrue result ↔ Spells (owned self.now) bytes.now }
    {
        match decode_ref(bytes) {
            Ok(packet) => packet.is_same(self),
            Err(_) => false,
        }
    }
}
