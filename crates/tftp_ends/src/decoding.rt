//! Decoding of a datagram.

ghost use Rattle.std.specs.Prelude.{◌≡◌, ◌↔◌, option_map};
ghost use Rattle.tftp_wire.specs.Borrowed.{owned};
ghost use Rattle.tftp_ends.specs.Action.{Decodes};

use tftp_wire::{PacketRef, decode_ref};

/// The packet that the bytes spell, or `None` if they spell none.
pub fn decode_packet(bytes: &[u8]) -> Option<PacketRef<'_>>
    ensures { Decodes bytes.now (option_map owned result) }
{
    match decode_ref(bytes) {
        Ok(packet) => Some(packet),
        Err(_) => None,
    }
}
