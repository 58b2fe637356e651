//! The first number of a packet, which is its type (RFC 1350, section 5; RFC 2347, "Packet
//! Formats").

ghost use Rattle.std.specs.Prelude.{◌≡◌};
ghost use Rattle.tftp_wire.specs.Reading.{has_error_opcode};

pub(crate) const READ: u16 = 1;

pub(crate) const WRITE: u16 = 2;

pub(crate) const DATA: u16 = 3;

pub(crate) const ACK: u16 = 4;

pub(crate) const ERROR: u16 = 5;

pub(crate) const OACK: u16 = 6;

/// Whether a datagram begins with the opcode of ERROR. It may still be malformed.
pub fn has_error_opcode(bytes: &[u8]) -> bool
    ensures { result ≡ has_error_opcode bytes.now }
{
    matches!(bytes, [0, 5, ..])
}
