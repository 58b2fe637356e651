//! Numbers in the byte order of the host that captured.

ghost use Rattle.std.specs.Prelude.{◌+◌, ◌≤◌, length};

use crate::number::after;
use byteorder::{BigEndian, ByteOrder, LittleEndian};

/// The byte order of a capture.
#[derive(Clone, Copy)]
pub(crate) enum Order {
    /// The highest byte first.
    Big,
    /// The lowest byte first.
    Little,
}

impl Order {
    /// The number in the two bytes at an offset.
    pub(crate) fn pair(self, bytes: &[u8], at: usize) -> u16
        requires { at + 2 ≤ length bytes.now }
    {
        let bytes = after(bytes, at);
        match self {
            Order::Big => BigEndian::read_u16(bytes),
            Order::Little => LittleEndian::read_u16(bytes),
        }
    }

    /// The number in the four bytes at an offset.
    pub(crate) fn number(self, bytes: &[u8], at: usize) -> u32
        requires { at + 4 ≤ length bytes.now }
    {
        let bytes = after(bytes, at);
        match self {
            Order::Big => BigEndian::read_u32(bytes),
            Order::Little => LittleEndian::read_u32(bytes),
        }
    }
}
