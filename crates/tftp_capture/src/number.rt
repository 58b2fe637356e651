//! Numbers and parts of bytes, by offset.

ghost use Rattle.std.specs.Prelude.{◌≡◌, ◌+◌, ◌≤◌, length, take, drop};
ghost use Rattle.tftp_capture.specs.Frame.{pair_at};

use byteorder::{BigEndian, ByteOrder};

/// The number in the two bytes at an offset, the high byte first.
pub(crate) fn big_pair(bytes: &[u8], at: usize) -> u16
    requires { at + 2 ≤ length bytes.now }
    ensures { result ≡ pair_at at bytes.now }
{
    BigEndian::read_u16(after(bytes, at))
}

/// The bytes from an offset on.
pub(crate) fn after(bytes: &[u8], at: usize) -> &[u8]
    requires { at ≤ length bytes.now }
    ensures { result.now ≡ drop at bytes.now }
{
    let (_, rest) = bytes.split_at(at);
    rest
}

/// At most the first `count` bytes.
pub(crate) fn first(bytes: &[u8], count: usize) -> &[u8]
    ensures { result.now ≡ take count bytes.now }
{
    if count < bytes.len() {
        let (front, _) = bytes.split_at(count);
        front
    } else {
        bytes
    }
}
