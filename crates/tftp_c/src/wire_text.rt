//! The wire text of a host's text in netascii, for C (RFC 764).

ghost use Rattle.std.specs.Prelude.{◌≡◌, ◌^◌, ◌-◌, length, min, take};
ghost use Rattle.tftp_file.specs.Netascii.{netascii_text};

use crate::error::copy_whole;
use std::alloc::Global;
use tftp_file::{NetEncoder, wire_length_within};
use tftp_wire::Mode;

/// The length in bytes of a host's text as it is sent in netascii, or 2^64 - 1 if it is longer.
#[unsafe(no_mangle)]
pub extern "C" fn tftp_wire_length(text: &[u8]) -> u64
    ensures { result ≡ min (length (netascii_text text.now)) (2 ^ 64 - 1) }
{
    wire_length_within(text, Mode::Netascii, u64::MAX)
}

/// Writes a host's text as it is sent in netascii, and returns its length; or 0 if it does not fit,
/// or without memory.
#[unsafe(no_mangle)]
pub extern "C" fn tftp_to_wire(alloc: Global, text: &[u8], wire: &mut [u8]) -> usize
    ensures len { (result ≡ 0 → ⊥) → result ≡ length (netascii_text text.now) }
    ensures written { (result ≡ 0 → ⊥) → take result wire.new ≡ netascii_text text.now }
{
    let mut out = Vec::new(alloc);
    let mut encoder = NetEncoder::new();
    match encoder.push(text, &mut out) {
        Ok(()) => copy_whole(out.as_slice(), wire),
        Err(_) => 0,
    }
}
