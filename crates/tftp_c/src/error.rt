//! An ERROR of a caller in C, which no end sends.

ghost use Rattle.std.specs.Prelude.{◌≡◌, ◌↔◌, IfSome, IsTrue, length, take};
ghost use Rattle.tftp_wire.specs.Spelling.{canonical};
ghost use Rattle.tftp_wire.specs.Texts.{IsText};
ghost use Rattle.tftp_wire.specs.declared.packet.Packet.TheVariants.{Error};
ghost use Rattle.tftp_c.specs.Aborted.{MayTell};

use crate::slice_sink::copy_to;
use std::alloc::Global;
use tftp_wire::{MAX_REQUEST, append_error, is_text};

/// The bytes of an ERROR besides its text: the opcode, the code and the zero byte.
const AROUND: usize = 5;

/// Copies the bytes, or none of them if they do not fit, and returns how many.
pub(crate) fn copy_whole(bytes: &[u8], to: &mut [u8]) -> usize
    ensures copied { (result ≡ 0 → ⊥) → take result to.new ≡ bytes.now }
    ensures len { (result ≡ 0 → ⊥) → result ≡ length bytes.now }
{
    if bytes.len() > to.len() {
        return 0;
    }
    copy_to(to, bytes);
    bytes.len()
}

/// Whether an ERROR may have this text.
pub(crate) fn may_tell(text: &[u8]) -> bool
    ensures { IsTrue result ↔ MayTell text.now }
{
    text.len() <= MAX_REQUEST - AROUND && is_text(text)
}

/// The bytes of an ERROR, or `None` out of memory.
pub(crate) fn error_packet(alloc: Global, code: u16, text: &[u8]) -> Option<Vec<u8>>
    ensures { IfSome result (λ v. v.items ≡ canonical (Error code text.now)) }
{
    let mut out = Vec::new(alloc);
    match append_error(&mut out, code, text) {
        Ok(()) => Some(out),
        Err(_) => None,
    }
}

/// Writes an ERROR, and returns its length; or 0 if the text has a zero byte, or the ERROR has more
/// than 512 bytes or does not fit, or without memory.
#[unsafe(no_mangle)]
pub extern "C" fn tftp_error(alloc: Global, code: u16, text: &[u8], datagram: &mut [u8]) -> usize
    ensures error { (result ≡ 0 → ⊥) → take result datagram.new ≡ canonical (Error code text.now) }
    ensures len { (result ≡ 0 → ⊥) → result ≡ length (canonical (Error code text.now)) }
    ensures text { (result ≡ 0 → ⊥) → IsText text.now }
{
    if !may_tell(text) {
        return 0;
    }
    match error_packet(alloc, code, text) {
        Some(error) => copy_whole(error.as_slice(), datagram),
        None => 0,
    }
}
