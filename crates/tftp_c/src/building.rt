//! A request that a caller in C builds itself, and the options that it adds to it.

ghost use Rattle.std.specs.Prelude.{◌≡◌, ◌++◌, [], IfSome, IsTrue, length, take};
ghost use Rattle.tftp_wire.specs.Options.{option_bytes};
ghost use Rattle.tftp_wire.specs.Spelling.{canonical};
ghost use Rattle.tftp_wire.specs.Texts.{IsText};
ghost use Rattle.tftp_c.specs.Built.{plain_request, BuildsRequest};
ghost use Rattle.tftp_c.specs.Modes.{mode_number};

use crate::error::copy_whole;
use crate::slice_sink::write_at;
use std::alloc::Global;
use tftp_wire::{MAX_REQUEST, Mode, append_option, append_read, append_write, is_text};

/// The bytes of a request besides its name and the word of its mode: the opcode and two zero bytes.
const AROUND: usize = 4;

fn mode_of(number: u8) -> Option<Mode>
    ensures { IfSome result (λ mode. mode_number mode ≡ number) }
{
    match number {
        1 => Some(Mode::Octet),
        2 => Some(Mode::Netascii),
        _ => None,
    }
}

/// Whether a request may have this name: a text that is not empty, in at most 512 bytes with the rest.
fn is_name(name: &[u8], mode: Mode) -> bool
    ensures { IsTrue result → IsText name.now }
{
    let both = name.len().saturating_add(mode.word().len());
    !name.is_empty() && both <= MAX_REQUEST - AROUND && is_text(name)
}

/// Appends a request without options to nothing, and returns whether there is one: opcode 1 is a read
/// and 2 a write.
fn append_request(out: &mut Vec<u8>, opcode: u16, name: &[u8], mode: Mode) -> bool
    requires { out.old.items ≡ [] }
    ensures { IsTrue result → out.new.items ≡ canonical (plain_request opcode name.now mode) }
{
    match opcode {
        1 => append_read(out, name, mode).is_ok(),
        2 => append_write(out, name, mode).is_ok(),
        _ => false,
    }
}

/// Writes a request without options: opcode 1 is a read and 2 a write, mode 1 octet and 2 netascii.
/// Returns its length; or 0 if it is no request, does not fit, or without memory.
#[unsafe(no_mangle)]
pub extern "C" fn tftp_request(
    alloc: Global,
    opcode: u16,
    mode: u8,
    name: &[u8],
    datagram: &mut [u8],
) -> usize
    ensures { (result ≡ 0 → ⊥) → BuildsRequest opcode mode name.now datagram.new result }
{
    match mode_of(mode) {
        Some(mode) => {
            if !is_name(name, mode) {
                return 0;
            }
            let mut out = Vec::new(alloc);
            if !append_request(&mut out, opcode, name, mode) {
                return 0;
            }
            copy_whole(out.as_slice(), datagram)
        }
        None => 0,
    }
}

/// Appends an option to a request or an OACK of `used` bytes, and returns its new length; or 0 if
/// the option has no name or a zero byte, or the result would be longer than 512 bytes or the
/// buffer, or without memory.
#[unsafe(no_mangle)]
pub extern "C" fn tftp_add_option(
    alloc: Global,
    used: usize,
    name: &[u8],
    value: &[u8],
    datagram: &mut [u8],
) -> usize
    ensures { (result ≡ 0 → ⊥) → take result datagram.new ≡ take used datagram.old
        ++ option_bytes (record { name = name.now; value = value.now }) }
{
    if name.is_empty() || !is_text(name) || !is_text(value) {
        return 0;
    }
    let mut out = Vec::new(alloc);
    match append_option(&mut out, name, value) {
        Ok(()) => added(out.as_slice(), used, datagram),
        Err(_) => 0,
    }
}

/// Writes the bytes of an option behind those that are used.
fn added(bytes: &[u8], used: usize, datagram: &mut [u8]) -> usize
    ensures { (result ≡ 0 → ⊥) → take result datagram.new ≡ take used datagram.old ++ bytes.now }
{
    if used > MAX_REQUEST || bytes.len() > MAX_REQUEST - used {
        return 0;
    }
    match write_at(datagram, used, bytes) {
        Some(end) => end,
        None => 0,
    }
}
