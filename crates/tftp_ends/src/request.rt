//! The requests of a client: which are allowed, and their bytes.

ghost use Rattle.std.specs.Prelude.{◌≡◌, ◌≤◌, ◌-◌, ◌^◌, ◌↔◌, length, min, IsTrue, IfOk};
ghost use Rattle.std.specs.Prelude.{vec_capacity};
ghost use Rattle.std.specs.List.{AllByRecursion};
ghost use Rattle.tftp_wire.specs.Options.{IsOption};
ghost use Rattle.tftp_wire.specs.Spelling.{IsValid, canonical};
ghost use Rattle.tftp_wire.specs.declared.packet.Packet.TheVariants.{Read, Write};
ghost use Rattle.tftp_negotiate.specs.Asked.{asked_options};
ghost use Rattle.tftp_ends.specs.Opening.{MayGet, MayAskPut, request_of};

use crate::options::{append_options, options_len};
use std::alloc::{AllocError, Global};
use tftp_negotiate::{Asked, Kind, laws};
use tftp_wire::{HEADER, MAX_REQUEST, Mode, append_read, append_write, is_text};

/// The length of the request in bytes, or the greatest `usize` if it is more.
#[inline(never)]
fn request_len(name: &[u8], mode: Mode, asked: &Asked) -> usize
    ensures len { result
        ≡ min (length (canonical (Read (request_of name.now mode asked.now)))) (2 ^ 64 - 1) }
    ensures room { HEADER ≤ result }
{
    // The opcode has two bytes, and a zero byte follows the name and the mode.
    options_len(asked.options(mode).as_slice())
        .saturating_add(name.len())
        .saturating_add(mode.word().len())
        .saturating_add(4)
}

/// Whether the request is a valid packet: the name is not empty and holds no zero byte, and the
/// packet has at most 512 bytes (RFC 2347, "Packet Formats").
fn is_packet(name: &[u8], mode: Mode, asked: &Asked) -> bool
    requires { AllByRecursion IsOption (asked_options asked.now mode) }
    ensures read { IsTrue result ↔ IsValid (Read (request_of name.now mode asked.now)) }
    ensures write { IsTrue result ↔ IsValid (Write (request_of name.now mode asked.now)) }
{
    !name.is_empty() && is_text(name) && request_len(name, mode, asked) <= MAX_REQUEST
}

/// Whether this read request is allowed.
pub(crate) fn may_get(name: &[u8], mode: Mode, asked: &Asked) -> bool
    ensures { IsTrue result ↔ MayGet name.now mode asked.now }
{
    // Options that may be requested are valid options of a packet.
    laws::options_are_spelled();
    asked.is_for(Kind::Read, mode, 0) && is_packet(name, mode, asked)
}

/// Whether this write request is allowed. It does not test whether the blocks can be numbered.
pub(crate) fn may_ask_put(name: &[u8], mode: Mode, asked: &Asked, length: u64) -> bool
    ensures { IsTrue result ↔ MayAskPut name.now mode asked.now length }
{
    laws::options_are_spelled();
    asked.is_for(Kind::Write, mode, length) && is_packet(name, mode, asked)
}

/// The bytes of a read request, in one allocation.
pub(crate) fn read_request(
    alloc: Global,
    name: &[u8],
    mode: Mode,
    asked: &Asked,
) -> Result<Vec<u8>, AllocError>
    ensures ok { IfOk result (λ v. v.items ≡
        canonical (Read (request_of name.now mode asked.now))) }
    ensures room { IfOk result (λ v. HEADER ≤ vec_capacity v) }
{
    let mut bytes = Vec::with_capacity(alloc, request_len(name, mode, asked))?;
    append_read(&mut bytes, name, mode)?;
    match append_options(&mut bytes, asked.options(mode).as_slice()) {
        Ok(()) => Ok(bytes),
        Err(fault) => Err(fault),
    }
}

/// The bytes of a write request, in one allocation that has room for `longest` bytes.
pub(crate) fn write_request(
    alloc: Global,
    name: &[u8],
    mode: Mode,
    asked: &Asked,
    longest: usize,
) -> Result<Vec<u8>, AllocError>
    ensures ok { IfOk result (λ v. v.items ≡
        canonical (Write (request_of name.now mode asked.now))) }
    ensures room { IfOk result (λ v. HEADER ≤ vec_capacity v) }
{
    let room = request_len(name, mode, asked).max(longest);
    let mut bytes = Vec::with_capacity(alloc, room)?;
    append_write(&mut bytes, name, mode)?;
    match append_options(&mut bytes, asked.options(mode).as_slice()) {
        Ok(()) => Ok(bytes),
        Err(fault) => Err(fault),
    }
}
