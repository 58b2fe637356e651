//! Encodes packets in their canonical spelling, and decides which packets are valid.

ghost use Rattle.std.specs.Prelude.{◌≡◌, ◌≤◌, ◌+◌, ◌-◌, ◌^◌, ◌++◌, ◌↔◌, ◌≢◌, List, [], length, min};
ghost use Rattle.std.specs.Prelude.{OnOk, IfErr, IsTrue, vec_len, vec_capacity, ℕ};
ghost use Rattle.std.specs.List.{AllByRecursion};
ghost use Rattle.tftp_wire.specs.Borrowed.{owned_request};
ghost use Rattle.tftp_wire.specs.Faults.{out_of_memory};
ghost use Rattle.tftp_wire.specs.Options.{IsOption, options_bytes};
ghost use Rattle.tftp_wire.specs.Spelling.{IsValid, IsRequest, canonical};
ghost use Rattle.tftp_wire.specs.declared.packet.Packet.TheVariants.{Read};

use crate::append::{
    append_ack, append_data, append_error, append_oack_header, append_option, append_read,
    append_write,
};
use crate::fault::PacketFault;
use crate::limits::{MAX_BLOCK, MAX_REQUEST};
use crate::options::RawOption;
use crate::packet::{Packet, Request, RequestRef};
use crate::text::is_text;

/// Whether the packet can be encoded: its texts contain no zero byte, its names are not empty, the
/// number of a DATA is not 0, an OACK has an option, and the length limits hold.
pub fn is_valid(packet: &Packet) -> bool
    ensures { IsTrue result ↔ IsValid packet.now }
{
    match packet {
        Packet::Read(request) => is_request(request) && canonical_len(packet) <= MAX_REQUEST,
        Packet::Write(request) => is_request(request) && canonical_len(packet) <= MAX_REQUEST,
        Packet::Data { block, bytes } => *block != 0
            && bytes.as_slice().len() <= usize::from(MAX_BLOCK),
        Packet::Ack { block } => {
            let _block = *block;
            true
        }
        Packet::Error { code, text } => {
            let _code = *code;
            is_text(text.as_slice()) && canonical_len(packet) <= MAX_REQUEST
        }
        Packet::Oack(options) => {
            let options = options.as_slice();
            !options.is_empty() && are_options(options) && canonical_len(packet) <= MAX_REQUEST
        }
    }
}

fn is_request(request: &Request) -> bool
    ensures { IsTrue result ↔ IsRequest request.now }
{
    let name = request.name.as_slice();
    !name.is_empty() && is_text(name) && are_options(request.options.as_slice())
}

fn are_options(options: &[RawOption]) -> bool
    ensures { IsTrue result ↔ AllByRecursion IsOption options.now }
{
    for option in options {
        if !is_option(option) {
            return false;
        }
    }
    true
}

fn is_option(option: &RawOption) -> bool
    ensures { IsTrue result ↔ IsOption option.now }
{
    let name = option.name.as_slice();
    !name.is_empty() && is_text(name) && is_text(option.value.as_slice())
}

/// The length of the packet in bytes, saturated at the greatest `usize`.
fn canonical_len(packet: &Packet) -> usize
    ensures { result ≡ min (length (canonical packet.now)) (2 ^ 64 - 1) }
{
    match packet {
        Packet::Read(request) => request_len(request),
        Packet::Write(request) => request_len(request),
        Packet::Data { block: _, bytes } => bytes.as_slice().len().saturating_add(4),
        Packet::Ack { block: _ } => 4,
        Packet::Error { code: _, text } => text.as_slice().len().saturating_add(5),
        Packet::Oack(options) => options_len(options.as_slice()).saturating_add(2),
    }
}

/// The length of a request in bytes, saturated at the greatest `usize`.
pub(crate) fn request_len_ref(request: &RequestRef<'_>) -> usize
    ensures { result ≡ min (length (canonical (Read (owned_request request.now)))) (2 ^ 64 - 1) }
{
    request
        .options
        .bytes_len()
        .saturating_add(request.name.len())
        .saturating_add(request.mode.word().len())
        .saturating_add(4)
}

/// As [`request_len_ref`], for a request that owns its bytes.
pub(crate) fn request_len(request: &Request) -> usize
    ensures { result ≡ min (length (canonical (Read request.now))) (2 ^ 64 - 1) }
{
    options_len(request.options.as_slice())
        .saturating_add(request.name.as_slice().len())
        .saturating_add(request.mode.word().len())
        .saturating_add(4)
}

/// The length of options in bytes, saturated at the greatest `usize`.
pub(crate) fn options_len(options: &[RawOption]) -> usize
    ensures { result ≡ min (length (options_bytes options.now)) (2 ^ 64 - 1) }
{
    let mut len = 0usize;
    for option in options {
        len = len
            .saturating_add(option.name.as_slice().len())
            .saturating_add(option.value.as_slice().len())
            .saturating_add(2);
    }
    len
}

/// Appends the canonical spelling of the packet, with a mode in lower case.
///
/// It fails only when out of memory, and the content of `out` is then unchanged.
pub fn encode(packet: &Packet, out: &mut Vec<u8>) -> Result<(), PacketFault>
    requires { IsValid packet.now }
    ensures ok { OnOk result (out.new.items ≡ out.old.items ++ canonical packet.now) }
    ensures err { IfErr result (λ e. (e ≡ out_of_memory) × (out.new.items ≡ out.old.items)) }
{
    out.reserve(canonical_len(packet))?;
    put_packet(out, packet);
    Ok(())
}

fn put_packet(out: &mut Vec<u8>, packet: &Packet)
    requires { vec_len out.old + length (canonical packet.now) ≤ vec_capacity out.old }
    ensures { out.new.items ≡ out.old.items ++ canonical packet.now }
{
    match packet {
        Packet::Read(request) => {
            append_read(out, request.name.as_slice(), request.mode).unwrap();
            put_options(out, request.options.as_slice());
        }
        Packet::Write(request) => {
            append_write(out, request.name.as_slice(), request.mode).unwrap();
            put_options(out, request.options.as_slice());
        }
        Packet::Data { block, bytes } => append_data(out, *block, bytes.as_slice()).unwrap(),
        Packet::Ack { block } => append_ack(out, *block).unwrap(),
        Packet::Error { code, text } => append_error(out, *code, text.as_slice()).unwrap(),
        Packet::Oack(options) => {
            append_oack_header(out).unwrap();
            put_options(out, options.as_slice());
        }
    }
}

fn put_options(out: &mut Vec<u8>, options: &[RawOption])
    requires { vec_len out.old + length (options_bytes options.now) ≤ vec_capacity out.old }
    ensures { out.new.items ≡ out.old.items ++ options_bytes options.now }
{
    for option in options {
        append_option(out, option.name.as_slice(), option.value.as_slice()).unwrap();
    }
}
