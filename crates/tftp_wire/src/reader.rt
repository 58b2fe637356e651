//! Decodes a datagram, for owned and borrowed packets, and finds its first fault.

ghost use Rattle.std.specs.Prelude.{◌≡◌, ◌≤◌, ◌+◌, ◌-◌, ◌<◌, ◌^◌, ◌==◌, None, length};
ghost use Rattle.std.specs.Prelude.{drop, IfOk, IfErr, IfSome, IsSomeAnd, MatchResult, IsOkAnd};
ghost use Rattle.std.specs.Prelude.{List, ℕ};
ghost use Rattle.byteorder.specs.Endian.{big_number};
ghost use Rattle.tftp_wire.specs.Borrowed.{owned, owned_request};
ghost use Rattle.tftp_wire.specs.Options.{options_in};
ghost use Rattle.tftp_wire.specs.Parts.{packet_in, packet_of, request_of, Reads, bytes_fault};
ghost use Rattle.tftp_wire.specs.Parts.{SplitsText, GoesOn};
ghost use Rattle.tftp_wire.specs.Reading.{first_fault, request_fault, data_fault};
ghost use Rattle.tftp_wire.specs.Reading.{ack_fault, error_fault, oack_fault, mode_in};
ghost use Rattle.tftp_wire.specs.Reading.{number_fault, starts_as_data};
ghost use Rattle.tftp_wire.specs.Spelling.{Spells};
ghost use Rattle.tftp_wire.specs.Texts.{texts};
ghost use Rattle.tftp_wire.specs.declared.packet.Packet.{Packet};
ghost use Rattle.tftp_wire.specs.declared.packet.Packet.TheVariants.{Data};

use crate::fault::{PacketFault, PacketFaultKind};
use crate::limits::{HEADER, MAX_DATA, MAX_REQUEST};
use crate::mode::Mode;
use crate::opcode::{ACK, DATA, ERROR, OACK, READ, WRITE};
use crate::options::OptionsRef;
use crate::packet::{PacketRef, RequestRef};
use crate::text::split_text;
use byteorder::{BigEndian, ByteOrder};

/// The packet that the bytes spell, borrowed from them. Allocates no memory.
///
/// If they spell none, the error is their first fault from the left, with its offset. It is never
/// `Memory`.
pub fn decode_ref(bytes: &[u8]) -> Result<PacketRef<'_>, PacketFault>
    ensures found { IfOk result (λ p. Spells (owned p) bytes.now) }
    ensures only { (p : Packet) → Spells p bytes.now → IsOkAnd result (λ q. owned q ≡ p) }
    ensures fault { IfErr result (λ e. first_fault bytes.now ≡ Some e) }
{
    read_packet(bytes)
}

fn read_packet(bytes: &[u8]) -> Result<PacketRef<'_>, PacketFault>
    ensures { Reads owned (packet_in bytes.now) (first_fault bytes.now) result }
{
    if bytes.len() < 2 {
        return Err(fault_at(PacketFaultKind::Short, 0));
    }
    match BigEndian::read_u16(bytes) {
        READ => Ok(PacketRef::Read(read_request(bytes)?)),
        WRITE => Ok(PacketRef::Write(read_request(bytes)?)),
        DATA => {
            let (block, bytes) = read_block(bytes)?;
            Ok(PacketRef::Data { block, bytes })
        }
        ACK => read_ack(bytes),
        ERROR => read_error(bytes),
        OACK => read_oack(bytes),
        _ => Err(fault_at(PacketFaultKind::Opcode, 0)),
    }
}

/// The file name, mode and options after the opcode of a request.
fn read_request(bytes: &[u8]) -> Result<RequestRef<'_>, PacketFault>
    requires { 2 ≤ length bytes.now }
    ensures { Reads owned_request (request_of (texts (drop 2 bytes.now)))
        (request_fault bytes.now) result }
{
    if bytes.len() > MAX_REQUEST {
        return Err(fault_at(PacketFaultKind::TooLong, MAX_REQUEST));
    }
    let (_, body) = bytes.split_at(2);
    let (name, after) = read_text(body, 2)?;
    if name.is_empty() {
        return Err(fault_at(PacketFaultKind::EmptyName, 2));
    }
    let start = bytes.len() - after.len();
    let (word, rest) = read_text(after, start)?;
    let Some(mode) = mode_of(word) else {
        return Err(fault_at(PacketFaultKind::Mode, start));
    };
    let options = read_options(rest, bytes.len() - rest.len())?;
    Ok(RequestRef {
        name,
        mode,
        options,
    })
}

/// The block number and the bytes of a datagram with the opcode of DATA.
#[inline(always)]
fn read_block(bytes: &[u8]) -> Result<(u16, &[u8]), PacketFault>
    requires { 2 ≤ length bytes.now }
    ensures { Reads (λ d. Data d.0 d.1.now) (packet_of 3 bytes.now)
        (data_fault bytes.now) result }
{
    if bytes.len() > MAX_DATA {
        return Err(fault_at(PacketFaultKind::TooLong, MAX_DATA));
    }
    let block = read_number(bytes)?;
    if block == 0 {
        return Err(fault_at(PacketFaultKind::BlockZero, 2));
    }
    Ok((block, &bytes[4..]))
}

/// The block number and the bytes of a DATA, borrowed from the datagram, and `None` for every other
/// datagram (RFC 1350, section 5): what [`decode_ref`] finds, for who expects a DATA.
#[inline(always)]
pub fn data_in(bytes: &[u8]) -> Option<(u16, &[u8])>
    ensures found { IfSome result (λ d. Spells (Data d.0 d.1.now) bytes.now) }
    ensures only { (block : ℕ) (piece : List ℕ) → Spells (Data block piece) bytes.now
        → IsSomeAnd result (λ d. (d.0 ≡ block) × (d.1.now ≡ piece)) }
{
    if !begins_as_data(bytes) {
        return None;
    }
    match read_block(bytes) {
        Ok(data) => Some(data),
        Err(_) => None,
    }
}

/// Whether a datagram begins with the opcode of DATA.
#[inline(always)]
fn begins_as_data(bytes: &[u8]) -> bool
    ensures { result ≡ starts_as_data bytes.now }
{
    bytes.len() >= 2 && BigEndian::read_u16(bytes) == DATA
}

fn read_ack(bytes: &[u8]) -> Result<PacketRef<'_>, PacketFault>
    requires { 2 ≤ length bytes.now }
    ensures { Reads owned (packet_of 4 bytes.now) (ack_fault bytes.now) result }
{
    let block = read_number(bytes)?;
    if bytes.len() > HEADER {
        return Err(fault_at(PacketFaultKind::Trailing, HEADER));
    }
    Ok(PacketRef::Ack { block })
}

fn read_error(bytes: &[u8]) -> Result<PacketRef<'_>, PacketFault>
    requires { 2 ≤ length bytes.now }
    ensures { Reads owned (packet_of 5 bytes.now) (error_fault bytes.now) result }
{
    if bytes.len() > MAX_REQUEST {
        return Err(fault_at(PacketFaultKind::TooLong, MAX_REQUEST));
    }
    let code = read_number(bytes)?;
    let (_, body) = bytes.split_at(4);
    let (text, rest) = read_text(body, 4)?;
    if !rest.is_empty() {
        let at = bytes.len() - rest.len();
        return Err(fault_at(PacketFaultKind::Trailing, at));
    }
    Ok(PacketRef::Error { code, text })
}

fn read_oack(bytes: &[u8]) -> Result<PacketRef<'_>, PacketFault>
    requires { 2 ≤ length bytes.now }
    ensures { Reads owned (packet_of 6 bytes.now) (oack_fault bytes.now) result }
{
    if bytes.len() > MAX_REQUEST {
        return Err(fault_at(PacketFaultKind::TooLong, MAX_REQUEST));
    }
    if bytes.len() == 2 {
        return Err(fault_at(PacketFaultKind::EmptyOack, 2));
    }
    let (_, body) = bytes.split_at(2);
    Ok(PacketRef::Oack(read_options(body, 2)?))
}

/// The number after the opcode.
fn read_number(bytes: &[u8]) -> Result<u16, PacketFault>
    requires { 2 ≤ length bytes.now }
    ensures { Reads (λ n. n) (big_number 2 (drop 2 bytes.now)) (number_fault bytes.now) result }
{
    if bytes.len() < 4 {
        return Err(fault_at(PacketFaultKind::Short, 2));
    }
    Ok(BigEndian::read_u16(&bytes[2..]))
}

/// The mode of a word, in any case.
fn mode_of(word: &[u8]) -> Option<Mode>
    ensures { result ≡ mode_in word.now }
{
    if word.eq_ignore_ascii_case(b"octet") {
        Some(Mode::Octet)
    } else if word.eq_ignore_ascii_case(b"netascii") {
        Some(Mode::Netascii)
    } else {
        None
    }
}

/// The text that begins at offset `at` in the datagram, and the bytes after its zero byte.
fn read_text(bytes: &[u8], at: usize) -> Result<(&[u8], &[u8]), PacketFault>
    ensures { SplitsText at bytes.now result }
{
    match split_text(bytes) {
        Some(parts) => Ok(parts),
        None => Err(fault_at(PacketFaultKind::Unterminated, at)),
    }
}

/// The options that begin at offset `at` in the datagram and extend to its end.
fn read_options(bytes: &[u8], at: usize) -> Result<OptionsRef<'_>, PacketFault>
    requires { at + length bytes.now < 2 ^ 64 }
    ensures { Reads (λ options. options) (options_in bytes.now) (bytes_fault at bytes.now) result }
{
    let mut rest = bytes;
    while !rest.is_empty() {
        rest = skip_option(rest, at + (bytes.len() - rest.len()))?;
    }
    Ok(OptionsRef::new(bytes))
}

/// The bytes after the option that begins at offset `at` in the datagram.
fn skip_option(bytes: &[u8], at: usize) -> Result<&[u8], PacketFault>
    requires some { 0 < length bytes.now }
    requires offset { at + length bytes.now < 2 ^ 64 }
    ensures { GoesOn at bytes.now result }
{
    let (name, after) = read_text(bytes, at)?;
    if name.is_empty() {
        return Err(fault_at(PacketFaultKind::EmptyOption, at));
    }
    let start = at + (bytes.len() - after.len());
    if after.is_empty() {
        return Err(fault_at(PacketFaultKind::NoValue, start));
    }
    let (_, rest) = read_text(after, start)?;
    Ok(rest)
}

fn fault_at(kind: PacketFaultKind, at: usize) -> PacketFault
    ensures { result ≡ record { kind = kind; at = at } }
{
    PacketFault { kind, at }
}
