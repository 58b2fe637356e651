//! A packet as one human-readable line of text.
//!
//! The capacity that a line needs at most is reserved first. After that no call can fail.

ghost use Rattle.std.specs.Prelude.{◌≡◌, ◌≤◌, ◌+◌, ◌-◌, ◌*◌, ◌^◌, ◌++◌, ◌∷◌, [], ◌<◌, length, min};
ghost use Rattle.std.specs.Prelude.{OnOk, IfErr};
ghost use Rattle.std.specs.Fmt.{decimal};
ghost use Rattle.std.specs.List.{flat_map};
ghost use Rattle.std.specs.String.{string_bytes};
ghost use Rattle.tftp_wire.specs.Borrowed.{owned, owned_option};
ghost use Rattle.tftp_wire.specs.Faults.{out_of_memory};
ghost use Rattle.tftp_wire.specs.Line.{line, option_words, shown, shown_byte, shown_message_byte};
ghost use Rattle.tftp_wire.specs.Line.{percent, hex_digit as hex};
ghost use Rattle.tftp_wire.specs.Modes.{mode_word};
ghost use Rattle.tftp_wire.specs.Room.{HasRoom, Puts};
ghost use Rattle.tftp_wire.specs.declared.packet.Packet.TheVariants.{Data, Error};

use crate::fault::PacketFault;
use crate::mode::Mode;
use crate::options::{OptionRef, OptionsRef, RawOption};
use crate::packet::{Packet, PacketRef};
use crate::writer::{options_len, request_len, request_len_ref};
use itoa::Buffer;

/// The bytes that a line has at most, beyond three for each byte of the packet.
const WORDS: usize = 40;

/// Appends the packet as one line, without a line end.
///
/// `%`, `=` and each byte that is not visible ASCII are written as `%` and two hexadecimal digits,
/// except spaces and `=` in the text of an ERROR. It fails only when out of memory, and the content
/// of `out` is then unchanged.
pub fn show(packet: &Packet, out: &mut String) -> Result<(), PacketFault>
    ensures ok { OnOk result (string_bytes out.new ≡ string_bytes out.old ++ line packet.now) }
    ensures err { IfErr result (λ e.
        (e ≡ out_of_memory) × (string_bytes out.new ≡ string_bytes out.old)) }
{
    out.reserve(line_room(packet))?;
    put_packet(out, packet);
    Ok(())
}

/// As [`show`], for a packet that borrows its bytes.
pub fn show_ref(packet: &PacketRef<'_>, out: &mut String) -> Result<(), PacketFault>
    ensures ok { OnOk result
        (string_bytes out.new ≡ string_bytes out.old ++ line (owned packet.now)) }
    ensures err { IfErr result (λ e.
        (e ≡ out_of_memory) × (string_bytes out.new ≡ string_bytes out.old)) }
{
    out.reserve(line_room_ref(packet))?;
    put_packet_ref(out, packet);
    Ok(())
}

/// A capacity that is enough for the line of a packet, or the greatest `usize`.
fn line_room(packet: &Packet) -> usize
    ensures { min (length (line packet.now)) (2 ^ 64 - 1) ≤ result }
{
    match packet {
        Packet::Read(request) => shown_room(request_len(request)),
        Packet::Write(request) => shown_room(request_len(request)),
        Packet::Data { block, bytes } => {
            let (_block, _len) = (*block, bytes.as_slice().len());
            WORDS
        }
        Packet::Ack { block } => {
            let _block = *block;
            WORDS
        }
        Packet::Error { code, text } => {
            let _code = *code;
            shown_room(text.as_slice().len())
        }
        Packet::Oack(options) => shown_room(options_len(options.as_slice())),
    }
}

/// As [`line_room`], for a packet that borrows its bytes.
fn line_room_ref(packet: &PacketRef<'_>) -> usize
    ensures { min (length (line (owned packet.now))) (2 ^ 64 - 1) ≤ result }
{
    match packet {
        PacketRef::Read(request) => shown_room(request_len_ref(request)),
        PacketRef::Write(request) => shown_room(request_len_ref(request)),
        PacketRef::Data { block, bytes } => {
            let (_block, _len) = (*block, bytes.len());
            WORDS
        }
        PacketRef::Ack { block } => {
            let _block = *block;
            WORDS
        }
        PacketRef::Error { code, text } => {
            let _code = *code;
            shown_room(text.len())
        }
        PacketRef::Oack(options) => shown_room(options.bytes_len()),
    }
}

/// The capacity for a line that shows `len` bytes.
fn shown_room(len: usize) -> usize
    ensures { result ≡ min (3 * len + WORDS) (2 ^ 64 - 1) }
{
    len.saturating_mul(3).saturating_add(WORDS)
}

fn put_packet(out: &mut String, packet: &Packet)
    requires { HasRoom (line packet.now) out.old }
    ensures { string_bytes out.new ≡ string_bytes out.old ++ line packet.now }
{
    match packet {
        Packet::Read(request) => {
            put_name_and_mode(out, "RRQ ", request.name.as_slice(), request.mode);
            put_options(out, request.options.as_slice());
        }
        Packet::Write(request) => {
            put_name_and_mode(out, "WRQ ", request.name.as_slice(), request.mode);
            put_options(out, request.options.as_slice());
        }
        Packet::Data { block, bytes } => put_data(out, *block, bytes.as_slice()),
        Packet::Ack { block } => {
            put_str(out, "ACK ");
            put_number(out, usize::from(*block));
        }
        Packet::Error { code, text } => put_error(out, *code, text.as_slice()),
        Packet::Oack(options) => {
            put_str(out, "OACK");
            put_options(out, options.as_slice());
        }
    }
}

fn put_packet_ref(out: &mut String, packet: &PacketRef<'_>)
    requires { HasRoom (line (owned packet.now)) out.old }
    ensures { string_bytes out.new ≡ string_bytes out.old ++ line (owned packet.now) }
{
    match packet {
        PacketRef::Read(request) => {
            put_name_and_mode(out, "RRQ ", request.name, request.mode);
            put_options_ref(out, &request.options);
        }
        PacketRef::Write(request) => {
            put_name_and_mode(out, "WRQ ", request.name, request.mode);
            put_options_ref(out, &request.options);
        }
        PacketRef::Data { block, bytes } => put_data(out, *block, bytes),
        PacketRef::Ack { block } => {
            put_str(out, "ACK ");
            put_number(out, usize::from(*block));
        }
        PacketRef::Error { code, text } => put_error(out, *code, text),
        PacketRef::Oack(options) => {
            put_str(out, "OACK");
            put_options_ref(out, options);
        }
    }
}

fn put_data(out: &mut String, block: u16, bytes: &[u8])
    requires { HasRoom (line (Data block bytes.now)) out.old }
    ensures { Puts (line (Data block bytes.now)) out.old out.new }
{
    put_str(out, "DATA ");
    put_number(out, usize::from(block));
    put_str(out, " ");
    put_number(out, bytes.len());
}

fn put_error(out: &mut String, code: u16, text: &[u8])
    requires { HasRoom (line (Error code text.now)) out.old }
    ensures { Puts (line (Error code text.now)) out.old out.new }
{
    put_str(out, "ERROR ");
    put_number(out, usize::from(code));
    put_str(out, " (");
    put_message(out, text);
    put_str(out, ")");
}

/// The words of a request before its options. The first of them, with its space, is given.
fn put_name_and_mode(out: &mut String, first: &str, name: &[u8], mode: Mode)
    requires { HasRoom (first.now ++ shown name.now ++ (32 ∷ mode_word mode)) out.old }
    ensures { Puts (first.now ++ shown name.now ++ (32 ∷ mode_word mode)) out.old out.new }
{
    put_str(out, first);
    put_shown(out, name);
    put_str(out, " ");
    put_str(out, mode.word());
}

fn put_options(out: &mut String, options: &[RawOption])
    requires { HasRoom (flat_map option_words options.now) out.old }
    ensures { Puts (flat_map option_words options.now) out.old out.new }
{
    for option in options {
        put_option(out, option.as_ref());
    }
}

fn put_options_ref(out: &mut String, options: &OptionsRef<'_>)
    requires { HasRoom (flat_map option_words options.now) out.old }
    ensures { Puts (flat_map option_words options.now) out.old out.new }
{
    for option in options {
        put_option(out, option);
    }
}

fn put_option(out: &mut String, option: OptionRef<'_>)
    requires { HasRoom (option_words (owned_option option)) out.old }
    ensures { Puts (option_words (owned_option option.entry)) out.old out.new }
{
    put_str(out, " ");
    put_shown(out, option.name);
    put_str(out, "=");
    put_shown(out, option.value);
}

/// A name or a value.
fn put_shown(out: &mut String, bytes: &[u8])
    requires { HasRoom (shown bytes.now) out.old }
    ensures { Puts (shown bytes.now) out.old out.new }
{
    for byte in bytes {
        put_shown_byte(out, *byte);
    }
}

fn put_shown_byte(out: &mut String, byte: u8)
    requires { HasRoom (shown_byte byte) out.old }
    ensures { Puts (shown_byte byte) out.old out.new }
{
    match byte {
        b'%' | b'=' => put_percent(out, byte),
        b'!'..=b'~' => put_char(out, char::from(byte)),
        _ => put_percent(out, byte),
    }
}

/// The text of an ERROR.
fn put_message(out: &mut String, text: &[u8])
    requires { HasRoom (flat_map shown_message_byte text.now) out.old }
    ensures { Puts (flat_map shown_message_byte text.now) out.old out.new }
{
    for byte in text {
        put_message_byte(out, *byte);
    }
}

fn put_message_byte(out: &mut String, byte: u8)
    requires { HasRoom (shown_message_byte byte) out.old }
    ensures { Puts (shown_message_byte byte) out.old out.new }
{
    match byte {
        b' ' | b'=' => put_char(out, char::from(byte)),
        _ => put_shown_byte(out, byte),
    }
}

fn put_percent(out: &mut String, byte: u8)
    requires { HasRoom (percent byte) out.old }
    ensures { Puts (percent byte) out.old out.new }
{
    put_char(out, '%');
    put_char(out, hex_digit(byte / 16));
    put_char(out, hex_digit(byte % 16));
}

/// A hexadecimal digit, in lower case.
fn hex_digit(digit: u8) -> char
    requires { digit < 16 }
    ensures { result ≡ hex digit }
{
    if digit < 10 {
        char::from(b'0' + digit)
    } else {
        char::from(b'a' + (digit - 10))
    }
}

pub(crate) fn put_number(out: &mut String, number: usize)
    requires { HasRoom (decimal number) out.old }
    ensures { Puts (decimal number) out.old out.new }
{
    put_str(out, Buffer::new().format(number));
}

fn put_char(out: &mut String, ch: char)
    requires ascii { ch < 128 }
    requires room { HasRoom (ch ∷ []) out.old }
    ensures { Puts (ch ∷ []) out.old out.new }
{
    out.push(ch).unwrap();
}

pub(crate) fn put_str(out: &mut String, text: &str)
    requires { HasRoom text.now out.old }
    ensures { Puts text.now out.old out.new }
{
    out.push_str(text).unwrap();
}
