//! Packets that are appended from borrowed parts. The bytes are written by hand from the layouts of
//! the packets (RFC 1350, section 5; RFC 2347, "Packet Formats").

use crate::expect::{expect, expect_bytes, expect_equal, expect_text};
use tftp_wire::{
    MAX_REQUEST, Mode, append_ack, append_data, append_data_header, append_error,
    append_oack_header, append_option, append_read, append_write, decode_ref, has_error_opcode,
    is_text, show_ref,
};

/// What is appended to a buffer that is not empty: ACK 258; DATA 1 and the header of DATA 2; ERROR
/// 1; RRQ and WRQ; an OACK of two options.
const APPENDED: &[u8] = b"old \
\x00\x04\x01\x02\
\x00\x03\x00\x01ABC\x00\x03\x00\x02\
\x00\x05\x00\x01no\x00\
\x00\x01a\x00octet\x00\x00\x02b\x00netascii\x00\
\x00\x06blksize\x008\x00tsize\x00\x00";

#[test]
fn packets_are_appended(rt: HostRuntime) {
    let rt = &rt;
    let mut out = Vec::from_slice(rt.alloc(), b"old ").expect(rt, "memory");
    append_ack(&mut out, 258).expect(rt, "memory");
    append_data(&mut out, 1, b"ABC").expect(rt, "memory");
    append_data_header(&mut out, 2).expect(rt, "memory");
    append_error(&mut out, 1, b"no").expect(rt, "memory");
    append_read(&mut out, b"a", Mode::Octet).expect(rt, "memory");
    append_write(&mut out, b"b", Mode::Netascii).expect(rt, "memory");
    append_oack_header(&mut out).expect(rt, "memory");
    append_option(&mut out, b"blksize", b"8").expect(rt, "memory");
    append_option(&mut out, b"tsize", b"").expect(rt, "memory");
    expect_bytes(rt, out.as_slice(), APPENDED, "the packets in turn");
}

#[test]
fn a_borrowed_packet_is_shown(rt: HostRuntime) {
    let rt = &rt;
    let packet = decode_ref(b"\x00\x06blksize\x008\x00tsize\x00\x00");
    let mut line = String::new(rt.alloc());
    show_ref(&packet.expect(rt, "a packet"), &mut line).expect(rt, "memory");
    expect_text(rt, line.as_str(), "OACK blksize=8 tsize=", "its line");
}

/// Datagrams, and whether each begins as an ERROR.
static OPCODES: [(&[u8], bool); 5] = [
    (b"\x00\x05", true),
    (b"\x00\x05\x00\x01no\x00", true),
    (b"\x00\x04\x00\x05", false),
    (b"\x05\x00", false),
    (b"", false),
];

/// Names and values, and whether each is a text, which holds no zero byte.
static TEXTS: [(&[u8], bool); 3] = [(b"boot.img", true), (b"", true), (b"a\x00b", false)];

#[test]
fn errors_and_texts(rt: HostRuntime) {
    for &(bytes, expected) in &OPCODES {
        let found = (bytes, has_error_opcode(bytes));
        expect_equal(&rt, &found, &(bytes, expected), "the opcode");
    }
    for &(bytes, expected) in &TEXTS {
        expect_equal(&rt, &(bytes, is_text(bytes)), &(bytes, expected), "a text");
    }
    // (RFC 2347, "Packet Formats")
    expect(&rt, MAX_REQUEST == 512, "the longest request");
}
