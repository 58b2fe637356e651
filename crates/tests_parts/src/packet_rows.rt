//! Packets: their bytes, their lines and their faults, written by hand from the layouts of the
//! packets (RFC 1350, section 5; RFC 2347, "Packet Formats").

use crate::expect::{expect, expect_bytes, expect_equal, expect_text};
use std::alloc::Global;
use std::process::Abort;
use tftp_wire::{
    Bytes, Mode, OptionsRef, PacketFault, PacketFaultKind, PacketRef, RawOption, RawOptions,
    decode, decode_ref, encode, is_valid, show,
};

/// Datagrams that spell a packet, and the line of the packet.
static PACKETS: [(&[u8], &str); 12] = [
    (b"\x00\x02a %=\x00netASCII\x00", "WRQ a%20%25%3d netascii"),
    (b"\x00\x02a %=\x00neTASCII\x00", "WRQ a%20%25%3d netascii"),
    (
        b"\x00\x01boot.img\x00octet\x00BLKSIZE\x001428\x00timeout\x003\x00",
        "RRQ boot.img octet BLKSIZE=1428 timeout=3",
    ),
    (b"\x00\x01boot.img\x00OCTET\x00", "RRQ boot.img octet"),
    (
        b"\x00\x06blksize\x001428\x00timeout\x003\x00",
        "OACK blksize=1428 timeout=3",
    ),
    (b"\x00\x06a\x00\x00", "OACK a="),
    (b"\x00\x03\x00\x01ABC", "DATA 1 3"),
    (b"\x00\x03\x00\x01", "DATA 1 0"),
    (b"\x00\x04\xff\xff", "ACK 65535"),
    (b"\x00\x04\x00\x00", "ACK 0"),
    (b"\x00\x05\x00\x00a= %\n\x00", "ERROR 0 (a= %25%0a)"),
    (b"\x00\x05\x00\x00\x00", "ERROR 0 ()"),
];

/// Datagrams that spell no packet, with the first fault and its offset.
static FAULTS: [(&[u8], PacketFaultKind, usize); 19] = [
    (b"", PacketFaultKind::Short, 0),
    (b"\x00", PacketFaultKind::Short, 0),
    (b"\x00\x00", PacketFaultKind::Opcode, 0),
    (b"\x00\x07", PacketFaultKind::Opcode, 0),
    (b"\x00\x03\x00", PacketFaultKind::Short, 2),
    (b"\x00\x03\x00\x00", PacketFaultKind::BlockZero, 2),
    (b"\x00\x04\x00\x01\x00", PacketFaultKind::Trailing, 4),
    (b"\x00\x05\x00\x01no", PacketFaultKind::Unterminated, 4),
    (b"\x00\x05\x00\x01no\x00!", PacketFaultKind::Trailing, 7),
    (b"\x00\x01", PacketFaultKind::Unterminated, 2),
    (b"\x00\x01\x00", PacketFaultKind::EmptyName, 2),
    (
        b"\x00\x01boot.img\x00octet",
        PacketFaultKind::Unterminated,
        11,
    ),
    (b"\x00\x01a\x00mail\x00", PacketFaultKind::Mode, 4),
    (
        b"\x00\x01a\x00octet\x00\x00",
        PacketFaultKind::EmptyOption,
        10,
    ),
    (
        b"\x00\x01a\x00octet\x00\x00a",
        PacketFaultKind::EmptyOption,
        10,
    ),
    (
        b"\x00\x01a\x00octet\x00tsize\x00",
        PacketFaultKind::NoValue,
        16,
    ),
    (
        b"\x00\x01a\x00octet\x00tsize",
        PacketFaultKind::Unterminated,
        10,
    ),
    (
        b"\x00\x01a\x00octet\x00tsize\x000",
        PacketFaultKind::Unterminated,
        16,
    ),
    (b"\x00\x06", PacketFaultKind::EmptyOack, 2),
];

/// Lengths of read requests without a zero byte after the name, and the fault and its offset: a
/// request has at most 512 bytes (RFC 2347, "Packet Formats").
static LENGTHS: [(usize, PacketFaultKind, usize); 2] = [
    (512, PacketFaultKind::Unterminated, 2),
    (513, PacketFaultKind::TooLong, 512),
];

fn is_shown_as(rt: &impl Abort, alloc: Global, bytes: &[u8], expected: &str) {
    let packet = decode(alloc, bytes).expect(rt, "a packet");
    expect(rt, is_valid(&packet), expected);
    let mut line = String::new(alloc);
    show(&packet, &mut line).expect(rt, "memory");
    expect_text(rt, line.as_str(), expected, "the line of a packet");
    drop(packet);
}

/// A mode in capital letters is read, and written in small ones.
fn is_written_in_lower_case(rt: &impl Abort, alloc: Global) {
    let mut out = Vec::new(alloc);
    let packet = decode(alloc, b"\x00\x01boot.img\x00OCTET\x00").expect(rt, "a packet");
    expect(rt, is_valid(&packet), "what is read can be written");
    encode(&packet, &mut out).expect(rt, "memory");
    drop(packet);
    let lower = b"\x00\x01boot.img\x00octet\x00".as_slice();
    expect_bytes(rt, out.as_slice(), lower, "the mode in lower case");
}

/// The borrowed reader returns this fault.
fn has_fault(rt: &impl Abort, bytes: &[u8], kind: PacketFaultKind, at: usize) {
    let found = (bytes, decode_ref(bytes).err());
    let fault = Some(PacketFault { kind, at });
    expect_equal(rt, &found, &(bytes, fault), "the fault");
}

/// The owned and the borrowed reader return the same packet, or the same fault.
fn reads_alike(rt: &impl Abort, alloc: Global, bytes: &[u8]) {
    let owned = decode(alloc, bytes);
    let owned_text = format!(in alloc; "{owned:?}").expect(rt, "memory");
    drop(owned);
    let copy = match decode_ref(bytes) {
        Ok(packet) => Ok(packet.to_packet(alloc).expect(rt, "memory")),
        Err(fault) => Err(fault),
    };
    let copy_text = format!(in alloc; "{copy:?}").expect(rt, "memory");
    drop(copy);
    expect_text(rt, copy_text.as_str(), owned_text.as_str(), "the packet");
}

/// A request of letters, `len` bytes in total, has this fault.
fn is_endless(rt: &impl Abort, alloc: Global, len: usize, kind: PacketFaultKind, at: usize) {
    let mut request = Vec::from_slice(alloc, &[0, 1]).expect(rt, "memory");
    request.resize(len, b'a').expect(rt, "memory");
    has_fault(rt, &request, kind, at);
    reads_alike(rt, alloc, &request);
}

#[test]
fn packet_rows(rt: HostRuntime) {
    let rt = &rt;
    for &(bytes, expected) in &PACKETS {
        is_shown_as(rt, rt.alloc(), bytes, expected);
    }
    for &(bytes, kind, at) in &FAULTS {
        has_fault(rt, bytes, kind, at);
    }
    for &(len, kind, at) in &LENGTHS {
        is_endless(rt, rt.alloc(), len, kind, at);
    }
    is_written_in_lower_case(rt, rt.alloc());
}

fn prefixes_read_alike(rt: &impl Abort, alloc: Global, bytes: &[u8]) {
    for len in 0..bytes.len() + 1 {
        reads_alike(rt, alloc, &bytes[..len]);
    }
}

#[test]
fn ref_equals_owned(rt: HostRuntime) {
    for &(bytes, _) in &PACKETS {
        prefixes_read_alike(&rt, rt.alloc(), bytes);
    }
    for &(bytes, _, _) in &FAULTS {
        prefixes_read_alike(&rt, rt.alloc(), bytes);
    }
}

#[test]
fn numbers_and_words(rt: HostRuntime) {
    let rt = &rt;
    let (first, last) = (PacketFaultKind::Short, PacketFaultKind::Memory);
    let numbers = (first.number(), last.number());
    expect_equal(rt, &numbers, &(1, 12), "the first kind and the last");
    expect_text(rt, PacketFaultKind::NoValue.name(), "NoValue", "a name");
    expect_text(rt, Mode::Octet.word(), "octet", "of octet");
    expect_text(rt, Mode::Netascii.word(), "netascii", "of netascii");
}

/// The options of a read request or an OACK.
pub(crate) fn options_in<'a>(rt: &impl Abort, bytes: &'a [u8]) -> OptionsRef<'a> {
    match decode_ref(bytes).expect(rt, "a packet") {
        PacketRef::Read(request) => request.options,
        PacketRef::Oack(options) => options,
        _ => panic!(rt; "an RRQ or an OACK"),
    }
}

pub(crate) fn bytes_of(rt: &impl Abort, alloc: Global, bytes: &[u8]) -> Bytes {
    Bytes::from_slice(alloc, bytes).expect(rt, "memory")
}

/// A request with an option.
const REQUEST: &[u8] = b"\x00\x01a\x00octet\x00tsize\x000\x00";

/// Its copy: `a` in octet, with the option `tsize` of value `0`.
const REQUEST_TEXT: &str = "Request { name: Bytes { items: [97] }, mode: Octet, options: \
    RawOptions { items: [RawOption { name: Bytes { items: [116, 115, 105, 122, 101] }, \
    value: Bytes { items: [48] } }] } }";

#[test]
fn requests_are_copied(rt: HostRuntime) {
    let rt = &rt;
    let PacketRef::Read(request) = decode_ref(REQUEST).expect(rt, "a packet") else {
        panic!(rt; "an RRQ");
    };
    let copy = request.to_request(rt.alloc()).expect(rt, "memory");
    let text = format!(in rt.alloc(); "{copy:?}").expect(rt, "memory");
    drop(copy);
    expect_text(rt, text.as_str(), REQUEST_TEXT, "the request");
}

/// There is one option, which equals its copy.
#[test]
fn options_are_copied(rt: HostRuntime) {
    let rt = &rt;
    let options = options_in(rt, REQUEST);
    for option in &options {
        let copy = option.to_option(rt.alloc()).expect(rt, "memory");
        expect_equal(rt, &copy.as_ref(), &option, "an option and its copy");
        drop(copy);
    }
    let copies = options.to_options(rt.alloc()).expect(rt, "memory");
    let counts = (
        options.iter().count(),
        copies.as_slice().len(),
        copies.into_vec().len(),
    );
    expect_equal(rt, &counts, &(1, 1, 1), "the options and their copies");
}

/// Bytes made from a vector equal those made from its slice. An option of them is handed back.
#[test]
fn bytes_and_options_are_handed_back(rt: HostRuntime) {
    let (rt, alloc) = (&rt, rt.alloc());
    let name = Bytes::from(Vec::from_slice(alloc, b"a").expect(rt, "memory"));
    expect_equal(rt, &name, &bytes_of(rt, alloc, b"a"), "the name");
    let value = bytes_of(rt, alloc, b"8");
    let mut options = Vec::new(alloc);
    options.push(RawOption { name, value }).expect(rt, "memory");
    let options = RawOptions::from(options);
    let counts = (options.as_slice().len(), options.into_vec().len());
    expect_equal(rt, &counts, &(1, 1), "the options, and those handed back");
}
