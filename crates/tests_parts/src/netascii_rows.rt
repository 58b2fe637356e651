//! Netascii: host bytes and their wire text, pieces of it, and lengths on the wire (RFC 764).

use crate::expect::{expect_bytes, expect_equal};
use std::alloc::Global;
use std::io::{Error, ErrorKind, Read, Result as IoResult};
use std::process::Abort;
use tftp_file::{
    FileFault, MAX_WIRE, NetDecoder, NetEncoder, NetFault, wire_length, wire_length_within,
};
use tftp_wire::Mode;

/// Host bytes and their wire text, by hand: a line feed is encoded as CR LF, a CR as CR NUL.
static TEXTS: [(&[u8], &[u8]); 7] = [
    (b"", b""),
    (b"A", b"A"),
    (b"\n", b"\r\n"),
    (b"\r", b"\r\0"),
    (b"\r\nA", b"\r\0\r\nA"),
    (b"a\0b\nc\rd", b"a\0b\r\nc\r\0d"),
    (LONG_LINE, LONG_WIRE),
];

/// 511 letters, of which 73 are on a line here, and a line feed.
pub(crate) const LONG_LINE: &[u8] = b"\
AAAAAAAAAAAAAAAAAAAAAAAAAAAAAAAAAAAAAAAAAAAAAAAAAAAAAAAAAAAAAAAAAAAAAAAAA\
AAAAAAAAAAAAAAAAAAAAAAAAAAAAAAAAAAAAAAAAAAAAAAAAAAAAAAAAAAAAAAAAAAAAAAAAA\
AAAAAAAAAAAAAAAAAAAAAAAAAAAAAAAAAAAAAAAAAAAAAAAAAAAAAAAAAAAAAAAAAAAAAAAAA\
AAAAAAAAAAAAAAAAAAAAAAAAAAAAAAAAAAAAAAAAAAAAAAAAAAAAAAAAAAAAAAAAAAAAAAAAA\
AAAAAAAAAAAAAAAAAAAAAAAAAAAAAAAAAAAAAAAAAAAAAAAAAAAAAAAAAAAAAAAAAAAAAAAAA\
AAAAAAAAAAAAAAAAAAAAAAAAAAAAAAAAAAAAAAAAAAAAAAAAAAAAAAAAAAAAAAAAAAAAAAAAA\
AAAAAAAAAAAAAAAAAAAAAAAAAAAAAAAAAAAAAAAAAAAAAAAAAAAAAAAAAAAAAAAAAAAAAAAAA\
\n";

/// The wire text of it, of 513 bytes: the letters, CR and LF.
const LONG_WIRE: &[u8] = b"\
AAAAAAAAAAAAAAAAAAAAAAAAAAAAAAAAAAAAAAAAAAAAAAAAAAAAAAAAAAAAAAAAAAAAAAAAA\
AAAAAAAAAAAAAAAAAAAAAAAAAAAAAAAAAAAAAAAAAAAAAAAAAAAAAAAAAAAAAAAAAAAAAAAAA\
AAAAAAAAAAAAAAAAAAAAAAAAAAAAAAAAAAAAAAAAAAAAAAAAAAAAAAAAAAAAAAAAAAAAAAAAA\
AAAAAAAAAAAAAAAAAAAAAAAAAAAAAAAAAAAAAAAAAAAAAAAAAAAAAAAAAAAAAAAAAAAAAAAAA\
AAAAAAAAAAAAAAAAAAAAAAAAAAAAAAAAAAAAAAAAAAAAAAAAAAAAAAAAAAAAAAAAAAAAAAAAA\
AAAAAAAAAAAAAAAAAAAAAAAAAAAAAAAAAAAAAAAAAAAAAAAAAAAAAAAAAAAAAAAAAAAAAAAAA\
AAAAAAAAAAAAAAAAAAAAAAAAAAAAAAAAAAAAAAAAAAAAAAAAAAAAAAAAAAAAAAAAAAAAAAAAA\
\r\n";

fn is_sent_as(rt: &impl Abort, alloc: Global, host: &[u8], wire: &[u8]) {
    let mut sent = Vec::new(alloc);
    let mut encoder = NetEncoder::new();
    encoder.push(host, &mut sent).expect(rt, "memory");
    encoder.finish().expect(rt, "the end of the text");
    expect_bytes(rt, sent.as_slice(), wire, "encoded");
}

/// A decoder stores these host bytes for a wire text in two pieces.
fn is_stored_as(rt: &impl Abort, alloc: Global, (front, rest): (&[u8], &[u8]), host: &[u8]) {
    let mut stored = Vec::new(alloc);
    let mut decoder = NetDecoder::new();
    decoder.push(front, &mut stored).expect(rt, "wire text");
    decoder.push(rest, &mut stored).expect(rt, "wire text");
    let found = (front, stored.as_slice(), decoder.finish());
    expect_equal(rt, &found, &(front, host, Ok(())), "decoded, to its end");
}

/// The text is encoded so, and decoded at every cut of its wire text. Its length on the wire is
/// that of the wire text in netascii, and its own in octet.
fn goes_both_ways(rt: &impl Abort, alloc: Global, host: &[u8], wire: &[u8]) {
    is_sent_as(rt, alloc, host, wire);
    for at in 0..wire.len() + 1 {
        is_stored_as(rt, alloc, wire.split_at(at), host);
    }
    let lengths = (
        wire_length(host, Mode::Octet),
        wire_length(host, Mode::Netascii),
    );
    let expected = (Ok(host.len() as u64), Ok(wire.len() as u64));
    expect_equal(
        rt,
        &(host, lengths),
        &(host, expected),
        "octet and netascii",
    );
}

#[test]
fn every_cut(rt: HostRuntime) {
    for &(host, wire) in &TEXTS {
        goes_both_ways(&rt, rt.alloc(), host, wire);
    }
}

/// Pieces of a wire text in turn, the bytes stored after each, and how many bytes are held back.
static PIECES: [(&[u8], &[u8], usize); 3] = [
    (b"\r", b"", 1),
    (b"\0\r", b"\r", 1),
    (b"\nA", b"\r\nA", 0),
];

#[test]
fn pieces_are_stored_and_held(rt: HostRuntime) {
    let rt = &rt;
    let mut decoder = NetDecoder::new();
    let mut out = Vec::new(rt.alloc());
    for &(piece, stored, held) in &PIECES {
        decoder.push(piece, &mut out).expect(rt, "wire text");
        let found = (piece, out.as_slice(), decoder.held());
        expect_equal(rt, &found, &(piece, stored, held), "stored and held");
    }
    expect_equal(rt, &decoder.finish(), &Ok(()), "the end");
}

/// A piece of wire text, a next one that is not valid, and the fault.
static WRONG: [(&[u8], &[u8], NetFault); 5] = [
    (b"A", b"\n", NetFault::LoneLf),
    (b"A", b"ab\ncd", NetFault::LoneLf),
    (b"A\r", b"A\n", NetFault::LoneCr),
    (b"A\r", b"\r\n", NetFault::LoneCr),
    (b"A", b"\r\0\rA\n", NetFault::LoneCr),
];

/// The decoder, which has stored `A`, refuses the text with this fault, and is unchanged.
fn is_refused(rt: &impl Abort, alloc: Global, front: &[u8], wrong: &[u8], fault: NetFault) {
    let mut decoder = NetDecoder::new();
    let mut out = Vec::new(alloc);
    decoder.push(front, &mut out).expect(rt, "wire text");
    let held = decoder.held();
    let answer = decoder.push(wrong, &mut out);
    let found = (wrong, answer, out.as_slice(), decoder.held());
    let expected = (wrong, Err(fault), b"A".as_slice(), held);
    expect_equal(
        rt,
        &found,
        &expected,
        "the fault, and what is stored and held",
    );
}

#[test]
fn wrong_texts_change_nothing(rt: HostRuntime) {
    for &(front, wrong, fault) in &WRONG {
        is_refused(&rt, rt.alloc(), front, wrong, fault);
    }
}

#[test]
fn a_text_ends_in_no_cr(rt: HostRuntime) {
    let rt = &rt;
    let mut decoder = NetDecoder::new();
    let stored = decoder.push(b"A\r", &mut Vec::new(rt.alloc()));
    let fault = NetFault::EndsInCr;
    let found = (stored, decoder.finish(), fault.number());
    expect_equal(rt, &found, &(Ok(()), Err(fault), 3), "CR at the end");
}

/// A text, its mode, the limit, and the length.
static WITHIN: [(&[u8], Mode, u64, u64); 4] = [
    (b"\r\nA", Mode::Octet, 9, 3),
    (b"\r\nA", Mode::Octet, 2, 2),
    (b"\r\nA", Mode::Netascii, 9, 5),
    (b"\r\nA", Mode::Netascii, 4, 4),
];

#[test]
fn lengths_within_a_limit(rt: HostRuntime) {
    for &(bytes, mode, most, expected) in &WITHIN {
        let found = (mode, most, wire_length_within(bytes, mode, most));
        expect_equal(&rt, &found, &(mode, most, expected), "a length");
    }
    let length = wire_length([b'\n'; 256].as_slice(), Mode::Netascii);
    expect_equal(&rt, &length, &Ok(512), "the length of 256 line feeds");
}

/// A reader that fills the buffer in each of `reads` reads, and then fails.
#[derive(Drop)]
struct Failing {
    reads: u64,
}

impl Read for Failing {
    fn read(&mut self, buf: &mut [u8]) -> IoResult<usize> {
        if self.reads == 0 {
            return Err(Error::from(ErrorKind::Other));
        }
        self.reads -= 1;
        Ok(buf.len())
    }
}

/// How many reads of 8,192 bytes succeed, and the length. 523,705 reads exceed the longest wire
/// text, and 523,704 do not.
static READS: [(u64, Mode, Result<u64, FileFault>); 3] = [
    (3, Mode::Netascii, Err(FileFault::Read)),
    (523_704, Mode::Octet, Err(FileFault::Read)),
    (523_705, Mode::Octet, Ok(MAX_WIRE + 1)),
];

#[test]
fn a_reader_fails(rt: HostRuntime) {
    for &(reads, mode, expected) in &READS {
        let length = wire_length(Failing { reads }, mode);
        expect_equal(&rt, &(reads, length), &(reads, expected), mode.word());
    }
}
