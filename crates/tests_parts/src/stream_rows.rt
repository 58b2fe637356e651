//! A source over a reader and a sink over a writer, some of which fail.

use crate::calls::SinkCall::{Append, Commit};
use crate::calls::{Fill, SinkCall, calls, fills};
use crate::expect::{expect, expect_bytes, expect_equal};
use std::alloc::Global;
use std::io;
use std::io::{Read, Write};
use std::process::Abort;
use tftp_file::{FileFault, ReadSource, StoreFault, WriteSink};
use tftp_wire::Mode;

/// A reader that gives at most `at_a_time` bytes of a text at a time, and then ends or fails.
#[derive(Drop)]
struct Script {
    text: &'static [u8],
    at_a_time: usize,
    then_fails: bool,
    reads: u32,
}

impl Read for Script {
    fn read(&mut self, buf: &mut [u8]) -> io::Result<usize> {
        self.reads = self.reads.saturating_add(1);
        let text = self.text;
        if text.is_empty() && self.then_fails {
            return Err(io::Error::from(io::ErrorKind::Other));
        }
        let count = self.at_a_time.min(text.len()).min(buf.len());
        buf[..count].copy_from_slice(&text[..count]);
        self.text = &text[count..];
        Ok(count)
    }
}

/// A writer with capacity for `room` bytes, which then writes nothing or fails, and whose first
/// flush may fail.
#[derive(Drop)]
struct Tape {
    written: Vec<u8>,
    room: usize,
    then_fails: bool,
    flush_fails: bool,
}

impl Write for Tape {
    fn write(&mut self, buf: &[u8]) -> io::Result<usize> {
        let count = self.room.min(buf.len());
        if count == 0 && self.then_fails {
            return Err(io::Error::from(io::ErrorKind::Other));
        }
        self.written.extend_from_slice(&buf[..count])?;
        self.room -= count;
        Ok(count)
    }

    fn flush(&mut self) -> io::Result<()> {
        if self.flush_fails {
            self.flush_fails = false;
            return Err(io::Error::from(io::ErrorKind::Other));
        }
        Ok(())
    }
}

/// Fills of three bytes of two line ends, which are four bytes of wire text (RFC 764), and how many
/// bytes the source then holds back: at most the second byte of a pair.
static LINE_ENDS: [(&[Fill], usize); 4] = [
    (&[], 0),
    (&[(3, Ok(b"\r\n\r"))], 1),
    (&[(3, Ok(b"\n"))], 0),
    (&[(3, Ok(b""))], 0),
];

#[test]
fn stream_rows(rt: HostRuntime) {
    let mut source = ReadSource::new(b"\n\n".as_slice(), Mode::Netascii);
    for &(pieces, held) in &LINE_ENDS {
        fills(&rt, rt.alloc(), &mut source, pieces, "two line ends");
        expect_equal(&rt, &source.held(), &held, "held back");
    }
    expect(&rt, source.get_ref().is_empty(), "the reader is at its end");
}

/// A text that is read, how many bytes at a time and whether the reader then fails, the mode,
/// fills, how many reads they take where that is known, and fills after them.
type Reading = (
    &'static [u8],
    usize,
    bool,
    Mode,
    &'static [Fill],
    Option<u32>,
    &'static [Fill],
);

/// `A`, LF, `B`, CR, `C`.
const TEXT: &[u8] = b"A\nB\rC";

/// Its fills of four bytes in netascii.
const NETASCII: &[Fill] = &[(4, Ok(b"A\r\nB")), (4, Ok(b"\r\0C")), (4, Ok(b""))];

/// Its fills of four bytes in octet.
const OCTET: &[Fill] = &[(4, Ok(b"A\nB\r")), (4, Ok(b"C")), (4, Ok(b""))];

/// A fill that fails, and leaves the buffer unchanged.
const READ_FAILS: &[Fill] = &[(3, Err(FileFault::Read))];

/// Fills of more bytes than can be allocated.
const GREATEST: &[Fill] = &[(usize::MAX, Err(FileFault::Memory))];

const GREAT: &[Fill] = &[(usize::MAX / 2, Err(FileFault::Memory))];

const AB: &[Fill] = &[(3, Ok(b"AB"))];

static READINGS: [Reading; 13] = [
    // short reads make no short block
    (TEXT, 1, false, Mode::Netascii, NETASCII, None, &[]),
    (TEXT, 2, false, Mode::Netascii, NETASCII, None, &[]),
    (TEXT, 5, false, Mode::Netascii, NETASCII, None, &[]),
    (TEXT, 1, false, Mode::Octet, OCTET, None, &[]),
    (TEXT, 2, false, Mode::Octet, OCTET, None, &[]),
    (TEXT, 5, false, Mode::Octet, OCTET, None, &[]),
    // a block in octet is one read
    (
        b"ABCDEFGH",
        8,
        false,
        Mode::Octet,
        &[(4, Ok(b"ABCD")), (4, Ok(b"EFGH"))],
        Some(2),
        &[],
    ),
    (b"AB", 1, true, Mode::Octet, READ_FAILS, None, &[]),
    (b"AB", 1, true, Mode::Netascii, READ_FAILS, None, &[]),
    // such a fill fails before anything is read, and the next one gives the text
    (b"AB", 2, false, Mode::Octet, GREATEST, Some(0), AB),
    (b"AB", 2, false, Mode::Octet, GREAT, Some(0), AB),
    (b"AB", 2, false, Mode::Netascii, GREATEST, Some(0), AB),
    (b"AB", 2, false, Mode::Netascii, GREAT, Some(0), AB),
];

fn is_read(rt: &impl Abort, alloc: Global, reading: Reading) {
    let (text, at_a_time, then_fails, mode, first, reads, next) = reading;
    let script = Script {
        text,
        at_a_time,
        then_fails,
        reads: 0,
    };
    let mut source = ReadSource::new(script, mode);
    fills(rt, alloc, &mut source, first, mode.word());
    let counted = source.get_ref().reads;
    expect_equal(rt, &counted, &reads.unwrap_or(counted), "reads");
    fills(rt, alloc, &mut source, next, mode.word());
    expect(rt, source.into_inner().reads >= counted, "reads to the end");
}

#[test]
fn texts_are_read(rt: HostRuntime) {
    for &reading in &READINGS {
        is_read(&rt, rt.alloc(), reading);
    }
}

/// A call, its result, and whether the sink has then committed.
type Call = (SinkCall, Result<(), StoreFault>, bool);

/// A writer's room, whether it then fails, and whether its first flush does; the calls of a sink
/// over it, and what is written at the end.
type Writing = (usize, bool, bool, &'static [Call], &'static [u8]);

static WRITINGS: [Writing; 4] = [
    // a writer with capacity for two bytes writes two of three
    (
        2,
        true,
        false,
        &[(Append(b"ABC"), Err(StoreFault::Io), false)],
        b"AB",
    ),
    (
        2,
        false,
        false,
        &[(Append(b"ABC"), Err(StoreFault::Io), false)],
        b"AB",
    ),
    // a flush that fails commits nothing, and loses nothing
    (
        9,
        true,
        true,
        &[(Commit, Err(StoreFault::Io), false), (Commit, Ok(()), true)],
        b"",
    ),
    (
        9,
        true,
        true,
        &[
            (Append(b"ABC"), Ok(()), false),
            (Commit, Err(StoreFault::Io), false),
        ],
        b"ABC",
    ),
];

fn is_written(rt: &impl Abort, alloc: Global, writing: Writing) {
    let (room, then_fails, flush_fails, rows, written) = writing;
    let mut sink = WriteSink::new(Tape {
        written: Vec::new(alloc),
        room,
        then_fails,
        flush_fails,
    });
    for &(call, result, is_committed) in rows {
        let found = (calls(&mut sink, call), sink.is_committed());
        expect_equal(rt, &found, &(result, is_committed), "a call of a sink");
    }
    expect_bytes(rt, sink.get_ref().written.as_slice(), written, "written");
    let tape = sink.into_inner();
    expect_bytes(rt, tape.written.as_slice(), written, "in the writer");
}

#[test]
fn calls_are_written(rt: HostRuntime) {
    for &writing in &WRITINGS {
        is_written(&rt, rt.alloc(), writing);
    }
}
