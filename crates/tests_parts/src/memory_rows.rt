//! The source and the sink in memory, called through their traits.

use crate::calls::SinkCall::{Append, Commit};
use crate::calls::{Fill, SinkCall, calls, fills};
use crate::expect::{expect_bytes, expect_equal};
use std::alloc::Global;
use std::process::Abort;
use tftp_file::{FileBytes, FileFault, Files, MemSink, MemSource, StoreFault};
use tftp_wire::Mode;

/// A text, its mode, and the fills: a line feed is encoded as CR LF, and a CR as CR NUL (RFC 764).
/// A pair may be split between two fills.
static SOURCES: [(&[u8], Mode, &[Fill]); 2] = [
    (
        b"\r\nA",
        Mode::Netascii,
        &[(3, Ok(b"\r\0\r")), (3, Ok(b"\nA")), (3, Ok(b""))],
    ),
    (
        b"\r\nA",
        Mode::Octet,
        &[(2, Ok(b"\r\n")), (2, Ok(b"A")), (2, Ok(b""))],
    ),
];

#[test]
fn sources_in_memory(rt: HostRuntime) {
    for &(text, mode, pieces) in &SOURCES {
        let source = MemSource::new(rt.alloc(), text, mode);
        let mut source = source.expect(&rt, "memory");
        fills(&rt, rt.alloc(), &mut &mut source, pieces, mode.word());
        drop(source);
    }
}

/// A file that is shared after two appends, and then grows alone.
#[test]
fn a_file_is_shared_and_grows_on(rt: HostRuntime) {
    let (rt, alloc) = (&rt, rt.alloc());
    let mut file = FileBytes::new(alloc);
    file.append(b"A").expect(rt, "memory");
    file.append(b"\n").expect(rt, "memory");
    let shared = file.share().expect(rt, "memory");
    file.append(b"B").expect(rt, "memory");
    expect_bytes(rt, shared.as_slice(), b"A\n", "what was shared stays");
    expect_bytes(rt, file.as_slice(), b"A\nB", "the file goes on alone");
    let again = file.share().expect(rt, "memory");
    expect_bytes(rt, again.as_slice(), b"A\nB", "as it was shared again");
    let mut source = MemSource::of_shared(shared, Mode::Netascii);
    let piece = (512, Ok(b"A\r\n".as_slice()));
    fills(rt, alloc, &mut source, &[piece], "the shared bytes");
    drop(source);
}

/// Whether the sink is first set to refuse its next call, the call, its result, and the bytes that
/// the sink then holds and whether it has committed them.
type Call = (bool, SinkCall, Result<(), StoreFault>, &'static [u8], bool);

const FULL: Result<(), StoreFault> = Err(StoreFault::Full);

/// What a sink does, its room, whether it refuses each commit, and the calls.
type Calls = (&'static str, u64, bool, &'static [Call]);

static CALLS: [Calls; 5] = [
    (
        "a full sink keeps what has room",
        3,
        false,
        &[
            (false, Append(b"AB"), Ok(()), b"AB", false),
            (false, Append(b"CDE"), FULL, b"ABC", false),
            (false, Append(b""), Ok(()), b"ABC", false),
        ],
    ),
    (
        "a sink is committed by its commit",
        3,
        false,
        &[
            (false, Append(b"ABC"), Ok(()), b"ABC", false),
            (false, Commit, Ok(()), b"ABC", true),
        ],
    ),
    (
        "an append is refused once",
        9,
        false,
        &[
            (true, Append(b"A"), FULL, b"", false),
            (false, Append(b"B"), Ok(()), b"B", false),
        ],
    ),
    (
        "a commit is refused once",
        9,
        false,
        &[
            (false, Append(b"A"), Ok(()), b"A", false),
            (true, Commit, FULL, b"A", false),
            (false, Commit, Ok(()), b"A", true),
        ],
    ),
    (
        "each commit is refused",
        9,
        true,
        &[
            (false, Commit, FULL, b"", false),
            (false, Commit, FULL, b"", false),
        ],
    ),
];

/// The call has its result, and the sink is then not set to refuse a call.
fn is_called(
    rt: &impl Abort,
    mut sink: &mut MemSink,
    what: &str,
    (is_set, call, expected, bytes, is_committed): Call,
) {
    sink.refuse_next(is_set);
    let was_set = sink.refuses();
    let found = calls(&mut sink, call);
    let state = (sink.as_bytes(), sink.is_committed(), sink.refuses());
    let expected = (is_set, expected, (bytes, is_committed, false));
    expect_equal(rt, &(was_set, found, state), &expected, what);
}

#[test]
fn sinks_in_memory(rt: HostRuntime) {
    for &(what, room, refuses_commit, rows) in &CALLS {
        let mut sink = MemSink::new(rt.alloc(), room, refuses_commit);
        for &call in rows {
            is_called(&rt, &mut sink, what, call);
        }
    }
}

/// A source gives the one byte `A`, and a sink with capacity for one byte stores one.
fn moves_a_byte(rt: &impl Abort, alloc: Global, mut file: Files<MemSource, MemSink>) {
    match &mut file {
        Files::Source(source) => {
            fills(rt, alloc, source, &[(2, Ok(b"A".as_slice()))], "a source");
        }
        Files::Sink(sink) => {
            let stored = calls(sink, Append(b"B"));
            expect_equal(rt, &stored, &Ok(()), "a sink");
        }
    }
    drop(file);
}

#[test]
fn files_are_of_either_direction(rt: HostRuntime) {
    let (rt, alloc) = (&rt, rt.alloc());
    let source = MemSource::new(alloc, b"A", Mode::Octet).expect(rt, "memory");
    moves_a_byte(rt, alloc, Files::Source(source));
    moves_a_byte(rt, alloc, Files::Sink(MemSink::new(alloc, 1, false)));
}

static STORE_FAULTS: [(StoreFault, u8); 5] = [
    (StoreFault::Missing, 1),
    (StoreFault::Exists, 2),
    (StoreFault::Full, 3),
    (StoreFault::Io, 4),
    (StoreFault::Memory, 5),
];

#[test]
fn faults_of_files_are_numbered(rt: HostRuntime) {
    for &(fault, number) in &STORE_FAULTS {
        let found = (fault, fault.number());
        expect_equal(&rt, &found, &(fault, number), "its number");
    }
    let numbers = (FileFault::Read.number(), FileFault::Memory.number());
    expect_equal(&rt, &numbers, &(1, 2), "a read that fails, and no memory");
}
