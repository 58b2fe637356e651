//! Reads in a world: what comes, byte by byte (RFC 1350, sections 2 and 6). Which datagrams go where
//! is tried by the scripts of tests/tftp_play.

use crate::expect::{expect, expect_equal};
use crate::stores::{counted_bytes, path};
use std::alloc::Global;
use std::process::Abort;
use tftp_negotiate::Asked;
use tftp_player::{Event, World, WorldFault};
use tftp_server::Config;
use tftp_wire::{Bytes, Mode};

/// A read of the server's file `a` by the client at the port 1024.
#[derive(Clone, Copy)]
struct Read<'a> {
    /// What it shows.
    what: &'a str,
    /// The server's file.
    file: &'a [u8],
    /// The name in the request.
    name: &'a [u8],
    /// The block size that is requested (RFC 2348).
    blksize: Option<u16>,
    /// Why the client sends no request.
    fault: Option<WorldFault>,
    /// Whether the client's store refuses its next append or commit.
    is_armed: bool,
    /// Datagrams, each with its index of all that were sent.
    sent: &'a [(usize, &'a [u8])],
    /// What the client has stored in the end.
    stored: Option<&'a [u8]>,
    /// Whether the client has committed it.
    is_committed: bool,
}

/// A file of one block of 512 bytes, the block size without options.
const BLOCK: &[u8] = &[b'x'; 512];

static READS: [Read; 4] = [
    Read {
        what: "an empty file takes three datagrams: RRQ, DATA 1, ACK 1",
        file: b"",
        name: b"a",
        blksize: None,
        fault: None,
        is_armed: false,
        sent: &[
            (0, b"\x00\x01a\x00octet\x00"),
            (1, b"\x00\x03\x00\x01"),
            (2, b"\x00\x04\x00\x01"),
        ],
        stored: Some(b""),
        is_committed: true,
    },
    Read {
        what: "a name has a slash, and a full block is followed by an empty one",
        file: BLOCK,
        name: b"/a",
        blksize: None,
        fault: None,
        is_armed: false,
        sent: &[(3, b"\x00\x03\x00\x02")],
        stored: Some(BLOCK),
        is_committed: true,
    },
    Read {
        what: "the receiver's store refuses the block",
        file: b"ABC",
        name: b"a",
        blksize: None,
        fault: None,
        is_armed: true,
        sent: &[(2, b"\x00\x05\x00\x03disk full\x00")],
        stored: Some(b""),
        is_committed: false,
    },
    Read {
        what: "a name has a byte at least; a request that is not sent takes no port",
        file: b"ABC",
        name: b"",
        blksize: None,
        fault: Some(WorldFault::BadRequest),
        is_armed: false,
        sent: &[],
        stored: None,
        is_committed: false,
    },
];

/// A world in which the client has sent the request, unless it is refused.
fn world_of(rt: &impl Abort, alloc: Global, read: &Read<'_>) -> World {
    let bytes = Vec::from_slice(alloc, read.file).expect(rt, "memory");
    let files = vec![in alloc; (path(rt, alloc, b"a"), bytes)].expect(rt, "memory");
    let mut world = World::new(alloc, files, Config::default()).expect(rt, "memory");
    let report = world.apply(Event::Get {
        name: Bytes::from_slice(alloc, read.name).expect(rt, "memory"),
        mode: Mode::Octet,
        asked: Asked {
            blksize: read.blksize,
            timeout: None,
            tsize: None,
        },
    });
    expect_equal(rt, &report.err(), &read.fault, read.what);
    world
}

/// All that is sent is delivered.
fn settles(rt: &impl Abort, world: &mut World, is_armed: bool) {
    let armed = world.apply(Event::RefuseStore(if is_armed { 1024 } else { 0 }));
    expect(rt, armed.is_ok() == is_armed, "a store is set to refuse");
    world.settle(0, 1_000_000).expect(rt, "all that is sent");
}

/// The datagrams were sent. The client has stored the file and committed it, or not. The server,
/// which stored nothing, has it still.
fn has_come(rt: &impl Abort, alloc: Global, world: &World, read: &Read<'_>) {
    for &(index, bytes) in read.sent {
        let sent = world.sent().get(index).expect(rt, read.what);
        expect_equal(
            rt,
            &(index, sent.bytes.as_slice()),
            &(index, bytes),
            read.what,
        );
    }
    expect_equal(rt, &world.stored(1024), &read.stored, read.what);
    expect_equal(rt, &world.committed(1024), &read.is_committed, read.what);
    expect(rt, world.stored(1025).is_none(), "a sender stores nothing");
    let path = path(rt, alloc, b"a");
    expect_equal(rt, &world.file(&path), &Some(read.file), read.what);
    let ends = if read.fault.is_none() { 2 } else { 0 };
    expect_equal(rt, &world.records().len(), &ends, read.what);
}

/// What comes is as expected.
fn plays(rt: &impl Abort, alloc: Global, read: &Read<'_>) {
    let mut world = world_of(rt, alloc, read);
    settles(rt, &mut world, read.is_armed);
    has_come(rt, alloc, &world, read);
}

#[test]
fn what_is_read_comes_whole(rt: HostRuntime) {
    for read in &READS {
        plays(&rt, rt.alloc(), read);
    }
    let file = counted_bytes(&rt, rt.alloc(), 0, 524_279);
    let read = Read {
        what: "65,534 blocks of 8 bytes and a last one of 7 are as many as have numbers",
        file: &file,
        name: b"a",
        blksize: Some(8),
        fault: None,
        is_armed: false,
        sent: &[],
        stored: Some(&file),
        is_committed: true,
    };
    plays(&rt, rt.alloc(), &read);
}

static WORLD_FAULTS: [(WorldFault, u8); 5] = [
    (WorldFault::NoSuchDatagram, 1),
    (WorldFault::NoSuchEnd, 2),
    (WorldFault::NoPort, 3),
    (WorldFault::BadRequest, 4),
    (WorldFault::Memory, 5),
];

#[test]
fn world_faults_are_numbered(rt: HostRuntime) {
    for &(fault, number) in &WORLD_FAULTS {
        let found = (fault, fault.number());
        expect_equal(&rt, &found, &(fault, number), "its number");
    }
}
