//! Writes at a server (RFC 1350, sections 2, 4 and 6): the files in the store, and stores that fail in
//! a transfer. The answers are those of RFC 1350, section 5 and appendix I.

use crate::expect::expect_equal;
use crate::served::Event::{Datagram, Draft, File, Request, Take, Timeout};
use crate::served::Found::{Closed, Is, Nothing, Opened};
use crate::served::{Events, play, play_each, server_of};
use crate::stores::{ABC, Setup, TestStore};
use std::alloc::Global;
use std::process::Abort;
use tftp_ends::Outcome;
use tftp_file::StoreFault;
use tftp_server::Server;

const WRITE: &[u8] = b"\x00\x02n\x00octet\x00";

const ACK_0: &[u8] = b"\x00\x04\x00\x00";

const DATA_A: &[u8] = b"\x00\x03\x00\x01A";

const DATA_B: &[u8] = b"\x00\x03\x00\x01B";

const ACK_1: &[u8] = b"\x00\x04\x00\x01";

const FILE_EXISTS: &[u8] = b"\x00\x05\x00\x06file exists\x00";

const DISK_FULL: &[u8] = b"\x00\x05\x00\x03disk full\x00";

const VIOLATION: &[u8] = b"\x00\x05\x00\x02access violation\x00";

/// A server that replaces files.
const REPLACING: Setup = Setup {
    overwrite: true,
    ..ABC
};

/// A store that refuses its first call, `begin`.
const CANNOT_BEGIN: Setup = Setup {
    refused_call: 0,
    ..ABC
};

const CANNOT_BEGIN_FULL: Setup = Setup {
    refused_call: 0,
    fault: StoreFault::Full,
    ..ABC
};

/// A file of 600 letters, which may be replaced.
const LETTERS: Setup = Setup {
    file: &[b'a'; 600],
    overwrite: true,
    ..ABC
};

/// Its two blocks, of 512 and of 88 bytes.
const LETTERS_1: &[u8] = b"\x00\x03\x00\x01\
    aaaaaaaaaaaaaaaaaaaaaaaaaaaaaaaaaaaaaaaaaaaaaaaaaaaaaaaaaaaaaaaa\
    aaaaaaaaaaaaaaaaaaaaaaaaaaaaaaaaaaaaaaaaaaaaaaaaaaaaaaaaaaaaaaaa\
    aaaaaaaaaaaaaaaaaaaaaaaaaaaaaaaaaaaaaaaaaaaaaaaaaaaaaaaaaaaaaaaa\
    aaaaaaaaaaaaaaaaaaaaaaaaaaaaaaaaaaaaaaaaaaaaaaaaaaaaaaaaaaaaaaaa\
    aaaaaaaaaaaaaaaaaaaaaaaaaaaaaaaaaaaaaaaaaaaaaaaaaaaaaaaaaaaaaaaa\
    aaaaaaaaaaaaaaaaaaaaaaaaaaaaaaaaaaaaaaaaaaaaaaaaaaaaaaaaaaaaaaaa\
    aaaaaaaaaaaaaaaaaaaaaaaaaaaaaaaaaaaaaaaaaaaaaaaaaaaaaaaaaaaaaaaa\
    aaaaaaaaaaaaaaaaaaaaaaaaaaaaaaaaaaaaaaaaaaaaaaaaaaaaaaaaaaaaaaaa";

const LETTERS_2: &[u8] = b"\x00\x03\x00\x02\
    aaaaaaaaaaaaaaaaaaaaaaaaaaaaaaaaaaaaaaaaaaaa\
    aaaaaaaaaaaaaaaaaaaaaaaaaaaaaaaaaaaaaaaaaaaa";

/// Scenes of clients at the ports 2000 and 2001.
static SCENES: [(Setup, Events); 6] = [
    // The file exists once it is committed, and only then the last block is acknowledged. The
    // receiver dallies. Its second timeout closes the transfer (RFC 1350, section 6), which is
    // returned with its draft.
    (
        ABC,
        &[
            (Request(2000, 1025, WRITE), Opened(1025), ACK_0),
            (File(b"n"), Is(false), b""),
            (Datagram(2000, 1025, DATA_A), Nothing, ACK_1),
            (File(b"n"), Is(true), b"A"),
            (Draft(1025), Is(true), b"A"),
            (Timeout(1025), Nothing, b""),
            (Take(1025), Nothing, b""),
            (Timeout(1025), Closed(Outcome::Complete), b""),
            (Take(1025), Closed(Outcome::Complete), b"A"),
        ],
    ),
    // Two clients write a file of one name. The last commit counts where files may be replaced,
    (
        REPLACING,
        &[
            (Request(2000, 1025, WRITE), Opened(1025), ACK_0),
            (Request(2001, 1027, WRITE), Opened(1027), ACK_0),
            (Datagram(2000, 1025, DATA_A), Nothing, ACK_1),
            (Datagram(2001, 1027, DATA_B), Nothing, ACK_1),
            (File(b"n"), Is(true), b"B"),
        ],
    ),
    // and else the first.
    (
        ABC,
        &[
            (Request(2000, 1025, WRITE), Opened(1025), ACK_0),
            (Request(2001, 1027, WRITE), Opened(1027), ACK_0),
            (Datagram(2000, 1025, DATA_A), Nothing, ACK_1),
            (
                Datagram(2001, 1027, DATA_B),
                Closed(Outcome::StoreFault),
                FILE_EXISTS,
            ),
            (File(b"n"), Is(true), b"A"),
        ],
    ),
    // A draft that cannot be begun opens no transfer.
    (
        CANNOT_BEGIN_FULL,
        &[(Request(2000, 1025, WRITE), Nothing, DISK_FULL)],
    ),
    (
        CANNOT_BEGIN,
        &[(Request(2000, 1025, WRITE), Nothing, VIOLATION)],
    ),
    // A read of a file that a write replaces continues with the file that it opened.
    (
        LETTERS,
        &[
            (
                Request(2000, 1025, b"\x00\x01a\x00octet\x00"),
                Opened(1025),
                LETTERS_1,
            ),
            (
                Request(2001, 1026, b"\x00\x02a\x00octet\x00"),
                Opened(1026),
                ACK_0,
            ),
            (Datagram(2001, 1026, DATA_B), Nothing, ACK_1),
            (File(b"a"), Is(true), b"B"),
            (Datagram(2000, 1025, ACK_1), Nothing, LETTERS_2),
        ],
    ),
];

#[test]
fn scenes_of_writes(rt: HostRuntime) {
    play_each(&rt, rt.alloc(), &SCENES);
}

/// DATA of this number and length in bytes, whose block is of this byte.
fn data(rt: &impl Abort, alloc: Global, number: u8, byte: u8, length: usize) -> Vec<u8> {
    let mut bytes = Vec::from_slice(alloc, &[0, 3, 0, number]).expect(rt, "memory");
    bytes.resize(length, byte).expect(rt, "memory");
    bytes
}

static OPENING: Events = &[(Request(2000, 1025, WRITE), Opened(1025), ACK_0)];

/// In a write of five blocks the store refuses the call of this number: the first is `begin`, then
/// an append for each block, and the commit. Four blocks have 512 bytes and the last has three, and
/// this many are acknowledged before. Returns the server.
fn fails_there(
    rt: &impl Abort,
    alloc: Global,
    refused_call: u64,
    fault: StoreFault,
    blocks: u8,
) -> Server<TestStore> {
    let setup = Setup {
        refused_call,
        fault,
        ..ABC
    };
    let mut server = server_of(rt, alloc, &setup);
    play(rt, alloc, &mut server, OPENING);
    for number in 1..=5 {
        let bytes = data(rt, alloc, number, number, if number < 5 { 516 } else { 7 });
        let block = Datagram(2000, 1025, &bytes);
        if number <= blocks {
            play(
                rt,
                alloc,
                &mut server,
                &[(block, Nothing, &[0, 4, 0, number])],
            );
        } else {
            let closed = Closed(Outcome::StoreFault);
            play(rt, alloc, &mut server, &[(block, closed, DISK_FULL)]);
            return server;
        }
    }
    server
}

/// The call that is refused, and the blocks before it; the seventh is after them all.
static CALLS: [(u64, u8); 7] = [(1, 0), (2, 1), (3, 2), (4, 3), (5, 4), (6, 4), (7, 5)];

#[test]
fn fault_each(rt: HostRuntime) {
    for &(at, blocks) in &CALLS {
        for fault in [StoreFault::Io, StoreFault::Full] {
            drop(fails_there(&rt, rt.alloc(), at, fault, blocks));
        }
    }
}

/// There is no file yet, and the block is stored.
static KEPT: Events = &[
    (File(b"n"), Is(false), b""),
    (Draft(1025), Is(false), &[1; 512]),
];

/// A refused append leaves no file, and the block before it; the write is not complete.
#[test]
fn a_refused_append_keeps_what_was_stored(rt: HostRuntime) {
    let mut server = fails_there(&rt, rt.alloc(), 2, StoreFault::Full, 1);
    let record = server.record(1025).expect(&rt, "a transfer");
    let found = (record.number, record.complete);
    expect_equal(&rt, &found, &(1, false), "one block is stored, of more");
    play(&rt, rt.alloc(), &mut server, KEPT);
}
