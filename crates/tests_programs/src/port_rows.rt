//! A server's table of transfers (RFC 1350, section 4), and its calls on requests. What it answers to
//! requests is tried by the scripts of tests/tftp_play.

use crate::expect::{expect, expect_equal};
use crate::served::Event::{Datagram, MayOpen, Request, Take};
use crate::served::Found::{Closed, Fault, Is, Nothing, Opened};
use crate::served::{Events, Found, client, play, play_each, server_of};
use crate::stores::{ABC, Setup};
use std::alloc::Global;
use std::process::Abort;
use tftp_ends::{Outcome, Outgoing};
use tftp_server::{Server, ServerFault, Store};

/// The request for the file `a`, in octet.
const REQUEST: &[u8] = b"\x00\x01a\x00octet\x00";

/// The first block of the file, and its acknowledgement.
const DATA_1: &[u8] = b"\x00\x03\x00\x01ABC";

const ACK_1: &[u8] = b"\x00\x04\x00\x01";

const COMPLETE: Found = Closed(Outcome::Complete);

/// A server with room for one transfer.
const ONE_SLOT: Setup = Setup { cap: 1, ..ABC };

/// Scenes at a server of the file `a`.
static SCENES: [(Setup, Events); 4] = [
    // A repeat opens nothing while its transfer is open; the request of another client does.
    (
        ABC,
        &[
            (Request(1025, 1025, REQUEST), Opened(1025), DATA_1),
            (MayOpen(1025, REQUEST), Is(false), b""),
            (MayOpen(1026, REQUEST), Is(true), b""),
            (Datagram(1025, 1025, ACK_1), COMPLETE, b""),
            (MayOpen(1025, REQUEST), Is(true), b""),
        ],
    ),
    // A closed transfer has its slot until it is taken.
    (
        ONE_SLOT,
        &[
            (Request(1025, 1025, REQUEST), Opened(1025), DATA_1),
            (Datagram(1025, 1025, ACK_1), COMPLETE, b""),
            (
                Request(1026, 1026, REQUEST),
                Nothing,
                b"\x00\x05\x00\x00server busy\x00",
            ),
            (Take(1025), COMPLETE, b""),
            (Request(1026, 1026, REQUEST), Opened(1026), DATA_1),
        ],
    ),
    // An open transfer is not taken.
    (
        ABC,
        &[
            (Request(1025, 1025, REQUEST), Opened(1025), DATA_1),
            (Take(1025), Nothing, b""),
            (Datagram(1025, 1025, ACK_1), COMPLETE, b""),
        ],
    ),
    // A datagram to the request port, and whether it could open a transfer.
    (
        ABC,
        &[
            (MayOpen(1040, b"\x00\x01a\x00octet\x00"), Is(true), b""),
            (MayOpen(1040, b"\x00\x01b\x00octet\x00"), Is(true), b""),
            (MayOpen(1040, b"\x00\x02a\x00octet\x00"), Is(true), b""),
            (MayOpen(1040, b"\x00\x02n\x00netascii\x00"), Is(true), b""),
            (
                MayOpen(1040, b"\x00\x02n\x00octet\x00tsize\x004290183240\x00"),
                Is(false),
                b"",
            ),
            (MayOpen(1040, b"\x00\x01../a\x00octet\x00"), Is(false), b""),
            (MayOpen(1040, b"\x00\x04\x00\x00"), Is(false), b""),
            (MayOpen(1040, b"\x00\x05"), Is(false), b""),
        ],
    ),
];

#[test]
fn scenes_at_the_request_port(rt: HostRuntime) {
    play_each(&rt, rt.alloc(), &SCENES);
}

/// Three transfers open, not in the order of their identifiers.
static OPENED: Events = &[
    (Request(1030, 1030, REQUEST), Opened(1030), DATA_1),
    (Request(1025, 1025, REQUEST), Opened(1025), DATA_1),
    (Request(1027, 1027, REQUEST), Opened(1027), DATA_1),
];

/// The second is closed and taken, and another opens. A request under an identifier that a transfer
/// has is refused, as a repeat is.
static REOPENED: Events = &[
    (Take(1025), COMPLETE, b""),
    (Request(1040, 1040, REQUEST), Opened(1040), DATA_1),
    (Request(2000, 1027, REQUEST), IN_USE, b""),
    (Request(1027, 1027, REQUEST), IN_USE, b""),
];

const IN_USE: Found = Fault(ServerFault::TidInUse);

/// The identifiers of the server's open transfers. Each is with its client.
fn open_tids<S: Store>(rt: &impl Abort, alloc: Global, server: &Server<S>) -> Vec<u16> {
    let mut open = Vec::new(alloc);
    for (tid, record) in server.open_transfers() {
        expect_equal(rt, &record.peer, &Some(client(tid)), "its client");
        open.push(tid).expect(rt, "memory");
    }
    open
}

/// A timeout of the transfer lends its block again, and another transfer lends none.
fn lends_its_block<S: Store>(rt: &impl Abort, server: &mut Server<S>) {
    let (step, lent) = server.handle_timeout(1025).expect(rt, "a timeout");
    expect_equal(rt, &step.to, &Some(client(1025)), "to its client");
    let block = server.bytes_of(1025, lent);
    expect_equal(rt, &block, &Some(DATA_1), "the block that was sent");
    expect(
        rt,
        server.bytes_of(1040, lent).is_none(),
        "no such transfer",
    );
}

/// The transfer completes without a buffer.
fn completes<S: Store>(rt: &impl Abort, server: &mut Server<S>) {
    let answer = server.handle_datagram(1025, client(1025), ACK_1);
    let (step, lent) = answer.expect(rt, "an acknowledgement");
    let complete = (Some(Outcome::Complete), Outgoing::Nothing);
    expect_equal(rt, &(step.closed, lent), &complete, "the end, in silence");
}

#[test]
fn table_rows(rt: HostRuntime) {
    let mut server = server_of(&rt, rt.alloc(), &ABC);
    play(&rt, rt.alloc(), &mut server, OPENED);
    lends_its_block(&rt, &mut server);
    completes(&rt, &mut server);
    let open = open_tids(&rt, rt.alloc(), &server);
    expect_tids(&rt, &open, &[1027, 1030]);
    play(&rt, rt.alloc(), &mut server, REOPENED);
    let mut tids = Vec::new(rt.alloc());
    server.tids(&mut tids).expect(&rt, "memory");
    expect_tids(&rt, &tids, &[1027, 1030, 1040]);
}

/// The identifiers are these, in rising order.
fn expect_tids(rt: &impl Abort, tids: &[u16], expected: &[u16]) {
    expect_equal(rt, &tids, &expected, "the identifiers");
}

/// A request, and the block size of the transfer that it may open: 512 bytes without the option
/// (RFC 1350, section 2), and no more than the limit of 1,428 with it (RFC 2348).
static BLOCK_SIZES: [(&[u8], Option<u16>); 6] = [
    (b"\x00\x01a\x00octet\x00", Some(512)),
    (b"\x00\x01a\x00octet\x00blksize\x001024\x00", Some(1_024)),
    (b"\x00\x01a\x00octet\x00blksize\x008192\x00", Some(1_428)),
    (b"\x00\x02n\x00octet\x00blksize\x008\x00", Some(8)),
    (b"\x00\x01../a\x00octet\x00", None),
    (b"\x00\x04\x00\x00", None),
];

/// The block size of the transfer that a datagram may open.
fn block_size<S: Store>(rt: &impl Abort, server: &Server<S>, bytes: &[u8]) -> Option<u16> {
    let admission = server.admit(client(1040), bytes).expect(rt, "memory");
    server.block_size(&admission)
}

#[test]
fn block_sizes_of_admissions(rt: HostRuntime) {
    let server = server_of(&rt, rt.alloc(), &ABC);
    for &(bytes, expected) in &BLOCK_SIZES {
        let size = block_size(&rt, &server, bytes);
        expect_equal(&rt, &(bytes, size), &(bytes, expected), "the block size");
    }
}
