//! The calls of an end that lend the datagram to send instead of appending it, and the values of
//! `tftp_ends`.

use crate::expect::expect_equal;
use crate::open_end::Event::{Lends, LendsAfterTimeout, Shows};
use crate::open_end::Fact::{Lent, Reports, Waits};
use crate::open_end::{
    ACK_1, ASKED_TO_READ, CONFIG, DATA_1, EIGHT, NOTHING, Opening, PROGRESS, REFUSED, RRQ_A,
    SERVER, STAYS, Scene, play_each,
};
use std::net::{Ipv4Addr, SocketAddrV4};
use tftp_ends::{
    Backoff, End, EndConfig, Endpoint, ErrorReply, Outcome, Outgoing, Record, decode_packet,
};
use tftp_negotiate::Limits;
use tftp_wire::Mode;

const STRANGER: Endpoint = Endpoint {
    ip: [10, 0, 0, 3],
    port: 69,
};

const NO_RETRY: EndConfig = EndConfig {
    limits: Limits {
        max_block: 1428,
        max_file: 4_290_183_239,
    },
    retries: 0,
};

const UNKNOWN_ID: &[u8] = b"\x00\x05\x00\x05unknown transfer id\x00";

/// A client that requests the file `a`, and has no retry.
const GET_A: Opening = Opening::Get(b"a", Mode::Octet, NOTHING, NO_RETRY);

static SCENES: [Scene; 4] = [
    Scene {
        name: "the last datagram sent is the request",
        opening: GET_A,
        sends: (RRQ_A, SERVER),
        events: &[
            Shows(Lent(Outgoing::LastSent, RRQ_A)),
            Shows(Lent(Outgoing::Nothing, b"")),
            Shows(Lent(Outgoing::Error(ErrorReply::UnknownTransferId), UNKNOWN_ID)),
        ],
    },
    // The interval is a second where no timeout is agreed.
    Scene {
        name: "an ACK is lent",
        opening: GET_A,
        sends: (RRQ_A, SERVER),
        events: &[
            Lends(SERVER, DATA_1, ACK_1, PROGRESS),
            Shows(Waits(Backoff::Constant, 1)),
        ],
    },
    // A datagram from another address is answered by ERROR 5 (RFC 1350, section 4), and the request
    // stays the last datagram.
    Scene {
        name: "an ERROR to a wrong peer is lent",
        opening: GET_A,
        sends: (RRQ_A, SERVER),
        events: &[
            Lends(STRANGER, ACK_1, UNKNOWN_ID, STAYS),
            Shows(Lent(Outgoing::LastSent, RRQ_A)),
        ],
    },
    // The end closes without a datagram, and stays closed.
    Scene {
        name: "a timeout without a retry lends nothing",
        opening: GET_A,
        sends: (RRQ_A, SERVER),
        events: &[
            LendsAfterTimeout(b"", SERVER, Ok((false, Some(Outcome::TimedOut)))),
            LendsAfterTimeout(b"", SERVER, REFUSED),
            Shows(Reports(Record {
                outcome: Some(Outcome::TimedOut),
                ..ASKED_TO_READ
            })),
        ],
    },
];

#[test]
fn lending_scenes(rt: HostRuntime) {
    play_each(&rt, rt.alloc(), &SCENES);
}

const WRQ_A: &[u8] = b"\x00\x02a\x00octet\x00blksize\x008\x00";

/// A client opens without a buffer, and lends its request.
#[test]
fn a_request_is_lent(rt: HostRuntime) {
    let (alloc, mode) = (rt.alloc(), Mode::Octet);
    let reader = End::open_get(alloc, SERVER, b"a", mode, &NOTHING, &CONFIG);
    let reader = reader.expect(&rt, "it asks to read");
    let found = reader.bytes_of(Outgoing::LastSent);
    expect_equal(&rt, &found, &RRQ_A, "a read request");
    let writer = End::open_put(alloc, SERVER, b"a", mode, &EIGHT, 10, &CONFIG);
    let writer = writer.expect(&rt, "it asks to write");
    let found = writer.bytes_of(Outgoing::LastSent);
    expect_equal(&rt, &found, &WRQ_A, "a write request");
}

#[test]
fn errors_are_appended(rt: HostRuntime) {
    let mut out = Vec::from_slice(rt.alloc(), b"old").expect(&rt, "memory");
    ErrorReply::DiskFull
        .append_to(&mut out)
        .expect(&rt, "memory");
    let expected = b"old\x00\x05\x00\x03disk full\x00".as_slice();
    expect_equal(&rt, &out.as_slice(), &expected, "behind the old bytes");
}

/// Datagrams, and whether each spells a packet.
static DATAGRAMS: [(&[u8], bool); 4] = [
    (b"\x00\x05", false),
    (b"\x00\x05\x00\x01no\x00", true),
    (b"\x00\x04\x00\x05", true),
    (b"", false),
];

#[test]
fn datagrams_are_decoded(rt: HostRuntime) {
    for &(bytes, is_packet) in &DATAGRAMS {
        let decoded = decode_packet(bytes);
        let found = (bytes, decoded.is_some());
        expect_equal(&rt, &found, &(bytes, is_packet), "whether it is a packet");
    }
}

#[test]
fn endpoints_are_socket_addresses(rt: HostRuntime) {
    let address = SocketAddrV4::new(Ipv4Addr::new(10, 0, 0, 1), 69);
    let found = (Endpoint::from(address), SocketAddrV4::from(SERVER));
    expect_equal(&rt, &found, &(SERVER, address), "of an address, and back");
}
