//! Netascii at the ends, and what an end keeps. The bytes are written by hand from RFC 1350,
//! sections 4 to 6 and appendix I, RFC 764 and RFC 2347.

use crate::expect::expect_equal;
use crate::netascii_rows::LONG_LINE;
use crate::open_end::Event::{Arrives, Shows};
use crate::open_end::Fact::{Holds, Keeps, Reports};
use crate::open_end::{
    ACK_0, ACK_1, ACK_2, ASKED_TO_READ, CLIENT, CONFIG, EIGHT, NOTHING, OACK_8, Opening, PROGRESS,
    SERVER, SERVER_END, Scene, Then, WHOLE, WRQ_8, open, play_each, round,
};
use std::alloc::Global;
use std::process::Abort;
use tftp_ends::{Held, Outcome, Record};
use tftp_wire::Mode;

/// A client that reads `a` in netascii, without options.
const GET_A: Opening = Opening::Get(b"a", Mode::Netascii, NOTHING, CONFIG);

const RRQ_A: &[u8] = b"\x00\x01a\x00netascii\x00";

/// A client that reads `a` in netascii, by blocks of eight bytes.
const GET_8: Opening = Opening::Get(b"a", Mode::Netascii, EIGHT, CONFIG);

const RRQ_8: &[u8] = b"\x00\x01a\x00netascii\x00blksize\x008\x00";

const ERROR_NOT_NETASCII: &[u8] = b"\x00\x05\x00\x00not netascii\x00";

/// The text is not netascii, in the datagram that makes the peer known.
const NEW_PEER: Then = Ok((true, Some(Outcome::NotNetascii)));

/// The text is not netascii, in a datagram after it.
const NOT_NETASCII: Then = Ok((false, Some(Outcome::NotNetascii)));

/// DATA 1 of texts that are not valid netascii. The receiver stores nothing of them, and closes.
static WRONG: [Scene; 4] = [
    Scene {
        name: "a CR at the end",
        opening: GET_A,
        sends: (RRQ_A, SERVER),
        events: &[
            Arrives(
                SERVER_END,
                b"\x00\x03\x00\x01A\r",
                ERROR_NOT_NETASCII,
                NEW_PEER,
            ),
            Shows(Holds(b"", false)),
        ],
    },
    Scene {
        name: "a CR before a byte other than LF and NUL",
        opening: GET_A,
        sends: (RRQ_A, SERVER),
        events: &[
            Arrives(
                SERVER_END,
                b"\x00\x03\x00\x01A\rB",
                ERROR_NOT_NETASCII,
                NEW_PEER,
            ),
            Shows(Holds(b"", false)),
        ],
    },
    Scene {
        name: "an LF without a CR before it",
        opening: GET_A,
        sends: (RRQ_A, SERVER),
        events: &[
            Arrives(
                SERVER_END,
                b"\x00\x03\x00\x01A\nB",
                ERROR_NOT_NETASCII,
                NEW_PEER,
            ),
            Shows(Holds(b"", false)),
        ],
    },
    Scene {
        name: "an LF alone",
        opening: GET_A,
        sends: (RRQ_A, SERVER),
        events: &[
            Arrives(
                SERVER_END,
                b"\x00\x03\x00\x01\n",
                ERROR_NOT_NETASCII,
                NEW_PEER,
            ),
            Shows(Holds(b"", false)),
        ],
    },
];

/// DATA 1 of eight bytes, seven letters and a CR.
const CUT_DATA_1: &[u8] = b"\x00\x03\x00\x01AAAAAAA\r";

/// A client that has received one block of eight bytes, of two.
const CUT: Record = Record {
    peer: Some(SERVER_END),
    size: 8,
    number: 1,
    ..ASKED_TO_READ
};

/// A pair that is cut between two blocks: the byte after the CR decides.
static CUTS: [Scene; 5] = [
    // The end keeps the CR, which awaits its byte, and one datagram, the ACK.
    Scene {
        name: "a receiver keeps an ACK and a CR",
        opening: GET_8,
        sends: (RRQ_8, SERVER),
        events: &[
            Arrives(SERVER_END, OACK_8, ACK_0, PROGRESS),
            Arrives(SERVER_END, CUT_DATA_1, ACK_1, PROGRESS),
            Shows(Keeps(Held {
                datagram: 4,
                text: 1,
            })),
            Shows(Holds(b"AAAAAAA", false)),
            Shows(Reports(CUT)),
        ],
    },
    Scene {
        name: "an LF after the cut",
        opening: GET_8,
        sends: (RRQ_8, SERVER),
        events: &[
            Arrives(SERVER_END, OACK_8, ACK_0, PROGRESS),
            Arrives(SERVER_END, CUT_DATA_1, ACK_1, PROGRESS),
            Arrives(SERVER_END, b"\x00\x03\x00\x02\nB", ACK_2, PROGRESS),
            Shows(Holds(b"AAAAAAA\nB", true)),
            Shows(Reports(Record {
                number: 2,
                complete: true,
                ..CUT
            })),
        ],
    },
    Scene {
        name: "a NUL after the cut",
        opening: GET_8,
        sends: (RRQ_8, SERVER),
        events: &[
            Arrives(SERVER_END, OACK_8, ACK_0, PROGRESS),
            Arrives(SERVER_END, CUT_DATA_1, ACK_1, PROGRESS),
            Arrives(SERVER_END, b"\x00\x03\x00\x02\0", ACK_2, PROGRESS),
            Shows(Holds(b"AAAAAAA\r", true)),
            Shows(Reports(Record {
                number: 2,
                complete: true,
                ..CUT
            })),
        ],
    },
    Scene {
        name: "a letter after the cut",
        opening: GET_8,
        sends: (RRQ_8, SERVER),
        events: &[
            Arrives(SERVER_END, OACK_8, ACK_0, PROGRESS),
            Arrives(SERVER_END, CUT_DATA_1, ACK_1, PROGRESS),
            Arrives(
                SERVER_END,
                b"\x00\x03\x00\x02B",
                ERROR_NOT_NETASCII,
                NOT_NETASCII,
            ),
            Shows(Holds(b"AAAAAAA", false)),
        ],
    },
    Scene {
        name: "no byte after the cut",
        opening: GET_8,
        sends: (RRQ_8, SERVER),
        events: &[
            Arrives(SERVER_END, OACK_8, ACK_0, PROGRESS),
            Arrives(SERVER_END, CUT_DATA_1, ACK_1, PROGRESS),
            Arrives(
                SERVER_END,
                b"\x00\x03\x00\x02",
                ERROR_NOT_NETASCII,
                NOT_NETASCII,
            ),
            Shows(Holds(b"AAAAAAA", false)),
        ],
    },
];

static SENDERS: [Scene; 3] = [
    // A sender keeps its newest DATA, a header and a block, and no text.
    Scene {
        name: "a sender keeps its block",
        opening: Opening::Put(9, b"ABCDEFGHI", EIGHT, CONFIG),
        sends: (WRQ_8, SERVER),
        events: &[
            Arrives(SERVER_END, OACK_8, b"\x00\x03\x00\x01ABCDEFGH", PROGRESS),
            Shows(Keeps(Held {
                datagram: 12,
                text: 0,
            })),
        ],
    },
    // The length is returned in octet only. In netascii `tsize` is ignored, and the answer is
    // DATA 1.
    Scene {
        name: "a length is reported in octet",
        opening: Opening::ServeRead(b"\x00\x01a\x00octet\x00tsize\x000\x00", Mode::Octet, 0, b""),
        sends: (b"\x00\x06tsize\x000\x00", CLIENT),
        events: &[],
    },
    Scene {
        name: "no length is reported in netascii",
        opening: Opening::ServeRead(
            b"\x00\x01a\x00netascii\x00tsize\x000\x00",
            Mode::Netascii,
            0,
            b"",
        ),
        sends: (b"\x00\x03\x00\x01", CLIENT),
        events: &[],
    },
];

/// A file of at most two blocks and how a server sends it: what is stored after DATA 1, whether
/// that is committed, and how many datagrams the read takes.
type Travel = (&'static [u8], u64, &'static [u8], bool, u32);

/// Wire text of 5 bytes has one block, and of 512 bytes a second, empty one. In that of 513 bytes
/// the CR of the last pair ends the first block.
static TRAVELS: [Travel; 3] = [
    (b"\r\nA", 5, b"\r\nA", true, 3),
    (&[b'\n'; 256], 512, &[b'\n'; 256], false, 5),
    (LONG_LINE, 513, &[b'A'; 511], false, 5),
];

/// A client reads the file from a server's end.
fn travels(rt: &impl Abort, alloc: Global, (host, length, first, is_whole, datagrams): Travel) {
    let served = Opening::ServeRead(RRQ_A, Mode::Netascii, length, host);
    let mut client = open(rt, alloc, &GET_A, WHOLE).expect(rt, "a client");
    let mut server = open(rt, alloc, &served, WHOLE).expect(rt, "a server's end");
    let mut count = round(rt, &mut client, &mut server);
    client.holds(rt, first, is_whole, "after DATA 1");
    if !server.sent().is_empty() {
        count = count.saturating_add(round(rt, &mut client, &mut server));
    }
    let total = count.saturating_add(2);
    expect_equal(rt, &total, &datagrams, "a request, DATA and their ACKs");
    client.holds(rt, host, true, "after the last DATA");
    client.finish();
    server.finish();
}

#[test]
fn netascii_scenes(rt: HostRuntime) {
    play_each(&rt, rt.alloc(), &WRONG);
    play_each(&rt, rt.alloc(), &CUTS);
    play_each(&rt, rt.alloc(), &SENDERS);
    for &travel in &TRAVELS {
        travels(&rt, rt.alloc(), travel);
    }
}
