//! Malformed datagrams at an end in each state. The bytes are written by hand from RFC 1350,
//! sections 4 to 6 and appendix I, and RFC 2347.

use crate::open_end::Event::Arrives;
use crate::open_end::{
    ACK_0, ACK_1, CLIENT, CONFIG, DATA_1, EIGHT, OACK_8, Opening, PROGRESS, RRQ_8, RRQ_A, SERVER,
    SERVER_END, STAYS, Scene, WRQ_8, play,
};
use std::alloc::Global;
use std::process::Abort;
use tftp_ends::{Endpoint, Outcome};
use tftp_wire::Mode;

const ILLEGAL: &[u8] = b"\x00\x05\x00\x04illegal operation\x00";

/// A client that reads by blocks of eight bytes.
const GET: Opening = Opening::Get(b"a", Mode::Octet, EIGHT, CONFIG);

/// A client that writes nine bytes by blocks of eight bytes.
const PUT: Opening = Opening::Put(9, b"ABCDEFGHI", EIGHT, CONFIG);

/// The first block of eight bytes.
const BLOCK_1: &[u8] = b"\x00\x03\x00\x01ABCDEFGH";

/// What leads to a state, the endpoint of the peer, and whether the end dallies and so ignores a
/// malformed datagram.
type State = (Scene, Endpoint, bool);

/// The states: a waiting reader and writer; a sender after its OACK, its first block and its last;
/// a receiver with no block, with one block of eight bytes, and one that dallies.
static STATES: [State; 8] = [
    (
        Scene {
            name: "a waiting reader",
            opening: GET,
            sends: (RRQ_8, SERVER),
            events: &[],
        },
        SERVER_END,
        false,
    ),
    (
        Scene {
            name: "a waiting writer",
            opening: PUT,
            sends: (WRQ_8, SERVER),
            events: &[],
        },
        SERVER_END,
        false,
    ),
    (
        Scene {
            name: "a sender after its OACK",
            opening: Opening::ServeRead(RRQ_8, Mode::Octet, 3, b"ABC"),
            sends: (OACK_8, CLIENT),
            events: &[],
        },
        CLIENT,
        false,
    ),
    (
        Scene {
            name: "a sender after its first block",
            opening: PUT,
            sends: (WRQ_8, SERVER),
            events: &[Arrives(SERVER_END, OACK_8, BLOCK_1, PROGRESS)],
        },
        SERVER_END,
        false,
    ),
    (
        Scene {
            name: "a sender after its last block",
            opening: PUT,
            sends: (WRQ_8, SERVER),
            events: &[
                Arrives(SERVER_END, OACK_8, BLOCK_1, PROGRESS),
                Arrives(SERVER_END, ACK_1, b"\x00\x03\x00\x02I", PROGRESS),
            ],
        },
        SERVER_END,
        false,
    ),
    (
        Scene {
            name: "a receiver with no block",
            opening: Opening::ServeWrite(RRQ_A, false),
            sends: (ACK_0, CLIENT),
            events: &[],
        },
        CLIENT,
        false,
    ),
    (
        Scene {
            name: "a receiver with one block",
            opening: GET,
            sends: (RRQ_8, SERVER),
            events: &[
                Arrives(SERVER_END, OACK_8, ACK_0, PROGRESS),
                Arrives(SERVER_END, BLOCK_1, ACK_1, PROGRESS),
            ],
        },
        SERVER_END,
        false,
    ),
    (
        Scene {
            name: "a receiver that dallies",
            opening: GET,
            sends: (RRQ_8, SERVER),
            events: &[
                Arrives(SERVER_END, OACK_8, ACK_0, PROGRESS),
                Arrives(SERVER_END, DATA_1, ACK_1, PROGRESS),
            ],
        },
        SERVER_END,
        true,
    ),
];

/// Datagrams that begin no packet, end too early or too late, or have a wrong number, name or mode.
static MALFORMED: [&[u8]; 13] = [
    b"",
    b"\x00",
    b"\x00\x07",
    b"\x00\x03\x00",
    b"\x00\x03\x00\x00",
    b"\x00\x04\x00\x01\x00",
    b"\x00\x01",
    b"\x00\x01\x00",
    b"\x00\x01a\x00mail\x00",
    b"\x00\x01a\x00octet\x00\x00",
    b"\x00\x06",
    b"\x00\x05",
    b"\x00\x05\x00\x01no\x00!",
];

/// The end handles the datagram: it sends ERROR 4, or nothing if the datagram begins as an ERROR,
/// and closes. A dallying end ignores it.
fn is_refused(rt: &impl Abort, alloc: Global, (scene, from, dallies): &State, bytes: &[u8]) {
    let mut end = play(rt, alloc, scene);
    let silent = *dallies || bytes.starts_with(b"\x00\x05");
    let answer = if silent { b"".as_slice() } else { ILLEGAL };
    let then = if *dallies {
        STAYS
    } else {
        Ok((false, Some(Outcome::Illegal)))
    };
    end.answers(rt, (scene.name, bytes), *from, answer, then);
    end.finish();
}

#[test]
fn malformed_each_state(rt: HostRuntime) {
    for state in &STATES {
        for &bytes in &MALFORMED {
            is_refused(&rt, rt.alloc(), state, bytes);
        }
    }
}
