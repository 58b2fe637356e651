//! Writes, datagram by datagram, at one end. The bytes are written by hand from RFC 1350, sections
//! 4 to 6.

use crate::open_end::Event::{Arrives, Shows};
use crate::open_end::Fact::{Holds, Reports};
use crate::open_end::{
    ACK_0, ACK_1, ASKED_TO_READ, CLIENT, COMPLETES, CONFIG, DATA_1, DISK_FULL, NOTHING, Opening,
    PROGRESS, RRQ_A, SERVER, SERVER_END, STORE_FAULT, Scene, play_each, refuses_each,
};
use tftp_ends::{OpenFault, Outcome, Record, Side};

/// A write request for the file `n` in octet.
const WRQ_N: &[u8] = b"\x00\x02n\x00octet\x00";

static SCENES: [Scene; 4] = [
    // Blocks of 512 bytes are numbered up to 65,535, and the last is short: at most 33,553,919
    // bytes.
    Scene {
        name: "the longest file is requested",
        opening: Opening::Put(33_553_919, b"", NOTHING, CONFIG),
        sends: (WRQ_N, SERVER),
        events: &[Shows(Reports(Record {
            side: Side::ClientWrite,
            ..ASKED_TO_READ
        }))],
    },
    // ACK 0 answers the request, from the port of the server's end (RFC 1350, section 4).
    Scene {
        name: "a block is sent after ACK 0",
        opening: Opening::Put(3, b"ABC", NOTHING, CONFIG),
        sends: (WRQ_N, SERVER),
        events: &[
            Arrives(SERVER_END, ACK_0, DATA_1, PROGRESS),
            Arrives(SERVER_END, ACK_1, b"", COMPLETES),
            Shows(Reports(Record {
                side: Side::ClientWrite,
                peer: Some(SERVER_END),
                number: 1,
                complete: true,
                outcome: Some(Outcome::Complete),
                ..ASKED_TO_READ
            })),
        ],
    },
    // A short block is the last; it is acknowledged after the commit (RFC 1350, section 6).
    Scene {
        name: "a short block is stored",
        opening: Opening::ServeWrite(RRQ_A, false),
        sends: (ACK_0, CLIENT),
        events: &[
            Arrives(CLIENT, DATA_1, ACK_1, PROGRESS),
            Shows(Holds(b"ABC", true)),
            Shows(Reports(Record {
                side: Side::ServerWrite,
                peer: Some(CLIENT),
                number: 1,
                complete: true,
                ..ASKED_TO_READ
            })),
        ],
    },
    // A refused commit: ERROR 3 (RFC 1350, appendix I), and the end closes.
    Scene {
        name: "a refused commit is no success",
        opening: Opening::ServeWrite(RRQ_A, true),
        sends: (ACK_0, CLIENT),
        events: &[
            Arrives(CLIENT, DATA_1, DISK_FULL, STORE_FAULT),
            Shows(Reports(Record {
                side: Side::ServerWrite,
                peer: Some(CLIENT),
                outcome: Some(Outcome::StoreFault),
                ..ASKED_TO_READ
            })),
        ],
    },
];

static TOO_LONG: [(&str, Opening, OpenFault); 1] = [(
    "one byte more than the longest file",
    Opening::Put(33_553_920, b"", NOTHING, CONFIG),
    OpenFault::TooLarge,
)];

#[test]
fn write_scenes(rt: HostRuntime) {
    play_each(&rt, rt.alloc(), &SCENES);
    refuses_each(&rt, rt.alloc(), &TOO_LONG);
}
