//! How long an end waits, timeout by timeout (RFC 1123, section 4.2.3.2; RFC 2349, "Timeout Interval
//! Option Specification").

use crate::open_end::Event::{Arrives, Shows, TimesOut};
use crate::open_end::Fact::Waits;
use crate::open_end::{
    ACK_0, CONFIG, Opening, PROGRESS, SERVER, SERVER_END, STAYS, Scene, play_each,
};
use tftp_ends::Backoff;
use tftp_negotiate::Asked;
use tftp_wire::Mode;

const RRQ: &[u8] = b"\x00\x01a\x00octet\x00timeout\x003\x00";

/// A timeout of three seconds is agreed. ACK 0 answers it.
const OACK: &[u8] = b"\x00\x06timeout\x003\x00";

/// Requests a timeout of three seconds.
const THREE: Asked = Asked {
    blksize: None,
    timeout: Some(3),
    tsize: None,
};

/// A client with five retries that requests a timeout of three seconds.
const GET: Opening = Opening::Get(b"a", Mode::Octet, THREE, CONFIG);

static SCENES: [Scene; 3] = [
    // Twice as long after each timeout, up to eight times.
    Scene {
        name: "waits double",
        opening: GET,
        sends: (RRQ, SERVER),
        events: &[
            Shows(Waits(Backoff::Doubling, 1)),
            TimesOut(RRQ, SERVER, STAYS),
            Shows(Waits(Backoff::Doubling, 2)),
            TimesOut(RRQ, SERVER, STAYS),
            Shows(Waits(Backoff::Doubling, 4)),
            TimesOut(RRQ, SERVER, STAYS),
            Shows(Waits(Backoff::Doubling, 8)),
            TimesOut(RRQ, SERVER, STAYS),
            Shows(Waits(Backoff::Doubling, 8)),
            TimesOut(RRQ, SERVER, STAYS),
            Shows(Waits(Backoff::Doubling, 8)),
        ],
    },
    Scene {
        name: "waits stay equal",
        opening: GET,
        sends: (RRQ, SERVER),
        events: &[
            Shows(Waits(Backoff::Constant, 1)),
            TimesOut(RRQ, SERVER, STAYS),
            Shows(Waits(Backoff::Constant, 1)),
            TimesOut(RRQ, SERVER, STAYS),
            Shows(Waits(Backoff::Constant, 1)),
            TimesOut(RRQ, SERVER, STAYS),
            Shows(Waits(Backoff::Constant, 1)),
            TimesOut(RRQ, SERVER, STAYS),
            Shows(Waits(Backoff::Constant, 1)),
            TimesOut(RRQ, SERVER, STAYS),
            Shows(Waits(Backoff::Constant, 1)),
        ],
    },
    // Progress begins again at one interval, which is the agreed one then.
    Scene {
        name: "progress begins again",
        opening: GET,
        sends: (RRQ, SERVER),
        events: &[
            TimesOut(RRQ, SERVER, STAYS),
            Shows(Waits(Backoff::Doubling, 2)),
            Arrives(SERVER_END, OACK, ACK_0, PROGRESS),
            Shows(Waits(Backoff::Doubling, 3)),
            TimesOut(ACK_0, SERVER_END, STAYS),
            Shows(Waits(Backoff::Doubling, 6)),
            TimesOut(ACK_0, SERVER_END, STAYS),
            Shows(Waits(Backoff::Doubling, 12)),
            TimesOut(ACK_0, SERVER_END, STAYS),
            Shows(Waits(Backoff::Doubling, 24)),
            TimesOut(ACK_0, SERVER_END, STAYS),
            Shows(Waits(Backoff::Doubling, 24)),
            TimesOut(ACK_0, SERVER_END, STAYS),
        ],
    },
];

#[test]
fn waits(rt: HostRuntime) {
    play_each(&rt, rt.alloc(), &SCENES);
}
