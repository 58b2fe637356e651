//! Whole transfers, datagram by datagram, at one end. The bytes are written by hand from RFC 1350,
//! sections 4 to 6 and appendix I.

use crate::expect::expect_equal;
use crate::open_end::Event::{Arrives, Shows, TimesOut};
use crate::open_end::Fact::{Holds, Reports};
use crate::open_end::{
    ACK_1, ACK_2, ASKED_TO_READ, CLIENT, COMPLETES, CONFIG, DATA_1, EMPTY_DATA_2, FULL_DATA_1,
    NOTHING, Opening, PROGRESS, REFUSED, RRQ_A, SERVER, SERVER_END, STAYS, Scene, play_each,
    refuses_each,
};
use tftp_ends::{EndFault, ErrorReply, OpenFault, Outcome, Record, Side};
use tftp_negotiate::Refusal;
use tftp_wire::Mode;

const UNKNOWN_ID: &[u8] = b"\x00\x05\x00\x05unknown transfer id\x00";

/// A client that reads the file `a` in octet, without options.
const GET_A: Opening = Opening::Get(b"a", Mode::Octet, NOTHING, CONFIG);

/// A client that has received a whole file of one block, and dallies.
const RECEIVED: Record = Record {
    peer: Some(SERVER_END),
    number: 1,
    complete: true,
    ..ASKED_TO_READ
};

/// A server's end whose two blocks are acknowledged.
const SENT: Record = Record {
    side: Side::ServerRead,
    peer: Some(CLIENT),
    size: 512,
    timeout: None,
    number: 2,
    complete: true,
    outcome: Some(Outcome::Complete),
};

static SCENES: [Scene; 6] = [
    Scene {
        name: "a request has no peer before the first answer",
        opening: Opening::Get(b"boot.img", Mode::Octet, NOTHING, CONFIG),
        sends: (b"\x00\x01boot.img\x00octet\x00", SERVER),
        events: &[Shows(Reports(ASKED_TO_READ))],
    },
    // A file of one full block ends with an empty DATA (RFC 1350, section 6). A repeated ACK is
    // ignored (RFC 1123, section 4.2.3.1). A datagram from another endpoint is answered by ERROR 5,
    // and changes nothing.
    Scene {
        name: "a full block is sent",
        opening: Opening::ServeRead(RRQ_A, Mode::Octet, 512, &[b'x'; 512]),
        sends: (FULL_DATA_1, CLIENT),
        events: &[
            Arrives(SERVER_END, ACK_1, UNKNOWN_ID, STAYS),
            Arrives(CLIENT, ACK_1, EMPTY_DATA_2, PROGRESS),
            Arrives(CLIENT, ACK_1, b"", STAYS),
            Arrives(CLIENT, ACK_2, b"", COMPLETES),
            Shows(Reports(SENT)),
        ],
    },
    Scene {
        name: "a closed end takes nothing",
        opening: Opening::ServeRead(RRQ_A, Mode::Octet, 3, b"ABC"),
        sends: (DATA_1, CLIENT),
        events: &[
            Arrives(CLIENT, ACK_1, b"", COMPLETES),
            Arrives(CLIENT, ACK_1, b"", REFUSED),
            TimesOut(b"", CLIENT, REFUSED),
        ],
    },
    // The peer is the port that answers. The client acknowledges the last block after the commit,
    // and again while it dallies (RFC 1350, sections 4 and 6).
    Scene {
        name: "a short block is received",
        opening: GET_A,
        sends: (RRQ_A, SERVER),
        events: &[
            Arrives(SERVER_END, DATA_1, ACK_1, PROGRESS),
            Shows(Reports(RECEIVED)),
            Shows(Holds(b"ABC", true)),
        ],
    },
    // A dally closes at its second timeout (RFC 1350, section 6).
    Scene {
        name: "a dally",
        opening: GET_A,
        sends: (RRQ_A, SERVER),
        events: &[
            Arrives(SERVER_END, DATA_1, ACK_1, PROGRESS),
            Arrives(SERVER_END, DATA_1, ACK_1, STAYS),
            TimesOut(b"", SERVER_END, STAYS),
            TimesOut(b"", SERVER_END, Ok((false, Some(Outcome::Complete)))),
        ],
    },
    // A timeout retransmits the request to the request port. Without a retry left the end closes
    // without a datagram, and never as complete.
    Scene {
        name: "an end gives up in silence",
        opening: GET_A,
        sends: (RRQ_A, SERVER),
        events: &[
            TimesOut(RRQ_A, SERVER, STAYS),
            TimesOut(RRQ_A, SERVER, STAYS),
            TimesOut(RRQ_A, SERVER, STAYS),
            TimesOut(RRQ_A, SERVER, STAYS),
            TimesOut(RRQ_A, SERVER, STAYS),
            TimesOut(b"", SERVER, Ok((false, Some(Outcome::TimedOut)))),
        ],
    },
];

/// Names that are refused: empty, with a zero byte, and too long for 512 bytes.
static WRONG_NAMES: [(&str, Opening, OpenFault); 3] = [
    (
        "an empty name",
        Opening::Get(b"", Mode::Octet, NOTHING, CONFIG),
        OpenFault::BadRequest,
    ),
    (
        "a zero byte",
        Opening::Get(b"a\x00b", Mode::Octet, NOTHING, CONFIG),
        OpenFault::BadRequest,
    ),
    (
        "a long name",
        Opening::Get(&[b'a'; 504], Mode::Octet, NOTHING, CONFIG),
        OpenFault::BadRequest,
    ),
];

#[test]
fn end_scenes(rt: HostRuntime) {
    play_each(&rt, rt.alloc(), &SCENES);
    refuses_each(&rt, rt.alloc(), &WRONG_NAMES);
}

/// The codes of RFC 1350, appendix I, and code 8 of RFC 2347, "Negotiation Protocol".
static ERRORS: [(ErrorReply, u16, &str); 11] = [
    (ErrorReply::FileTooLarge, 0, "file too large"),
    (ErrorReply::ServerBusy, 0, "server busy"),
    (ErrorReply::FileChanged, 0, "file changed"),
    (ErrorReply::NotNetascii, 0, "not netascii"),
    (ErrorReply::FileNotFound, 1, "file not found"),
    (ErrorReply::AccessViolation, 2, "access violation"),
    (ErrorReply::DiskFull, 3, "disk full"),
    (ErrorReply::IllegalOperation, 4, "illegal operation"),
    (ErrorReply::UnknownTransferId, 5, "unknown transfer id"),
    (ErrorReply::FileExists, 6, "file exists"),
    (ErrorReply::OptionRefused, 8, "option refused"),
];

#[test]
fn error_codes(rt: HostRuntime) {
    for &(reply, code, text) in &ERRORS {
        let found = (reply.code(), reply.text());
        expect_equal(&rt, &found, &(code, text), "the code and the text");
    }
}

/// Outcomes, their numbers and their words.
static OUTCOMES: [(Outcome, u8, &str); 9] = [
    (Outcome::Complete, 1, "Complete"),
    (Outcome::TimedOut, 2, "TimedOut"),
    (Outcome::PeerError(5), 3, "PeerError(5)"),
    (Outcome::Illegal, 4, "Illegal"),
    (Outcome::Refused(Refusal::NotAsked), 5, "Refused(NotAsked)"),
    (Outcome::TooLarge, 6, "TooLarge"),
    (Outcome::StoreFault, 7, "StoreFault"),
    (Outcome::SourceFault, 8, "SourceFault"),
    (Outcome::NotNetascii, 9, "NotNetascii"),
];

#[test]
fn outcomes(rt: HostRuntime) {
    for &(outcome, number, text) in &OUTCOMES {
        let shown = format!(in rt.alloc(); "{outcome:?}").expect(&rt, "memory");
        let found = (outcome.number(), shown.as_str());
        expect_equal(&rt, &found, &(number, text), "the number and the words");
    }
}

#[test]
fn faults_are_numbered(rt: HostRuntime) {
    let opening = (
        OpenFault::BadRequest.number(),
        OpenFault::TooLarge.number(),
        OpenFault::SourceFault.number(),
        OpenFault::Memory.number(),
    );
    expect_equal(&rt, &opening, &(1, 2, 3, 4), "why an end was not opened");
    let event = (EndFault::Closed.number(), EndFault::Memory.number());
    expect_equal(&rt, &event, &(1, 2), "why an event was not taken");
}

/// Sides, and whether each sends DATA, and whether it is a client's.
static SIDES: [(Side, bool, bool); 4] = [
    (Side::ClientRead, false, true),
    (Side::ClientWrite, true, true),
    (Side::ServerRead, true, false),
    (Side::ServerWrite, false, false),
];

#[test]
fn sides(rt: HostRuntime) {
    for &(side, sends, asks) in &SIDES {
        let found = (side, side.is_sender(), side.is_client());
        let expected = (side, sends, asks);
        expect_equal(&rt, &found, &expected, "whether it sends, and asks");
    }
}

#[test]
fn endpoints_are_printed(rt: HostRuntime) {
    let shown = format!(in rt.alloc(); "{SERVER}").expect(&rt, "memory");
    expect_equal(
        &rt,
        &shown.as_str(),
        &"10.0.0.1:69",
        "an address and a port",
    );
}
