//! Options at one end of a transfer, datagram by datagram: the requests, the answers, and the block
//! sizes that are used. The bytes are written by hand from RFC 2347 to 2349.

use crate::open_end::Event::{Arrives, Shows, TimesOut};
use crate::open_end::Fact::{Holds, Reports, Waits};
use crate::open_end::{
    ACK_0, ACK_1, ACK_2, ASKED_TO_READ, CLIENT, COMPLETES, DISK_FULL, EIGHT, EMPTY_DATA_2,
    FULL_DATA_1, OACK_8, Opening, PROGRESS, RRQ_8, SERVER, SERVER_END, STAYS, Scene, TOO_LARGE,
    WRQ_8, play_each, refuses_each,
};
use tftp_ends::{Backoff, EndConfig, OpenFault, Outcome, Record, Side};
use tftp_negotiate::{Asked, Limits, Refusal};
use tftp_wire::Mode;

const CONFIG: EndConfig = EndConfig {
    limits: Limits {
        max_block: 1428,
        max_file: 1000,
    },
    retries: 5,
};

const FILE_TOO_LARGE: &[u8] = b"\x00\x05\x00\x00file too large\x00";

const OPTION_REFUSED: &[u8] = b"\x00\x05\x00\x08option refused\x00";

/// A block size and a timeout.
const SIZE_AND_TIME: Asked = Asked {
    blksize: Some(1428),
    timeout: Some(3),
    tsize: None,
};

/// The length of the file that is read.
const LENGTH: Asked = Asked {
    blksize: None,
    timeout: None,
    tsize: Some(0),
};

/// A large block size.
const LARGE_BLOCKS: Asked = Asked {
    blksize: Some(1428),
    timeout: None,
    tsize: None,
};

/// A block size below 8 bytes (RFC 2348, "Blocksize Option Specification").
const SMALL_BLOCKS: Asked = Asked {
    blksize: Some(7),
    timeout: None,
    tsize: None,
};

/// A timeout below a second (RFC 2349, "Timeout Interval Option Specification").
const NO_TIME: Asked = Asked {
    blksize: None,
    timeout: Some(0),
    tsize: None,
};

/// A length other than 0 in a read (RFC 2349, "Transfer Size Option Specification").
const SOME_LENGTH: Asked = Asked {
    blksize: None,
    timeout: None,
    tsize: Some(3),
};

/// Requests that are refused, and lengths past those that blocks of 8 bytes carry: 65,534 whole
/// blocks and a last one of 7 bytes.
static REFUSED: [(&str, Opening, OpenFault); 6] = [
    (
        "a block size of 7",
        Opening::Get(b"a", Mode::Octet, SMALL_BLOCKS, CONFIG),
        OpenFault::BadRequest,
    ),
    (
        "a timeout of 0",
        Opening::Get(b"a", Mode::Octet, NO_TIME, CONFIG),
        OpenFault::BadRequest,
    ),
    (
        "a read that states a length",
        Opening::Get(b"a", Mode::Octet, SOME_LENGTH, CONFIG),
        OpenFault::BadRequest,
    ),
    (
        "a name too long for its option",
        Opening::Get(&[b'a'; 491], Mode::Octet, LARGE_BLOCKS, CONFIG),
        OpenFault::BadRequest,
    ),
    (
        "a file too long for small blocks",
        Opening::Put(524_280, b"", EIGHT, CONFIG),
        OpenFault::TooLarge,
    ),
    (
        "a file too long to be served by small blocks",
        Opening::ServeRead(RRQ_8, Mode::Octet, 524_280, b""),
        OpenFault::TooLarge,
    ),
];

/// A request has at most 512 bytes, with its options (RFC 2347, "Packet Formats"). Without the 13
/// bytes of a block size of four digits and the 9 of an octet request, 490 are left for the name:
/// here 70 letters on a line.
const LONGEST: &[u8] = b"\x00\x01\
aaaaaaaaaaaaaaaaaaaaaaaaaaaaaaaaaaaaaaaaaaaaaaaaaaaaaaaaaaaaaaaaaaaaaa\
aaaaaaaaaaaaaaaaaaaaaaaaaaaaaaaaaaaaaaaaaaaaaaaaaaaaaaaaaaaaaaaaaaaaaa\
aaaaaaaaaaaaaaaaaaaaaaaaaaaaaaaaaaaaaaaaaaaaaaaaaaaaaaaaaaaaaaaaaaaaaa\
aaaaaaaaaaaaaaaaaaaaaaaaaaaaaaaaaaaaaaaaaaaaaaaaaaaaaaaaaaaaaaaaaaaaaa\
aaaaaaaaaaaaaaaaaaaaaaaaaaaaaaaaaaaaaaaaaaaaaaaaaaaaaaaaaaaaaaaaaaaaaa\
aaaaaaaaaaaaaaaaaaaaaaaaaaaaaaaaaaaaaaaaaaaaaaaaaaaaaaaaaaaaaaaaaaaaaa\
aaaaaaaaaaaaaaaaaaaaaaaaaaaaaaaaaaaaaaaaaaaaaaaaaaaaaaaaaaaaaaaaaaaaaa\
\x00octet\x00blksize\x001428\x00";

/// Requests: option names in lower case, values in decimal, and no length in netascii. Last the
/// longest name, and the longest file by small blocks.
static REQUESTS: [Scene; 5] = [
    Scene {
        name: "a block size and a timeout are requested",
        opening: Opening::Get(b"boot.img", Mode::Octet, SIZE_AND_TIME, CONFIG),
        sends: (
            b"\x00\x01boot.img\x00octet\x00blksize\x001428\x00timeout\x003\x00",
            SERVER,
        ),
        events: &[],
    },
    Scene {
        name: "a length is requested",
        opening: Opening::Get(b"boot.img", Mode::Octet, LENGTH, CONFIG),
        sends: (b"\x00\x01boot.img\x00octet\x00tsize\x000\x00", SERVER),
        events: &[],
    },
    Scene {
        name: "no length is requested in netascii",
        opening: Opening::Get(b"boot.img", Mode::Netascii, LENGTH, CONFIG),
        sends: (b"\x00\x01boot.img\x00netascii\x00", SERVER),
        events: &[],
    },
    Scene {
        name: "the longest request",
        opening: Opening::Get(&[b'a'; 490], Mode::Octet, LARGE_BLOCKS, CONFIG),
        sends: (LONGEST, SERVER),
        events: &[],
    },
    Scene {
        name: "the longest file by small blocks",
        opening: Opening::Put(524_279, b"", EIGHT, CONFIG),
        sends: (WRQ_8, SERVER),
        events: &[],
    },
];

const RRQ_512: &[u8] = b"\x00\x01a\x00octet\x00blksize\x00512\x00";

const OACK_512: &[u8] = b"\x00\x06blksize\x00512\x00";

/// Ends of a server: the options of an OACK are in the order of the request, in lower case (RFC
/// 2347, "Packet Formats").
static ANSWERS: [Scene; 4] = [
    Scene {
        name: "a block size and a timeout are agreed",
        opening: Opening::ServeRead(
            b"\x00\x01boot.img\x00octet\x00BLKSIZE\x001428\x00timeout\x003\x00",
            Mode::Octet,
            512,
            &[b'x'; 512],
        ),
        sends: (b"\x00\x06blksize\x001428\x00timeout\x003\x00", CLIENT),
        events: &[Shows(Reports(AGREED)), Shows(Waits(Backoff::Constant, 3))],
    },
    Scene {
        name: "a timeout and a block size are agreed",
        opening: Opening::ServeRead(
            b"\x00\x01boot.img\x00octet\x00timeout\x003\x00BLKSIZE\x001428\x00",
            Mode::Octet,
            512,
            &[b'x'; 512],
        ),
        sends: (b"\x00\x06timeout\x003\x00blksize\x001428\x00", CLIENT),
        events: &[Shows(Reports(AGREED)), Shows(Waits(Backoff::Constant, 3))],
    },
    // A timeout retransmits the OACK. ACK 0 requests DATA 1, and an empty block follows a full one
    // (RFC 2347, "Negotiation Protocol"; RFC 1350, section 6).
    Scene {
        name: "blocks follow the ACK of the OACK",
        opening: Opening::ServeRead(RRQ_512, Mode::Octet, 512, &[b'x'; 512]),
        sends: (OACK_512, CLIENT),
        events: &[
            TimesOut(OACK_512, CLIENT, STAYS),
            Arrives(CLIENT, ACK_0, FULL_DATA_1, PROGRESS),
            Arrives(CLIENT, ACK_1, EMPTY_DATA_2, PROGRESS),
            Arrives(CLIENT, ACK_2, b"", COMPLETES),
        ],
    },
    // A server's end that receives answers by the OACK of the agreed options, and receives blocks
    // of the agreed size.
    Scene {
        name: "blocks of the agreed size are received",
        opening: Opening::ServeWrite(RRQ_8, false),
        sends: (OACK_8, CLIENT),
        events: &[
            Arrives(CLIENT, b"\x00\x03\x00\x01ABCDEFGH", ACK_1, PROGRESS),
            Arrives(CLIENT, EMPTY_DATA_2, ACK_2, PROGRESS),
            Shows(Holds(b"ABCDEFGH", true)),
            Shows(Reports(Record {
                side: Side::ServerWrite,
                peer: Some(CLIENT),
                size: 8,
                number: 2,
                complete: true,
                ..ASKED_TO_READ
            })),
        ],
    },
];

/// A server's end with a block size and a timeout, before its first block.
const AGREED: Record = Record {
    side: Side::ServerRead,
    peer: Some(CLIENT),
    size: 1428,
    timeout: Some(3),
    ..ASKED_TO_READ
};

/// A client that reads `a`, and requests a block size of 1428 and a timeout of 3.
const GET_BY_BOTH: Opening = Opening::Get(b"a", Mode::Octet, SIZE_AND_TIME, CONFIG);

const RRQ_BY_BOTH: &[u8] = b"\x00\x01a\x00octet\x00blksize\x001428\x00timeout\x003\x00";

/// Clients that accept an OACK, and use its block size and timeout, or else the defaults.
static ACCEPTED: [Scene; 4] = [
    // The client acknowledges the OACK by ACK 0, and a repeated one again. Then it receives the
    // blocks.
    Scene {
        name: "blocks are received after the OACK",
        opening: GET_BY_BOTH,
        sends: (RRQ_BY_BOTH, SERVER),
        events: &[
            Arrives(SERVER_END, OACK_512, ACK_0, PROGRESS),
            Arrives(SERVER_END, OACK_512, ACK_0, STAYS),
            Arrives(SERVER_END, FULL_DATA_1, ACK_1, PROGRESS),
            Arrives(SERVER_END, OACK_512, b"", STAYS),
            Arrives(SERVER_END, EMPTY_DATA_2, ACK_2, PROGRESS),
            Shows(Holds(&[b'x'; 512], true)),
            Shows(Reports(Record {
                peer: Some(SERVER_END),
                number: 2,
                complete: true,
                ..ASKED_TO_READ
            })),
        ],
    },
    Scene {
        name: "an OACK of both options",
        opening: GET_BY_BOTH,
        sends: (RRQ_BY_BOTH, SERVER),
        events: &[
            Arrives(
                SERVER_END,
                b"\x00\x06blksize\x001428\x00timeout\x003\x00",
                ACK_0,
                PROGRESS,
            ),
            Shows(Reports(Record {
                peer: Some(SERVER_END),
                size: 1428,
                timeout: Some(3),
                ..ASKED_TO_READ
            })),
            Shows(Waits(Backoff::Constant, 3)),
        ],
    },
    Scene {
        name: "an OACK of a smaller block size alone",
        opening: GET_BY_BOTH,
        sends: (RRQ_BY_BOTH, SERVER),
        events: &[
            Arrives(SERVER_END, b"\x00\x06BLKSIZE\x008\x00", ACK_0, PROGRESS),
            Shows(Reports(Record {
                peer: Some(SERVER_END),
                size: 8,
                ..ASKED_TO_READ
            })),
            Shows(Waits(Backoff::Constant, 1)),
        ],
    },
    Scene {
        name: "an OACK of a timeout alone",
        opening: GET_BY_BOTH,
        sends: (RRQ_BY_BOTH, SERVER),
        events: &[
            Arrives(SERVER_END, b"\x00\x06timeout\x003\x00", ACK_0, PROGRESS),
            Shows(Reports(Record {
                peer: Some(SERVER_END),
                timeout: Some(3),
                ..ASKED_TO_READ
            })),
            Shows(Waits(Backoff::Constant, 3)),
        ],
    },
];

/// Clients that refuse the first answer from the server, and take no peer.
static REFUSES: [Scene; 5] = [
    Scene {
        name: "an OACK of a larger block size",
        opening: GET_BY_BOTH,
        sends: (RRQ_BY_BOTH, SERVER),
        events: &[
            Arrives(
                SERVER_END,
                b"\x00\x06blksize\x001429\x00",
                OPTION_REFUSED,
                Ok((false, Some(Outcome::Refused(Refusal::BadValue)))),
            ),
            Shows(Reports(Record {
                outcome: Some(Outcome::Refused(Refusal::BadValue)),
                ..ASKED_TO_READ
            })),
        ],
    },
    Scene {
        name: "an OACK of a length that was not requested",
        opening: GET_BY_BOTH,
        sends: (RRQ_BY_BOTH, SERVER),
        events: &[
            Arrives(
                SERVER_END,
                b"\x00\x06tsize\x003\x00",
                OPTION_REFUSED,
                Ok((false, Some(Outcome::Refused(Refusal::NotAsked)))),
            ),
            Shows(Reports(Record {
                outcome: Some(Outcome::Refused(Refusal::NotAsked)),
                ..ASKED_TO_READ
            })),
        ],
    },
    Scene {
        name: "an OACK of a repeated timeout",
        opening: GET_BY_BOTH,
        sends: (RRQ_BY_BOTH, SERVER),
        events: &[
            Arrives(
                SERVER_END,
                b"\x00\x06timeout\x003\x00timeout\x003\x00",
                OPTION_REFUSED,
                Ok((false, Some(Outcome::Refused(Refusal::Repeated)))),
            ),
            Shows(Reports(Record {
                outcome: Some(Outcome::Refused(Refusal::Repeated)),
                ..ASKED_TO_READ
            })),
        ],
    },
    // A file that exceeds the client's limit: ERROR 3 (RFC 1350, appendix I).
    Scene {
        name: "an OACK of too large a file",
        opening: Opening::Get(b"a", Mode::Octet, LENGTH, CONFIG),
        sends: (b"\x00\x01a\x00octet\x00tsize\x000\x00", SERVER),
        events: &[
            Arrives(
                SERVER_END,
                b"\x00\x06tsize\x001001\x00",
                DISK_FULL,
                TOO_LARGE,
            ),
            Shows(Reports(Record {
                outcome: Some(Outcome::TooLarge),
                ..ASKED_TO_READ
            })),
        ],
    },
    // A server without options answers by ACK 0. The file then has to fit blocks of 512 bytes: at
    // most 33,553,919 bytes (RFC 2347, "Negotiation Protocol"; RFC 1350, section 5).
    Scene {
        name: "a file for larger blocks does not fall back",
        opening: Opening::Put(33_553_920, b"", LARGE_BLOCKS, CONFIG),
        sends: (b"\x00\x02n\x00octet\x00blksize\x001428\x00", SERVER),
        events: &[
            Arrives(SERVER_END, ACK_0, FILE_TOO_LARGE, TOO_LARGE),
            Shows(Reports(Record {
                side: Side::ClientWrite,
                outcome: Some(Outcome::TooLarge),
                ..ASKED_TO_READ
            })),
        ],
    },
];

#[test]
fn option_scenes(rt: HostRuntime) {
    refuses_each(&rt, rt.alloc(), &REFUSED);
    play_each(&rt, rt.alloc(), &REQUESTS);
    play_each(&rt, rt.alloc(), &ANSWERS);
    play_each(&rt, rt.alloc(), &ACCEPTED);
    play_each(&rt, rt.alloc(), &REFUSES);
}
