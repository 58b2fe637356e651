//! Options of requests and of OACKs, and the results (RFC 2347; RFC 2348; RFC 2349).
//!
//! A row is a line of a text: the options as `name=value`, separated by commas, an arrow, and the
//! result, which is the agreed list and the block size, or the refusal.

use crate::expect::{expect, expect_equal};
use crate::open_end::NOTHING;
use crate::packet_rows::{bytes_of, options_in};
use std::alloc::Global;
use std::process::Abort;
use tftp_negotiate::{
    Agreed, Asked, Kind, Known, Limits, Name, Refusal, accept, accept_ref, check_oack,
    check_oack_ref, is_block_size,
};
use tftp_wire::{Mode, RawOption};

const ROOMY: Limits = Limits {
    max_block: 65_464,
    max_file: u64::MAX,
};

const TIGHT: Limits = Limits {
    max_block: 1428,
    max_file: 1000,
};

/// Requests only a block size.
const SIZE: Asked = Asked {
    blksize: Some(1428),
    timeout: None,
    tsize: None,
};

/// Requests only a timeout.
const WAIT: Asked = Asked {
    blksize: None,
    timeout: Some(3),
    tsize: None,
};

/// Requests the length of a file that is read.
const LENGTH: Asked = Asked {
    blksize: None,
    timeout: None,
    tsize: Some(0),
};

/// Requests all three, for a write of 41 bytes.
const ALL: Asked = Asked {
    blksize: Some(65_464),
    timeout: Some(255),
    tsize: Some(41),
};

pub(crate) const READ: Kind = Kind::Read;

pub(crate) const WRITE: Kind = Kind::Write;

pub(crate) const OCTET: Mode = Mode::Octet;

pub(crate) const NETASCII: Mode = Mode::Netascii;

/// Who handles the options.
#[derive(Clone, Copy)]
enum Party {
    /// A server with these limits and a file of 10 bytes answers a request.
    Server(Limits),
    /// A client that requested these options, and accepts so many bytes of a file, handles an OACK.
    Client(Asked, u64),
}

/// A party, the kinds and modes in which it handles the options of each row, and the rows.
type Group = (Party, &'static [(Kind, Mode)], &'static str);

/// Each kind in each mode.
const DIRECTIONS: &[(Kind, Mode)] = &[
    (READ, OCTET),
    (READ, NETASCII),
    (WRITE, OCTET),
    (WRITE, NETASCII),
];

/// The first two rows have the options of a request in two orders; the answer has the same order
/// (RFC 2347: the order of options has no meaning).
const LIMITED: &str = "\
BLKSIZE=1428,timeout=3 -> [Blksize(1428), Timeout(3)] 1428
timeout=3,BLKSIZE=1428 -> [Timeout(3), Blksize(1428)] 1428
blksize=65464 -> [Blksize(1428)] 1428
blksize=1429 -> [Blksize(1428)] 1428
blksize=1427 -> [Blksize(1427)] 1427
blksize=7 -> [] 512
blksize=08 -> [] 512
blksize=512,BLKSIZE=512 -> Repeated
tsize=0 -> [Tsize(10)] 512
 -> [] 512";

/// The ranges of RFC 2348 (8 to 65,464) and RFC 2349 (1 to 255), in both modes, both ways.
const RANGES: &str = "\
blksize=0 -> [] 512
blksize=7 -> [] 512
blksize=8 -> [Blksize(8)] 8
blksize=65464 -> [Blksize(65464)] 65464
blksize=65465 -> [] 512
blksize=65536 -> [] 512
blksize=65544 -> [] 512
blksize=18446744073709551615 -> [] 512
timeout=0 -> [] 512
timeout=1 -> [Timeout(1)] 512
timeout=255 -> [Timeout(255)] 512
timeout=256 -> [] 512
timeout=257 -> [] 512
windowsize=4 -> [] 512
windowsize=4,windowsize=4 -> [] 512
blksiz=8 -> [] 512
blksizes=8 -> [] 512
bLkSiZe=8,TimeOut=9 -> [Blksize(8), Timeout(9)] 8
blksize=x,blksize=y -> Repeated
timeout=3,windowsize=4,TIMEOUT=3 -> Repeated
tsize=x,tsize=y -> Repeated";

/// A read requests 0 and is answered by the length, here 10. A write states its length (RFC 2349).
/// In netascii the option is omitted.
const READ_LENGTHS: &str = "\
tsize=0 -> [Tsize(10)] 512
tsize=1 -> [] 512
tsize=10 -> [] 512";

const WRITE_LENGTHS: &str = "\
tsize=0 -> [Tsize(0)] 512
tsize=1000 -> [Tsize(1000)] 512
tsize=1001 -> TooLarge
timeout=1,tsize=1001,blksize=8 -> TooLarge
tsize=1001,tsize=1 -> Repeated";

const NETASCII_LENGTHS: &str = "\
tsize=1 -> [] 512
tsize=1001 -> [] 512
tsize=1,tsize=1 -> Repeated";

const LARGEST_LENGTH: &str = "\
tsize=18446744073709551615 -> [Tsize(18446744073709551615)] 512";

/// OACKs for a client that requested a block size.
const SIZE_OACKS: &str = "\
blksize=512 -> [Blksize(512)] 512
BLKSIZE=8 -> [Blksize(8)] 8
blksize=1428 -> [Blksize(1428)] 1428
 -> [] 512
blksize=1429,timeout=3 -> BadValue
timeout=3,blksize=7 -> NotAsked
blksize=7,blksize=512 -> Repeated
blksize=7 -> BadValue
timeout=3,timeout=3 -> Repeated
windowsize=4 -> NotAsked
windowsize=4,windowsize=4 -> NotAsked";

/// OACKs for a client that requested the length of the file.
const LENGTH_OACKS: &str = "\
tsize=1000 -> [Tsize(1000)] 512
tsize=1001 -> TooLarge
tsize=01 -> BadValue
tsize=18446744073709551616 -> BadValue
tsize=1001,windowsize=4 -> TooLarge
windowsize=4,tsize=1001 -> NotAsked";

/// OACKs for a client that requested a timeout.
const WAIT_OACKS: &str = "\
timeout=3 -> [Timeout(3)] 512
timeout=4 -> BadValue
timeout=2 -> BadValue
timeout=259 -> BadValue";

/// OACKs for a client that requested no option.
const UNASKED_OACKS: &str = "\
timeout=3 -> NotAsked
blksize=512 -> NotAsked
tsize=0 -> NotAsked";

/// The other modes and kinds: a write accepts only the length that it stated (RFC 2349), and in
/// netascii no length counts as requested. The limit is 39 bytes.
const STATED: &str = "\
tsize=41 -> [Tsize(41)] 512
tsize=40 -> BadValue
tsize=0 -> BadValue";

const WITHIN_LIMIT: &str = "\
tsize=39 -> [Tsize(39)] 512
tsize=40 -> TooLarge
tsize=0,timeout=255,blksize=8 -> [Tsize(0), Timeout(255), Blksize(8)] 8";

const NETASCII_OACKS: &str = "\
tsize=41 -> NotAsked
tsize=41,tsize=41 -> Repeated
blksize=65464,timeout=255 -> [Blksize(65464), Timeout(255)] 65464";

static GROUPS: [Group; 15] = [
    (Party::Server(TIGHT), &[(READ, OCTET)], LIMITED),
    (Party::Server(ROOMY), DIRECTIONS, RANGES),
    (Party::Server(TIGHT), &[(READ, OCTET)], READ_LENGTHS),
    (Party::Server(TIGHT), &[(WRITE, OCTET)], WRITE_LENGTHS),
    (
        Party::Server(TIGHT),
        &[(READ, NETASCII)],
        "tsize=0 -> [] 512",
    ),
    (Party::Server(TIGHT), &[(WRITE, NETASCII)], NETASCII_LENGTHS),
    (Party::Server(ROOMY), &[(WRITE, OCTET)], LARGEST_LENGTH),
    (Party::Client(SIZE, 1000), &[(READ, OCTET)], SIZE_OACKS),
    (Party::Client(LENGTH, 1000), &[(READ, OCTET)], LENGTH_OACKS),
    (Party::Client(WAIT, 1000), &[(READ, OCTET)], WAIT_OACKS),
    (
        Party::Client(NOTHING, 1000),
        &[(READ, OCTET)],
        UNASKED_OACKS,
    ),
    (Party::Client(ALL, 39), &[(WRITE, OCTET)], STATED),
    (Party::Client(ALL, 39), &[(READ, OCTET)], WITHIN_LIMIT),
    (
        Party::Client(ALL, 39),
        &[(READ, NETASCII)],
        "tsize=39 -> NotAsked",
    ),
    (Party::Client(ALL, 39), &[(WRITE, NETASCII)], NETASCII_OACKS),
];

/// Values that are not numbers, for any option. The RFCs only say that values are ASCII; this
/// project accepts a number in one spelling, below 2^64.
static NO_NUMBERS: [&str; 14] = [
    "",
    "00",
    "01",
    "08",
    "+8",
    "-8",
    " 8",
    "8 ",
    "8.0",
    "0x8",
    "1e3",
    "eight",
    "18446744073709551616",
    "99999999999999999999",
];

static NAMES: [&str; 3] = ["blksize", "timeout", "tsize"];

fn options_of(rt: &impl Abort, alloc: Global, row: &str) -> Vec<RawOption> {
    let mut options = Vec::new(alloc);
    for option in row.split(',') {
        if let Some((name, value)) = option.split_once('=') {
            let name = bytes_of(rt, alloc, name.as_bytes());
            let value = bytes_of(rt, alloc, value.as_bytes());
            let option = RawOption { name, value };
            options.push(option).expect(rt, "memory");
        }
    }
    options
}

fn option_of(rt: &impl Abort, alloc: Global, name: &str, value: &str) -> RawOption {
    let name = bytes_of(rt, alloc, name.as_bytes());
    let value = bytes_of(rt, alloc, value.as_bytes());
    RawOption { name, value }
}

/// The options of this kind and mode have this result; `what` names the options.
fn comes_out(
    rt: &impl Abort,
    alloc: Global,
    outcome: Result<Agreed, Refusal>,
    expected: &str,
    what: (Kind, Mode, &str),
) {
    let shown = match outcome {
        Ok(agreed) => {
            let list = agreed.as_slice();
            let size = agreed.block_size();
            format!(in alloc; "{list:?} {size}")
        }
        Err(refusal) => format!(in alloc; "{refusal:?}"),
    };
    let found = shown.expect(rt, "memory");
    expect_equal(rt, &(what, found.as_str()), &(what, expected), "a result");
}

/// The party handles options of this kind and mode with this result.
fn handles(
    rt: &impl Abort,
    alloc: Global,
    party: &Party,
    (kind, mode): (Kind, Mode),
    row: &str,
    expected: &str,
) {
    let options = options_of(rt, alloc, row);
    let outcome = match party {
        Party::Server(limits) => {
            expect(rt, is_block_size(u64::from(limits.max_block)), row);
            accept(options.as_slice(), kind, mode, 10, limits)
        }
        Party::Client(asked, limit) => {
            expect(rt, asked.is_askable(), row);
            check_oack(asked, kind, mode, options.as_slice(), *limit)
        }
    };
    comes_out(rt, alloc, outcome, expected, (kind, mode, row));
}

fn handles_each(rt: &impl Abort, alloc: Global, (party, directions, rows): &Group) {
    for &direction in *directions {
        for row in rows.split('\n') {
            let (options, expected) = row.split_once(" -> ").expect(rt, row);
            handles(rt, alloc, party, direction, options, expected);
        }
    }
}

#[test]
fn option_rows(rt: HostRuntime) {
    for group in &GROUPS {
        handles_each(&rt, rt.alloc(), group);
    }
}

/// A server omits each option with each value that is not a number. A client that requested it
/// refuses an OACK with one, of a read and of a write.
fn has_no_number(rt: &impl Abort, alloc: Global, name: &str, value: &str) {
    let row = format!(in alloc; "{name}={value}").expect(rt, "memory");
    for &direction in DIRECTIONS {
        let server = Party::Server(ROOMY);
        handles(rt, alloc, &server, direction, row.as_str(), "[] 512");
    }
    for kind in [READ, WRITE] {
        let client = Party::Client(ALL, 39);
        handles(rt, alloc, &client, (kind, OCTET), row.as_str(), "BadValue");
    }
}

#[test]
fn options_hold_numbers(rt: HostRuntime) {
    for &name in &NAMES {
        for &value in &NO_NUMBERS {
            has_no_number(&rt, rt.alloc(), name, value);
        }
    }
}

/// `count` options are agreed, with this block size and timeout.
fn agrees(rt: &impl Abort, agreed: &Agreed, size: u16, timeout: Option<u8>, count: usize) {
    let list = (agreed.is_empty(), agreed.as_slice().len());
    let found = (list, agreed.block_size(), agreed.timeout());
    let expected = ((count == 0, count), size, timeout);
    expect_equal(rt, &found, &expected, "options, block size and timeout");
}

/// Without options, blocks have 512 bytes (RFC 1350, section 2).
#[test]
fn agreed_values(rt: HostRuntime) {
    let rt = &rt;
    let options = options_of(rt, rt.alloc(), "tsize=0,timeout=9,blksize=64");
    let outcome = accept(options.as_slice(), READ, OCTET, 10, &ROOMY);
    agrees(rt, &outcome.expect(rt, "an answer"), 64, Some(9), 3);
    agrees(rt, &Agreed::default(), 512, None, 0);
    expect(rt, Agreed::new().is_empty(), "no option at first");
    expect_equal(rt, &Known::default(), &Known::Tsize(0), "what a read asks");
}

/// A client that requests a larger block size than the server's, and a timeout.
const LARGER: Asked = Asked {
    blksize: Some(2000),
    timeout: Some(3),
    tsize: None,
};

/// The options of a datagram have the same result as owned ones: an RRQ with two options, and an
/// OACK with a smaller block size than the client requested (RFC 2347, "Packet Formats").
#[test]
fn datagrams_are_handled(rt: HostRuntime) {
    let (rt, alloc) = (&rt, rt.alloc());
    let expected = "[Blksize(1428), Timeout(3)] 1428";
    let request = b"\0\x01boot.img\0octet\0BLKSIZE\01428\0timeout\03\0";
    let answer = accept_ref(&options_in(rt, request), READ, OCTET, 10, &TIGHT);
    comes_out(rt, alloc, answer, expected, (READ, OCTET, "the RRQ"));
    expect(rt, LARGER.is_askable(), "what may be asked");
    let oack = options_in(rt, b"\0\x06blksize\01428\0timeout\03\0");
    let taken = check_oack_ref(&LARGER, READ, OCTET, &oack, 10);
    comes_out(rt, alloc, taken, expected, (READ, OCTET, "the OACK"));
}

/// Option names are case-insensitive (RFC 2347, "Packet Formats").
static OPTION_NAMES: [(&[u8], Option<Name>); 5] = [
    (b"blksize", Some(Name::Blksize)),
    (b"TIMEOUT", Some(Name::Timeout)),
    (b"tSIZe", Some(Name::Tsize)),
    (b"windowsize", None),
    (b"tsize ", None),
];

static REFUSALS: [(Refusal, u8, &str); 4] = [
    (Refusal::Repeated, 1, "a known option stands twice"),
    (Refusal::TooLarge, 2, "the file is too large"),
    (Refusal::NotAsked, 3, "an option was not asked"),
    (
        Refusal::BadValue,
        4,
        "an option has a value that was not asked",
    ),
];

#[test]
fn option_words(rt: HostRuntime) {
    for &(bytes, name) in &OPTION_NAMES {
        expect_equal(&rt, &(bytes, Name::of(bytes)), &(bytes, name), "a name");
    }
    for &(refusal, number, text) in &REFUSALS {
        let shown = format!(in rt.alloc(); "{refusal}").expect(&rt, "memory");
        let found = (refusal.number(), shown.as_str());
        expect_equal(&rt, &found, &(number, text), "the number and the words");
    }
}
