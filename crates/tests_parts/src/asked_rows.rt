//! The options that a client may request (RFC 2348, "Blocksize Option Specification"; RFC 2349,
//! "Timeout Interval Option Specification" and "Transfer Size Option Specification").

use crate::expect::{expect, expect_equal};
use crate::open_end::NOTHING;
use crate::option_rows::{NETASCII, OCTET, READ, WRITE};
use tftp_negotiate::{Asked, Kind, is_block_size, is_timeout};
use tftp_wire::Mode;

/// Block sizes, and whether each may be requested (RFC 2348, "Blocksize Option Specification").
static SIZES: [(u16, bool); 6] = [
    (7, false),
    (8, true),
    (65_464, true),
    (65_465, false),
    (0, false),
    (65_535, false),
];

#[test]
fn asked_sizes(rt: HostRuntime) {
    for &(size, expected) in &SIZES {
        let asked = Asked {
            blksize: Some(size),
            ..NOTHING
        };
        let (in_read, at_all) = (asked.is_for(READ, OCTET, 0), asked.is_askable());
        let found = (size, in_read, at_all, is_block_size(u64::from(size)));
        expect_equal(
            &rt,
            &found,
            &(size, expected, expected, expected),
            "blksize",
        );
    }
}

/// Timeouts in seconds, and whether each may be requested (RFC 2349, "Timeout Interval Option
/// Specification").
static SECONDS: [(u8, bool); 3] = [(0, false), (1, true), (255, true)];

#[test]
fn asked_seconds(rt: HostRuntime) {
    for &(seconds, expected) in &SECONDS {
        let asked = Asked {
            timeout: Some(seconds),
            ..NOTHING
        };
        let is_for_write = asked.is_for(WRITE, NETASCII, 9);
        let found = (seconds, is_for_write, is_timeout(u64::from(seconds)));
        expect_equal(&rt, &found, &(seconds, expected, expected), "timeout");
    }
}

/// Lengths, and whether each may be requested for a file of 9 bytes (RFC 2349, "Transfer Size
/// Option Specification").
static ASKED_LENGTHS: [(Kind, Mode, u64, bool); 6] = [
    (READ, OCTET, 0, true),
    (READ, OCTET, 9, false),
    (WRITE, OCTET, 9, true),
    (WRITE, OCTET, 0, false),
    (READ, NETASCII, 5, true),
    (WRITE, NETASCII, 5, true),
];

#[test]
fn asked_lengths(rt: HostRuntime) {
    for &(kind, mode, tsize, expected) in &ASKED_LENGTHS {
        let asked = Asked {
            tsize: Some(tsize),
            ..NOTHING
        };
        let may_ask = (kind, mode, tsize, asked.is_for(kind, mode, 9));
        expect_equal(&rt, &may_ask, &(kind, mode, tsize, expected), "tsize");
    }
    expect(&rt, NOTHING.is_for(READ, OCTET, 9), "nothing may be asked");
    expect_equal(&rt, &Asked::default(), &NOTHING, "the default");
    expect_equal(&rt, &NOTHING.tsize_in(OCTET), &None, "no length");
}
