//! The waiting times of the programs, and when a transfer is tried again without options.

use crate::expect::{expect, expect_equal};
use tftp_client::fallback;
use tftp_ends::Outcome;
use tftp_negotiate::Asked;
use tftp_sockets::{Port, Watch, deadline, index_of, is_due, wait_for};

/// Readings of a clock, from 5,000 on, and the time in milliseconds: a wait counts for a second at
/// most, and a clock that goes back counts for nothing.
static READINGS: [(u64, u64); 5] = [
    (5_200, 200),
    (5_200, 200),
    (9_999, 1_200),
    (1_000, 1_200),
    (1_001, 1_201),
];

/// The seconds until a timeout, and when a transfer of the time 700 is due.
static DEADLINES: [(u16, u64); 2] = [(1, 1_700), (2_040, 2_040_700)];

#[test]
fn a_watch_goes_on_until_a_transfer_is_due(rt: HostRuntime) {
    let mut watch = Watch::new(5_000);
    for &(reading, time) in &READINGS {
        let found = (reading, watch.advance(reading));
        expect_equal(&rt, &found, &(reading, time), "the time");
    }
    for &(seconds, expected) in &DEADLINES {
        let found = (u64::from(seconds), deadline(700, seconds));
        expect_equal(
            &rt,
            &found,
            &(u64::from(seconds), expected),
            "when it is due",
        );
    }
    expect(&rt, !is_due(1_699, 1_700), "before it");
    expect(&rt, is_due(1_700, 1_700), "at the time");
}

/// The port of a transfer, and when it is looked at.
fn port(tid: u16, look_at: u64) -> Port<()> {
    Port {
        tid,
        look_at,
        is_ready: false,
        socket: (),
    }
}

/// The nearest deadline is waited for, or a second without a port.
#[test]
fn the_nearest_deadline_is_waited_for(rt: HostRuntime) {
    let ports = [port(1030, 900), port(1025, 750), port(1027, 800)];
    let waits = (
        wait_for(700, &ports),
        wait_for(760, &ports),
        wait_for::<()>(700, &[]),
    );
    expect_equal(
        &rt,
        &waits,
        &(50, 0, 1_000),
        "the nearest, one that has come, none",
    );
    let found = (index_of(1027, &ports), index_of(1040, &ports));
    expect_equal(&rt, &found, &(Some(2), None), "the third port, and no port");
}

/// Outcomes, whether a block size was requested, and whether the transfer is tried again.
static OUTCOMES: [(Outcome, Option<u16>, bool); 4] = [
    (Outcome::PeerError(8), Some(8), true),
    (Outcome::PeerError(8), None, false),
    (Outcome::PeerError(0), Some(8), false),
    (Outcome::TimedOut, Some(8), false),
];

/// ERROR 8 refuses options (RFC 2347, "Negotiation Protocol").
#[test]
fn options_are_left_out_where_they_are_refused(rt: HostRuntime) {
    for &(outcome, blksize, expected) in &OUTCOMES {
        let asked = Asked {
            blksize,
            timeout: None,
            tsize: None,
        };
        let found = (outcome, blksize, fallback(outcome, &asked));
        let expected = (outcome, blksize, expected);
        expect_equal(&rt, &found, &expected, "whether it is tried again");
    }
}
