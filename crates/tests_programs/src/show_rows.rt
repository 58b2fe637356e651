//! Runs of `tftp-show` over memory whose streams fail, and its lines alone.

use crate::expect::{expect, expect_equal};
use crate::faulty_streams::{Input, Output, Takes};
use tftp_show::{show_lines, show_reported, show_run};

const UNREADABLE: &[u8] = b"tftp-show: input unreadable\n";

const UNWRITABLE: &[u8] = b"tftp-show: output unwritable\n";

/// What is read, whether the reader fails then, what the writer does, and the message of a run that
/// fails.
static RUNS: [(&[u8], bool, Takes, &[u8]); 5] = [
    (b"", true, Takes::All, UNREADABLE),
    (b"00040000\n", true, Takes::All, UNREADABLE),
    (b"00040000\n0004", true, Takes::All, UNREADABLE),
    (b"00040000\n", false, Takes::Full, UNWRITABLE),
    (b"00040000\n", false, Takes::Closed, b""),
];

#[test]
fn failures_are_two_and_have_a_line(rt: HostRuntime) {
    for (row, &(bytes, breaks, takes, message)) in RUNS.iter().enumerate() {
        let output = Output::new(rt.alloc(), takes);
        let status = show_run(rt.alloc(), Input { bytes, breaks }, output);
        expect_equal(&rt, &(row, status), &(row, 2), "the status");
        let output = Output::new(rt.alloc(), takes);
        let mut errors = Vec::new(rt.alloc());
        let status = show_reported(rt.alloc(), Input { bytes, breaks }, output, &mut errors);
        let found = (row, status, errors.as_slice());
        expect_equal(&rt, &found, &(row, 2, message), "the status and message");
    }
}

/// The lines alone, for a reader and a writer that the caller owns.
#[test]
fn lines_are_appended(rt: HostRuntime) {
    let mut output = Vec::from_slice(rt.alloc(), b"old\n").expect(&rt, "memory");
    let mut input = b"00040000\n0".as_slice();
    let packets = show_lines(rt.alloc(), &mut input, &mut output);
    expect(&rt, packets == Ok(false), "one is no packet");
    let expected = b"old\nACK 0\nnot hex\n".as_slice();
    expect_equal(&rt, &output.as_slice(), &expected, "behind the old bytes");
}
