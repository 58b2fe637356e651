//! Runs of `tftp-play` over memory whose streams fail.

use crate::expect::expect_equal;
use crate::faulty_streams::{Input, Output, Takes};
use std::io::{self, ErrorKind};
use tftp_play::{play_drawn, play_run};

/// A run that fails, and plays nothing.
struct Run {
    script: &'static [u8],
    /// Whether the script cannot be read to its end.
    breaks: bool,
    output: Takes,
    errors: Takes,
    message: &'static [u8],
}

static RUNS: [Run; 4] = [
    Run {
        script: b"get a octet\n",
        breaks: true,
        output: Takes::All,
        errors: Takes::All,
        message: b"script: unreadable\ntftp-play: the script: timed out\n",
    },
    Run {
        script: b"get a octet\n",
        breaks: false,
        output: Takes::Full,
        errors: Takes::All,
        message: b"output: unwritable\n",
    },
    Run {
        script: b"get a octet\n",
        breaks: false,
        output: Takes::Closed,
        errors: Takes::All,
        message: b"",
    },
    Run {
        script: b"\xff\n",
        breaks: false,
        output: Takes::All,
        errors: Takes::Full,
        message: b"",
    },
];

#[test]
fn runs_that_fail(rt: HostRuntime) {
    for (row, run) in RUNS.iter().enumerate() {
        let script = Input {
            bytes: run.script,
            breaks: run.breaks,
        };
        let mut output = Output::new(rt.alloc(), run.output);
        let mut errors = Output::new(rt.alloc(), run.errors);
        let status = play_run(rt.alloc(), script, &mut output, &mut errors);
        let found = (
            row,
            status,
            output.bytes.as_slice(),
            errors.bytes.as_slice(),
        );
        let expected = (row, 2, b"".as_slice(), run.message);
        expect_equal(&rt, &found, &expected, "the status, output and message");
    }
}

/// If the picture cannot be opened, the output is that without it.
#[test]
fn no_picture(rt: HostRuntime) {
    let mut output = Vec::new(rt.alloc());
    let mut errors = Vec::new(rt.alloc());
    let status = play_drawn(
        rt.alloc(),
        b"deliver 0\n".as_slice(),
        &mut output,
        || -> io::Result<Output> { Err(io::Error::from(ErrorKind::NotFound)) },
        &mut errors,
    );
    let found = (status, output.as_slice(), errors.as_slice());
    let expected = (
        2,
        b"refused NoSuchDatagram\n".as_slice(),
        b"svg: unwritable\ntftp-play: the picture: no such file or directory\n".as_slice(),
    );
    expect_equal(&rt, &found, &expected, "the status, output and message");
}
