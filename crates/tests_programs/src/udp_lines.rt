//! The lines that the programs over UDP print.

use crate::expect::expect_equal;
use std::alloc::Global;
use std::fmt::Display;
use std::io;
use std::process::Abort;
use tftp_ends::{Endpoint, OpenFault, Outcome};
use tftp_lines::{
    ClientOutcome, Hint, LineClock, LogLine, Logged, Lost, Printed, ProgressLine, Reason,
    RequestLine, StampedLine, UtcTime, Why, reason_of,
};

/// Each value prints this.
fn prints_each<D: Display>(rt: &impl Abort, alloc: Global, rows: &[(D, &str)]) {
    for (value, expected) in rows {
        let text = value.to_string(alloc).expect(rt, "memory");
        expect_equal(rt, &text.as_str(), expected, "what is printed");
    }
}

/// The last line of `tftp`.
static CLIENT_ENDS: [(ClientOutcome, &str); 5] = [
    (ClientOutcome::Complete(3), "complete 3"),
    (
        ClientOutcome::Failed(Outcome::PeerError(1)),
        "tftp: PeerError(1)",
    ),
    (ClientOutcome::FileFault, "tftp: file fault"),
    (ClientOutcome::SocketFault, "tftp: socket fault"),
    (
        ClientOutcome::NotOpened(OpenFault::BadRequest),
        "tftp: BadRequest",
    ),
];

/// The status of `tftp`: 0 for a complete transfer, 1 for one that failed, and 2 if none was
/// opened.
static STATUSES: [(ClientOutcome, u8); 3] = [
    (ClientOutcome::Complete(0), 0),
    (ClientOutcome::Failed(Outcome::TimedOut), 1),
    (ClientOutcome::NotOpened(OpenFault::TooLarge), 2),
];

#[test]
fn client_ends(rt: HostRuntime) {
    prints_each(&rt, rt.alloc(), &CLIENT_ENDS);
    for (end, status) in &STATUSES {
        expect_equal(&rt, &(end, end.status()), &(end, *status), "the status");
    }
}

/// The lines of `tftpd`: the address that it listens on, and each transfer that closed.
static SERVER_LINES: [(Printed, &str); 2] = [
    (
        Printed::Listening(Endpoint {
            ip: [127, 0, 0, 1],
            port: 6969,
        }),
        "listening 127.0.0.1:6969",
    ),
    (
        Printed::Closed {
            port: 40000,
            peer: 2000,
            outcome: Outcome::Complete,
        },
        "40000 2000 Complete",
    ),
];

/// The peer that the lines of a log name.
const PEER: Endpoint = Endpoint {
    ip: [10, 0, 0, 2],
    port: 1024,
};

/// Datagrams from that peer.
const READ_A: RequestLine = RequestLine {
    peer: PEER,
    line: "RRQ a octet",
};

const READ_B: RequestLine = RequestLine {
    peer: PEER,
    line: "RRQ b octet",
};

const STOP: RequestLine = RequestLine {
    peer: PEER,
    line: "ERROR 0 (stop)",
};

/// The lines of a log: of datagrams at the request port, of a request that the system refused a
/// file, of two that were lost, and of a transfer that has closed.
static LOG_LINES: [(LogLine, &str); 7] = [
    (
        LogLine::Opened {
            port: 1025,
            request: READ_A,
            answer: "DATA 1 3",
        },
        "opened 1025 10.0.0.2:1024 RRQ a octet: DATA 1 3",
    ),
    (
        LogLine::Refused {
            request: READ_B,
            answer: "ERROR 1 (file not found)",
            reason: None,
        },
        "refused 10.0.0.2:1024 RRQ b octet: ERROR 1 (file not found)",
    ),
    (
        LogLine::Ignored { request: STOP },
        "ignored 10.0.0.2:1024 ERROR 0 (stop)",
    ),
    (
        LogLine::Refused {
            request: READ_B,
            answer: "ERROR 2 (access violation)",
            reason: Some(Reason::TooManyOpenFiles),
        },
        "refused 10.0.0.2:1024 RRQ b octet: ERROR 2 (access violation), too many open files",
    ),
    (
        LogLine::Lost {
            request: READ_B,
            lost: Lost::Port(Some(Reason::AddressInUse)),
        },
        "lost 10.0.0.2:1024 RRQ b octet: no port, address in use",
    ),
    (
        LogLine::Lost {
            request: READ_B,
            lost: Lost::Client(4),
        },
        "lost 10.0.0.2:1024 RRQ b octet: 4 transfers of this client",
    ),
    (
        LogLine::Closed {
            port: 1025,
            request: READ_A,
            answer: "DATA 1 3",
            bytes: 3,
            millis: 12,
            again: 1,
            outcome: Outcome::PeerError(3),
            why: Some(Why::Error("ERROR 3 (disk full)")),
            hint: Some(Hint::Listen),
        },
        "closed 1025 10.0.0.2:1024 RRQ a octet: DATA 1 3, 3 bytes, 12 ms, 1 sent again, \
         PeerError(3), ERROR 3 (disk full), answered from another address? --listen",
    ),
];

/// Lines as systemd's journal gets them: a warning has its priority, and another line has none.
static JOURNAL_LINES: [(Logged, &str); 2] = [
    (
        Logged {
            line: LogLine::Ignored { request: STOP },
            has_priority: true,
        },
        "ignored 10.0.0.2:1024 ERROR 0 (stop)",
    ),
    (
        Logged {
            line: LogLine::Lost {
                request: READ_B,
                lost: Lost::Memory,
            },
            has_priority: true,
        },
        "<4>lost 10.0.0.2:1024 RRQ b octet: out of memory",
    ),
];

#[test]
fn server_lines(rt: HostRuntime) {
    prints_each(&rt, rt.alloc(), &SERVER_LINES);
    prints_each(&rt, rt.alloc(), &LOG_LINES);
    prints_each(&rt, rt.alloc(), &JOURNAL_LINES);
}

/// The bytes transferred, the total, the time in milliseconds, and the line of them: a megabyte in
/// 80 ms is 12.5 MB/s.
static PROGRESS_LINES: [(u64, Option<u64>, u64, &str); 8] = [
    (1_000_000, None, 80, "1000000 bytes, 12.5 MB/s"),
    (
        999,
        Some(1_000),
        1_000,
        "999 bytes, 99%, 0.9 KB/s, 1 s left",
    ),
    (0, Some(0), 0, "0 bytes, 100%, 0.0 KB/s"),
    (0, Some(5), 0, "0 bytes, 0%, 0.0 KB/s"),
    (999_999, None, 1_000, "999999 bytes, 999.9 KB/s"),
    (1_000_000, None, 1_000, "1000000 bytes, 1.0 MB/s"),
    (
        25_600,
        Some(102_400),
        1_000,
        "25600 bytes, 25%, 25.6 KB/s, 3 s left",
    ),
    (1, Some(400_000), 1_000, "1 bytes, 0%, 0.0 KB/s"),
];

#[test]
fn progress_lines(rt: HostRuntime) {
    for &(bytes, total, millis, expected) in &PROGRESS_LINES {
        let line = ProgressLine {
            bytes,
            total,
            millis,
        };
        prints_each(&rt, rt.alloc(), &[(line, expected)]);
    }
}

/// Times in milliseconds, and whether a line is due: ten a second at most.
static LINES: [(u64, bool); 6] = [
    (5, true),
    (6, false),
    (104, false),
    (105, true),
    (105, false),
    (900, true),
];

#[test]
fn lines_are_rare(rt: HostRuntime) {
    let mut clock = LineClock::default();
    for &(now, is_due) in &LINES {
        let found = (now, clock.take_due(now));
        expect_equal(&rt, &found, &(now, is_due), "whether a line is due");
    }
}

/// Words, a time in milliseconds and the number of a server, and the line of them. Times are as
/// `date -u` prints them, the last second of a leap day and the last that has a text among them; a
/// later time has none. The priority of a warning stays before the time, and the server is behind
/// it.
static STAMPED_LINES: [(&str, u64, Option<u8>, &str); 8] = [
    ("words", 0, None, "1970-01-01T00:00:00.000Z words"),
    (
        "words",
        951_868_799_005,
        None,
        "2000-02-29T23:59:59.005Z words",
    ),
    (
        "words",
        1_795_889_411_123,
        None,
        "2026-11-28T18:10:11.123Z words",
    ),
    (
        "words",
        253_402_207_200_999,
        None,
        "9999-12-30T22:00:00.999Z words",
    ),
    ("words", 253_402_207_201_000, None, "words"),
    ("words", u64::MAX, None, "words"),
    (
        "<4>lost",
        1,
        Some(12),
        "<4>1970-01-01T00:00:00.001Z server 12: lost",
    ),
    ("opened <4>", u64::MAX, Some(1), "server 1: opened <4>"),
];

#[test]
fn stamped_lines(rt: HostRuntime) {
    for &(words, millis, server, expected) in &STAMPED_LINES {
        let line = StampedLine::of(words, UtcTime::at(millis), server);
        prints_each(&rt, rt.alloc(), &[(line, expected)]);
    }
}

/// Numbers of errno(3), and their words; the last has none.
static REASONS: [(i32, &str); 5] = [
    (16, "busy"),
    (17, "file exists"),
    (21, "is a folder"),
    (39, "folder not empty"),
    (133, "system error 133"),
];

#[test]
fn reasons_have_words(rt: HostRuntime) {
    for &(number, words) in &REASONS {
        let reason = reason_of(&io::Error::from_raw_os_error(number));
        prints_each(&rt, rt.alloc(), &[(reason, words)]);
    }
}
