//! Stores that are set to fail, and the answers of the request port. The answers are those of RFC
//! 1350, section 5 and appendix I.

use crate::expect::expect_equal;
use crate::served::Event::{Datagram, Request};
use crate::served::Found::{Closed, Nothing, Opened};
use crate::served::{Events, play_each};
use crate::stores::{ABC, OldFile, Setup, Writes, has_file, path, store_of, writes};
use std::process::Abort;
use tftp_ends::Outcome;
use tftp_file::{Path, StoreFault};
use tftp_server::Store;

/// A read request for the file `a`.
const READ: &[u8] = b"\x00\x01a\x00octet\x00";

const VIOLATION: &[u8] = b"\x00\x05\x00\x02access violation\x00";

const FILE_CHANGED: &[u8] = b"\x00\x05\x00\x00file changed\x00";

const CANNOT_OPEN: Setup = Setup {
    refused_call: 0,
    refuses_open: true,
    ..ABC
};

const CANNOT_OPEN_FULL: Setup = Setup {
    fault: StoreFault::Full,
    ..CANNOT_OPEN
};

const CANNOT_READ: Setup = Setup {
    refused_call: 0,
    fails_fill: true,
    ..ABC
};

const CANNOT_READ_EMPTY: Setup = Setup {
    file: b"",
    ..CANNOT_READ
};

/// Its first call is refused, and a read makes none.
const REFUSES_WRITES: Setup = Setup {
    refused_call: 0,
    ..ABC
};

static READS: [(Setup, Events); 5] = [
    // Any fault except a missing file is an access violation.
    (
        CANNOT_OPEN,
        &[(Request(1024, 1025, READ), Nothing, VIOLATION)],
    ),
    (
        CANNOT_OPEN_FULL,
        &[(Request(1024, 1025, READ), Nothing, VIOLATION)],
    ),
    // Without an option the answer would be the first block, which cannot be read; nor can an empty
    // one.
    (
        CANNOT_READ,
        &[(Request(1024, 1025, READ), Nothing, FILE_CHANGED)],
    ),
    (
        CANNOT_READ_EMPTY,
        &[(Request(1024, 1025, READ), Nothing, FILE_CHANGED)],
    ),
    // No call of a read is refused: the first block answers, and a transfer opens.
    (
        REFUSES_WRITES,
        &[
            (
                Request(1024, 1025, READ),
                Opened(1025),
                b"\x00\x03\x00\x01ABC",
            ),
            (
                Datagram(1024, 1025, b"\x00\x04\x00\x01"),
                Closed(Outcome::Complete),
                b"",
            ),
        ],
    ),
];

#[test]
fn reads_of_failing_stores(rt: HostRuntime) {
    play_each(&rt, rt.alloc(), &READS);
}

/// The write whose call fails leaves no file, and the next one does.
const REFUSED_BY_IO: Writes = &[
    (b"XY", OldFile::Stays, Err(StoreFault::Io), None),
    (b"XY", OldFile::Stays, Ok(()), Some(b"XY")),
];

const REFUSED_AS_FULL: Writes = &[
    (b"XY", OldFile::Stays, Err(StoreFault::Full), None),
    (b"XY", OldFile::Stays, Ok(()), Some(b"XY")),
];

/// The call that is refused, its fault, and writes of the file `n`, each by three calls.
static WRITES: [(u64, StoreFault, Writes); 7] = [
    (0, StoreFault::Io, REFUSED_BY_IO),
    (0, StoreFault::Full, REFUSED_AS_FULL),
    (1, StoreFault::Io, REFUSED_BY_IO),
    (1, StoreFault::Full, REFUSED_AS_FULL),
    (2, StoreFault::Io, REFUSED_BY_IO),
    (2, StoreFault::Full, REFUSED_AS_FULL),
    // Three calls are passed on. The fourth begins another draft, and returns the injected fault
    // instead of `Exists`.
    (
        3,
        StoreFault::Io,
        &[
            (b"XY", OldFile::Stays, Ok(()), Some(b"XY")),
            (b"XY", OldFile::Stays, Err(StoreFault::Io), Some(b"XY")),
            (b"XY", OldFile::Stays, Err(StoreFault::Exists), Some(b"XY")),
        ],
    ),
];

/// A store below that is set to refuse its next append or commit.
const ARMED: Setup = Setup {
    is_armed: true,
    refused_call: 9,
    ..ABC
};

#[test]
fn one_call_is_refused(rt: HostRuntime) {
    for &(refused_call, fault, rows) in &WRITES {
        let setup = Setup {
            refused_call,
            fault,
            ..ABC
        };
        writes(&rt, rt.alloc(), &setup, b"n", rows);
    }
    writes(&rt, rt.alloc(), &ARMED, b"n", REFUSED_AS_FULL);
}

/// The draft is committed, with this result.
fn commits<S: Store>(
    rt: &impl Abort,
    store: &mut S,
    path: &Path,
    draft: &mut S::Draft,
    expected: Result<(), StoreFault>,
) {
    expect_equal(
        rt,
        &store.commit(path, draft, false),
        &expected,
        "the commit",
    );
}

/// A commit that the inner store is set to refuse is refused, and stores nothing; the next one
/// stores the draft.
#[test]
fn the_inner_store_refuses_a_commit_as_armed(rt: HostRuntime) {
    let path = path(&rt, rt.alloc(), b"n");
    let mut store = store_of(&rt, rt.alloc(), &ARMED);
    let draft = store.begin(rt.alloc(), &path, false);
    let mut draft = draft.expect(&rt, "a draft");
    commits(&rt, &mut store, &path, &mut draft, Err(StoreFault::Full));
    has_file(&rt, &store, &path, None);
    commits(&rt, &mut store, &path, &mut draft, Ok(()));
    has_file(&rt, &store, &path, Some(b""));
}
