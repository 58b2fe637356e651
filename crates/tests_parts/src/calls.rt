//! Calls of a source or a sink, through its trait, and what each returns.

use crate::expect::expect_equal;
use std::alloc::Global;
use std::process::Abort;
use tftp_file::{FileFault, Sink, Source, StoreFault};

/// A fill: how many bytes it requests, and the piece that it gives, or its fault.
pub(crate) type Fill = (usize, Result<&'static [u8], FileFault>);

/// The bytes in a buffer before a fill: the header of DATA 1, to which a block is appended (RFC
/// 1350, section 5).
const HEADER: &[u8] = b"\x00\x03\x00\x01";

/// The next fill of the source appends its piece to the header, or leaves the header alone.
fn fills_once<S: Source>(
    rt: &impl Abort,
    source: &mut S,
    (want, expected): Fill,
    out: &mut Vec<u8>,
    what: &str,
) {
    out.truncate(HEADER.len());
    let filled = source.fill(want, out);
    let (count, piece) = match expected {
        Ok(piece) => (Ok(piece.len()), piece),
        Err(fault) => (Err(fault), b"".as_slice()),
    };
    let found = (want, filled, out.strip_prefix(HEADER));
    expect_equal(rt, &found, &(want, count, Some(piece)), what);
}

/// The source has these results for fills in turn; `what` names the source.
pub(crate) fn fills<S: Source>(
    rt: &impl Abort,
    alloc: Global,
    source: &mut S,
    fills: &[Fill],
    what: &str,
) {
    let mut out = Vec::from_slice(alloc, HEADER).expect(rt, "memory");
    for &fill in fills {
        fills_once(rt, source, fill, &mut out, what);
    }
}

/// A call on a sink.
#[derive(Clone, Copy)]
pub(crate) enum SinkCall {
    Append(&'static [u8]),
    Commit,
}

/// Calls the sink.
pub(crate) fn calls<K: Sink>(sink: &mut K, call: SinkCall) -> Result<(), StoreFault> {
    match call {
        SinkCall::Append(bytes) => sink.append(bytes),
        SinkCall::Commit => sink.commit(),
    }
}
