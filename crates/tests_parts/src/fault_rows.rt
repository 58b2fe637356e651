//! A source that gives less than it should, or fails.

use crate::calls::{Fill, fills};
use tftp_file::{FaultSource, FileFault};
use tftp_wire::Mode;

/// A file and its mode, how many bytes of its wire text are given and whether the source then
/// fails, and fills.
type Shortened = (&'static [u8], Mode, u64, bool, &'static [Fill]);

static SHORTENED: [Shortened; 6] = [
    (
        b"ABCDEFGH",
        Mode::Octet,
        6,
        false,
        &[(4, Ok(b"ABCD")), (4, Ok(b"EF")), (4, Ok(b""))],
    ),
    (
        b"ABCDEFGH",
        Mode::Octet,
        4,
        false,
        &[(4, Ok(b"ABCD")), (4, Ok(b""))],
    ),
    (b"ABCDEFGH", Mode::Octet, 0, false, &[(4, Ok(b""))]),
    (
        b"ABCDEFGH",
        Mode::Octet,
        99,
        false,
        &[(4, Ok(b"ABCD")), (4, Ok(b"EFGH")), (4, Ok(b""))],
    ),
    // a line feed is encoded as CR LF (RFC 764)
    (
        b"A\nB",
        Mode::Netascii,
        2,
        false,
        &[(4, Ok(b"A\r")), (4, Ok(b""))],
    ),
    // the source gives the bytes that it has, and fails only if more are requested: after the first
    // block two bytes are left
    (
        b"ABCDEFGH",
        Mode::Octet,
        6,
        true,
        &[(4, Ok(b"ABCD")), (4, Err(FileFault::Read))],
    ),
];

#[test]
fn a_source_ends_early_or_fails(rt: HostRuntime) {
    for &(bytes, mode, give, fails, pieces) in &SHORTENED {
        let source = FaultSource::new(rt.alloc(), bytes, mode, give, fails);
        let mut source = source.expect(&rt, "memory");
        fills(&rt, rt.alloc(), &mut source, pieces, "a shortened source");
        drop(source);
    }
}
