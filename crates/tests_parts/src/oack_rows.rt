//! The length that an OACK states (RFC 2349, "Transfer Size Option Specification").

use crate::expect::expect_equal;
use crate::packet_rows::options_in;
use tftp_negotiate::stated_tsize;

/// OACKs, and the length of the file that each states. The first echoes the length of the write
/// request that RFC 2349 shows ("Transfer Size Option Specification").
static STATED_LENGTHS: [(&[u8], Option<u64>); 3] = [
    (b"\0\x06tsize\0673312\0", Some(673_312)),
    (b"\0\x06blksize\01428\0TSIZE\00\0", Some(0)),
    (b"\0\x06blksize\01428\0timeout\03\0", None),
];

#[test]
fn oacks_state_lengths(rt: HostRuntime) {
    for &(oack, length) in &STATED_LENGTHS {
        let stated = stated_tsize(&options_in(&rt, oack));
        expect_equal(&rt, &(oack, stated), &(oack, length), "the length");
    }
}
