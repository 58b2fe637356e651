//! Names of requests, and the paths that they stand for.

use crate::expect::{expect, expect_equal};
use std::alloc::Global;
use std::process::Abort;
use tftp_file::{PathFault, path_of};

/// Names, and the path that each stands for, or its first fault. A segment has at most 64 letters,
/// a path at most 8 segments and 255 bytes. The length is tested before the depth, the depth before
/// the segments.
static NAMES: [(&[u8], Result<&[u8], PathFault>); 21] = [
    (b"a/b/c/d/e/f/g/h", Ok(b"a/b/c/d/e/f/g/h")),
    (b"/boot.img", Ok(b"boot.img")),
    (b"A", Ok(b"A")),
    (b"a", Ok(b"a")),
    (b"Z/z/0/9/a.b_c-d", Ok(b"Z/z/0/9/a.b_c-d")),
    (b"", Err(PathFault::Empty)),
    (b"/", Err(PathFault::Empty)),
    (b"//a", Err(PathFault::Segment)),
    (b"a/", Err(PathFault::Segment)),
    (b"a/./b", Err(PathFault::Segment)),
    (b".a", Err(PathFault::Segment)),
    (b"a b", Err(PathFault::Segment)),
    (b"a/\xe4", Err(PathFault::Segment)),
    (b"a/b/c/d/e/f/g/h/i", Err(PathFault::Depth)),
    (b"a/a/a/a/a/a/a/a", Ok(b"a/a/a/a/a/a/a/a")),
    (b"a/a/a/a/a/a/a/a/a", Err(PathFault::Depth)),
    (&[b'a'; 64], Ok(&[b'a'; 64])),
    (&[b'a'; 65], Err(PathFault::Segment)),
    (LONGEST, Ok(LONGEST)),
    (TOO_LONG, Err(PathFault::Length)),
    (DEEPEST, Err(PathFault::Depth)),
];

/// Four segments of 63 letters each: 255 bytes.
const LONGEST: &[u8] = b"\
aaaaaaaaaaaaaaaaaaaaaaaaaaaaaaaaaaaaaaaaaaaaaaaaaaaaaaaaaaaaaaa/\
aaaaaaaaaaaaaaaaaaaaaaaaaaaaaaaaaaaaaaaaaaaaaaaaaaaaaaaaaaaaaaa/\
aaaaaaaaaaaaaaaaaaaaaaaaaaaaaaaaaaaaaaaaaaaaaaaaaaaaaaaaaaaaaaa/\
aaaaaaaaaaaaaaaaaaaaaaaaaaaaaaaaaaaaaaaaaaaaaaaaaaaaaaaaaaaaaaa";

/// A segment of 64 letters and three of 63: 256 bytes.
const TOO_LONG: &[u8] = b"a\
aaaaaaaaaaaaaaaaaaaaaaaaaaaaaaaaaaaaaaaaaaaaaaaaaaaaaaaaaaaaaaa/\
aaaaaaaaaaaaaaaaaaaaaaaaaaaaaaaaaaaaaaaaaaaaaaaaaaaaaaaaaaaaaaa/\
aaaaaaaaaaaaaaaaaaaaaaaaaaaaaaaaaaaaaaaaaaaaaaaaaaaaaaaaaaaaaaa/\
aaaaaaaaaaaaaaaaaaaaaaaaaaaaaaaaaaaaaaaaaaaaaaaaaaaaaaaaaaaaaaa";

/// 128 segments of one letter, 32 on a line: 255 bytes.
const DEEPEST: &[u8] = b"\
a/a/a/a/a/a/a/a/a/a/a/a/a/a/a/a/a/a/a/a/a/a/a/a/a/a/a/a/a/a/a/a/\
a/a/a/a/a/a/a/a/a/a/a/a/a/a/a/a/a/a/a/a/a/a/a/a/a/a/a/a/a/a/a/a/\
a/a/a/a/a/a/a/a/a/a/a/a/a/a/a/a/a/a/a/a/a/a/a/a/a/a/a/a/a/a/a/a/\
a/a/a/a/a/a/a/a/a/a/a/a/a/a/a/a/a/a/a/a/a/a/a/a/a/a/a/a/a/a/a/a";

fn stands_for(rt: &impl Abort, alloc: Global, name: &[u8], expected: Result<&[u8], PathFault>) {
    let path = path_of(alloc, name);
    let found = match &path {
        Ok(path) => Ok(path.as_bytes()),
        Err(fault) => Err(*fault),
    };
    expect_equal(rt, &(name, found), &(name, expected), "the path of a name");
    drop(path);
}

#[test]
fn paths_of_names(rt: HostRuntime) {
    for &(name, expected) in &NAMES {
        stands_for(&rt, rt.alloc(), name, expected);
    }
    let number = PathFault::Segment.number();
    expect_equal(&rt, &number, &2, "the number of the fault");
}

#[test]
fn case_counts(rt: HostRuntime) {
    let rt = &rt;
    let upper = path_of(rt.alloc(), b"A").expect(rt, "a path");
    let lower = path_of(rt.alloc(), b"a").expect(rt, "a path");
    expect(rt, upper < lower, "two paths, in the order of their bytes");
    drop(upper);
    drop(lower);
}
