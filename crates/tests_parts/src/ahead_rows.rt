//! A source that is read ahead: it gives the bytes of the source below it, in fills of any size.

use crate::calls::{Fill, fills};
use std::alloc::Global;
use std::process::Abort;
use tftp_file::{Ahead, FaultSource, FileFault, Source};
use tftp_wire::Mode;

/// Fills, and how often the source is then read ahead.
type Turn = (&'static [Fill], u32);

/// A file, how many bytes of it are given and whether the source then fails, and turns.
type Scene = (&'static [u8], u64, bool, &'static [Turn]);

static SCENES: [Scene; 3] = [
    // after a block is read ahead, a fill requests less, more, as much, and more than is left
    (
        b"ABCDEFGH",
        8,
        false,
        &[
            (&[(2, Ok(b"AB"))], 2),
            (&[(1, Ok(b"C")), (3, Ok(b"DEF"))], 1),
            (&[(3, Ok(b"GH")), (3, Ok(b""))], 0),
        ],
    ),
    // bytes that were read ahead before a source fails are given first, and after a failed read
    // ahead each fill fails: one byte is left at the first
    (
        b"ABCDEFGH",
        5,
        true,
        &[
            (&[(2, Ok(b"AB"))], 1),
            (&[(2, Ok(b"CD"))], 1),
            (&[(2, Err(FileFault::Read)), (1, Err(FileFault::Read))], 0),
        ],
    ),
    (
        b"ABCDEFGHI",
        9,
        false,
        &[
            (&[(3, Ok(b"ABC"))], 1),
            (&[(3, Ok(b"DEF"))], 1),
            (&[(3, Ok(b"GHI"))], 1),
        ],
    ),
];

/// The source has the results of its fills, in each turn.
fn plays(rt: &impl Abort, alloc: Global, (file, give, fails, turns): Scene) {
    let source = FaultSource::new(alloc, file, Mode::Octet, give, fails);
    let mut source = Ahead::new(alloc, source.expect(rt, "memory"));
    for &(pieces, times) in turns {
        fills(
            rt,
            alloc,
            &mut source,
            pieces,
            "a source that is read ahead",
        );
        for _ in 0..times {
            source.read_ahead();
        }
    }
    drop(source);
}

#[test]
fn sources_are_read_ahead(rt: HostRuntime) {
    for &scene in &SCENES {
        plays(&rt, rt.alloc(), scene);
    }
}
