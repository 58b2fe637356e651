//! Random runs of a world, and after each event the safety of the world, by what it returns.
//!
//! Two clients read and two write, with block sizes of their own or without options, one of them in
//! netascii. No byte of a file is that of another file, or of its next block, at the same offset.

use crate::expect::{expect, expect_equal};
use crate::stores::{counted_bytes, path};
use rand_core::SeedableRng;
use rand_pcg::Pcg32;
use std::alloc::Global;
use std::process::Abort;
use tftp_ends::{Endpoint, Record, Side};
use tftp_file::{Path, path_of};
use tftp_negotiate::Asked;
use tftp_player::{Event, World, draw};
use tftp_server::Config;
use tftp_wire::{Bytes, Mode};

/// The runs, each with a seed of its own.
const RUNS: u64 = 100;

/// The events of a run.
const EVENTS: usize = 2_000;

/// The files of a run.
#[derive(Drop)]
struct Files {
    /// The server's `a`: three blocks of 100 bytes, the last of them short.
    a: Vec<u8>,
    /// The server's `b`, with line feeds and CRs: two blocks of 512 bytes of wire text, of which
    /// the last is short.
    b: Vec<u8>,
    /// The file that a client writes under the name `n`: three blocks of 200 bytes and an empty one
    /// (RFC 1350, section 6).
    long: Vec<u8>,
    /// The file that another client writes under that name: one short block.
    short: Vec<u8>,
}

impl Files {
    fn new(rt: &impl Abort, alloc: Global) -> Files {
        Files {
            a: counted_bytes(rt, alloc, 0, 250),
            b: counted_bytes(rt, alloc, 60, 520),
            long: counted_bytes(rt, alloc, 120, 600),
            short: counted_bytes(rt, alloc, 180, 3),
        }
    }

    /// The file of the client at this port.
    fn of(&self, port: u16) -> &[u8] {
        match port {
            1024 => &self.a,
            1025 => &self.b,
            1026 => &self.long,
            _ => &self.short,
        }
    }
}

/// A world whose server has the two files.
fn world_of_two_files(rt: &impl Abort, alloc: Global, files: &Files) -> World {
    let mut config = Config::default();
    config.retries = 10;
    expect(rt, config.is_valid(), "the settings of a server");
    let a = path_of(alloc, b"a").expect(rt, "a path");
    let b = path_of(alloc, b"b").expect(rt, "a path");
    let of_a = Vec::from_slice(alloc, &files.a).expect(rt, "memory");
    let of_b = Vec::from_slice(alloc, &files.b).expect(rt, "memory");
    let files = vec![in alloc; (a, of_a), (b, of_b)].expect(rt, "memory");
    World::new(alloc, files, config).expect(rt, "memory")
}

/// The port of each client, the name and the mode of its request, and its block size, or none. The
/// first two read, and the others write.
static REQUESTS: [(u16, &[u8], Mode, Option<u16>); 4] = [
    (1024, b"a", Mode::Octet, Some(100)),
    (1025, b"b", Mode::Netascii, None),
    (1026, b"n", Mode::Octet, Some(200)),
    (1027, b"n", Mode::Octet, None),
];

/// A world in which the four have sent their requests.
fn asked_world(rt: &impl Abort, alloc: Global, files: &Files) -> World {
    let mut world = world_of_two_files(rt, alloc, files);
    for &(port, name, mode, blksize) in &REQUESTS {
        let name = Bytes::from_slice(alloc, name).expect(rt, "memory");
        let asked = Asked {
            blksize,
            timeout: None,
            tsize: None,
        };
        let report = if port < 1026 {
            world.apply(Event::Get { name, mode, asked })
        } else {
            let bytes = Bytes::from_slice(alloc, files.of(port)).expect(rt, "memory");
            world.apply(Event::Put {
                name,
                mode,
                asked,
                bytes,
            })
        };
        report.expect(rt, "the request is sent");
    }
    world
}

/// The record of the end at this port.
fn record_at(world: &World, port: u16) -> Option<&Record> {
    let index = usize::from(port).checked_sub(1024)?;
    let (_, record) = world.records().get(index)?;
    Some(record)
}

/// How the end at this port is unsafe, if it is. `path` is that of the file that clients write.
///
/// Two ends that have each other as peer have one block size; a sender is complete only with a
/// complete receiver. What a receiver stored is a prefix of its peer's file, and once it is
/// complete all of it, committed, and at the server under its path. An end without a peer receives
/// nothing.
fn danger(
    files: &Files,
    world: &World,
    path: &Path,
    port: u16,
    end: &Record,
) -> Option<&'static str> {
    let Some(address) = end.peer else {
        let has_stored = world.stored(port).is_some_and(|stored| !stored.is_empty());
        return has_stored.then_some("it has stored without a peer");
    };
    let Some(peer) = record_at(world, address.port) else {
        return Some("its peer is no end");
    };
    let host = if end.side.is_client() { 2 } else { 1 };
    let here = Endpoint {
        ip: [10, 0, 0, host],
        port,
    };
    let is_established = peer.peer == Some(here);
    if is_established && end.size != peer.size {
        return Some("another block size than its peer");
    }
    if end.side.is_sender() {
        let is_safe = !end.complete || (is_established && peer.complete);
        return (!is_safe).then_some("it is complete before its peer");
    }
    // the sender's own file if it is a client, else that of its client
    let file = match peer.peer {
        Some(client) if !peer.side.is_client() => files.of(client.port),
        _ => files.of(address.port),
    };
    let Some(stored) = world.stored(port) else {
        return Some("it is no receiver");
    };
    if !file.starts_with(stored) {
        return Some("no prefix of its file");
    }
    if end.complete && (stored != file || !world.committed(port)) {
        return Some("not all of it is committed");
    }
    if end.complete && !end.side.is_client() && world.file(path) != Some(file) {
        return Some("the server has another file");
    }
    None
}

/// Counts over all runs: of clients that have their whole file, of those of them that read in
/// netascii, of senders whose last block was acknowledged, of files that the server committed, and
/// of ends that agreed on another block size than 512.
type Counts = [u64; 5];

/// Counts an end of a run.
fn count(counts: &mut Counts, port: u16, end: &Record) {
    let has_happened = [
        end.complete && end.side == Side::ClientRead,
        end.complete && port == 1025,
        end.complete && end.side.is_sender(),
        end.complete && end.side == Side::ServerWrite,
        end.size != 512,
    ];
    for (count, has_happened) in counts.iter_mut().zip(has_happened) {
        *count = count.saturating_add(u64::from(has_happened));
    }
}

/// An event is drawn and played, and then all ends are safe.
fn steps_safely(rt: &impl Abort, files: &Files, path: &Path, world: &mut World, rng: &mut Pcg32) {
    let event = draw(rng, world).expect(rt, "an event");
    world.apply(event).expect(rt, "what is drawn can happen");
    for (port, end) in world.records() {
        let danger = danger(files, world, path, *port, end);
        expect_equal(rt, &(*port, danger), &(*port, None), "an end is safe");
    }
}

/// A run of one seed, whose ends are counted at its end.
fn runs_safely(rt: &impl Abort, alloc: Global, files: &Files, seed: u64, counts: &mut Counts) {
    let mut world = asked_world(rt, alloc, files);
    let mut rng = Pcg32::seed_from_u64(seed);
    let path = path(rt, alloc, b"n");
    for _ in 0..EVENTS {
        steps_safely(rt, files, &path, &mut world, &mut rng);
    }
    for (port, end) in world.records() {
        count(counts, *port, end);
    }
}

/// Each of what is counted happened in half of the runs at least: the tests of safety are not
/// vacuous.
#[test]
fn random_safe(rt: HostRuntime) {
    let files = Files::new(&rt, rt.alloc());
    let mut counts = [0; 5];
    for seed in 0..RUNS {
        runs_safely(&rt, rt.alloc(), &files, seed, &mut counts);
    }
    for (index, count) in counts.iter().enumerate() {
        let found = (index, *count >= RUNS / 2);
        expect_equal(&rt, &found, &(index, true), "what has happened often");
    }
}
