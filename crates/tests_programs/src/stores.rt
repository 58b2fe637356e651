//! Stores and paths of the tests.

use crate::expect::{expect, expect_equal};
use std::alloc::Global;
use std::process::Abort;
use tftp_file::{Path, StoreFault, path_of};
use tftp_server::{FaultStore, MemStore, Store};

/// A store in memory, of which calls may fail.
pub(crate) type TestStore = FaultStore<MemStore>;

/// What a store holds, which of its calls fail, and the limits of a server over it.
#[derive(Clone, Copy)]
pub(crate) struct Setup {
    /// The bytes of its one file, `a`.
    pub(crate) file: &'static [u8],
    /// Whether the store in memory is set to refuse its next append or commit.
    pub(crate) is_armed: bool,
    /// The call of `begin`, `append` and `commit` that is refused, counted from 0.
    pub(crate) refused_call: u64,
    /// What it returns: `Full`, and else `Io`.
    pub(crate) fault: StoreFault,
    /// Whether every `open` is refused.
    pub(crate) refuses_open: bool,
    /// Whether every `fill` of what it opens fails.
    pub(crate) fails_fill: bool,
    /// The server's limit of transfers.
    pub(crate) cap: u8,
    /// Whether the server replaces files.
    pub(crate) overwrite: bool,
}

/// A store of the three bytes `ABC`, of which no call fails.
pub(crate) const ABC: Setup = Setup {
    file: b"ABC",
    is_armed: false,
    refused_call: u64::MAX,
    fault: StoreFault::Io,
    refuses_open: false,
    fails_fill: false,
    cap: 16,
    overwrite: false,
};

/// The path that a name spells.
pub(crate) fn path(rt: &impl Abort, alloc: Global, name: &[u8]) -> Path {
    path_of(alloc, name).expect(rt, "a path")
}

/// That many bytes, each one more than that before it, from this one on; 0 follows 250.
pub(crate) fn counted_bytes(rt: &impl Abort, alloc: Global, first: u64, length: u64) -> Vec<u8> {
    let mut bytes = Vec::new(alloc);
    for at in 0..length {
        let byte = first.wrapping_add(at) % 251;
        bytes.push(byte as u8).expect(rt, "memory");
    }
    bytes
}

/// The store.
pub(crate) fn store_of(rt: &impl Abort, alloc: Global, setup: &Setup) -> TestStore {
    let bytes = Vec::from_slice(alloc, setup.file).expect(rt, "memory");
    let files = vec![in alloc; (path(rt, alloc, b"a"), bytes)].expect(rt, "memory");
    let mut store = MemStore::new(alloc, files).expect(rt, "memory");
    store.refuse_next(setup.is_armed);
    let (at, refuses, fails) = (setup.refused_call, setup.refuses_open, setup.fails_fill);
    match setup.fault {
        StoreFault::Full => FaultStore::new(store, at, StoreFault::Full, refuses, fails),
        _ => FaultStore::new(store, at, StoreFault::Io, refuses, fails),
    }
}

/// What a write does to the file that already has its name.
#[derive(Clone, Copy)]
pub(crate) enum OldFile {
    Stays,
    IsReplaced,
}

/// Of each write the bytes, what it does to an old file, its result, and the file after it.
pub(crate) type Writes = &'static [(
    &'static [u8],
    OldFile,
    Result<(), StoreFault>,
    Option<&'static [u8]>,
)];

/// A store has these writes of a file of this name. If it is armed, then until the first of them.
pub(crate) fn writes(rt: &impl Abort, alloc: Global, setup: &Setup, name: &[u8], rows: Writes) {
    let path = path(rt, alloc, name);
    let mut store = store_of(rt, alloc, setup);
    expect(rt, store.get_ref().refuses() == setup.is_armed, "armed");
    for (row, &(bytes, old_file, expected, file)) in rows.iter().enumerate() {
        let result = write(&mut store, alloc, &path, bytes, old_file);
        expect_equal(rt, &(row, result), &(row, expected), "the write");
        has_file(rt, &store, &path, file);
    }
    expect(rt, !store.get_ref().refuses(), "disarmed");
}

/// The store has this file of this path, or none.
pub(crate) fn has_file(rt: &impl Abort, store: &TestStore, path: &Path, file: Option<&[u8]>) {
    expect_equal(rt, &store.get_ref().file(path), &file, "the file");
}

/// Writes a file by `begin`, `append` and `commit`.
pub(crate) fn write<S: Store>(
    store: &mut S,
    alloc: Global,
    path: &Path,
    bytes: &[u8],
    old_file: OldFile,
) -> Result<(), StoreFault> {
    let replace = matches!(old_file, OldFile::IsReplaced);
    let mut draft = store.begin(alloc, path, replace)?;
    store.append(&mut draft, bytes)?;
    store.commit(path, &mut draft, replace)
}
