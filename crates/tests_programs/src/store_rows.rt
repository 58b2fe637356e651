//! A store in memory, and a server without transfers.

use crate::expect::{expect, expect_equal};
use crate::stores::{ABC, OldFile, Setup, Writes, path, write, writes};
use std::alloc::Global;
use std::process::Abort;
use tftp_file::StoreFault;
use tftp_server::{Config, MemStore, Server, ServerFault, Store};
use tftp_wire::Mode;

const EXISTS: Result<(), StoreFault> = Err(StoreFault::Exists);

/// A name is given once. A store that is set to replace accepts a second file of the name, and
/// holds the newer.
const REPLACED: Writes = &[
    (b"AB\n", OldFile::Stays, Ok(()), Some(b"AB\n")),
    (b"C", OldFile::Stays, EXISTS, Some(b"AB\n")),
    (b"C", OldFile::IsReplaced, Ok(()), Some(b"C")),
];

/// A call of a store is refused once.
const REFUSED_ONCE: Writes = &[
    (b"A", OldFile::Stays, Err(StoreFault::Full), None),
    (b"A", OldFile::Stays, Ok(()), Some(b"A")),
];

#[test]
fn a_file_is_there_after_its_commit(rt: HostRuntime) {
    writes(&rt, rt.alloc(), &ABC, b"/a/b", REPLACED);
    let armed = Setup {
        is_armed: true,
        ..ABC
    };
    writes(&rt, rt.alloc(), &armed, b"/a/b", REFUSED_ONCE);
}

/// An empty store.
fn empty(rt: &impl Abort, alloc: Global) -> MemStore {
    MemStore::new(alloc, Vec::new(alloc)).expect(rt, "memory")
}

/// The length of the file `/a/b` on the wire.
fn length(rt: &impl Abort, alloc: Global, store: &MemStore, mode: Mode) -> Result<u64, StoreFault> {
    let path = path(rt, alloc, b"/a/b");
    Ok(store.open(alloc, &path, mode)?.length)
}

/// A line feed travels as CR LF in netascii (RFC 764).
#[test]
fn a_file_has_its_length_on_the_wire(rt: HostRuntime) {
    let mut store = empty(&rt, rt.alloc());
    let missing = length(&rt, rt.alloc(), &store, Mode::Octet);
    let path = path(&rt, rt.alloc(), b"/a/b");
    let written = write(&mut store, rt.alloc(), &path, b"AB\n", OldFile::Stays);
    let octet = length(&rt, rt.alloc(), &store, Mode::Octet);
    let netascii = length(&rt, rt.alloc(), &store, Mode::Netascii);
    let found = (missing, written, octet, netascii);
    let expected = (Err(StoreFault::Missing), Ok(()), Ok(3), Ok(4));
    expect_equal(
        &rt,
        &found,
        &expected,
        "before it is written, and in each mode",
    );
}

/// The server holds no transfer.
fn holds_none<S: Store + Drop>(rt: &impl Abort, alloc: Global, server: &mut Server<S>) {
    let mut tids = Vec::new(alloc);
    let appended = server.tids(&mut tids);
    expect_equal(rt, &(appended, tids.len()), &(Ok(()), 0), "no identifier");
    expect(rt, server.record(1025).is_none(), "no record");
    expect(rt, server.take_closed(1025).is_none(), "nothing to take");
}

/// A timeout finds no transfer.
fn has_no_timeout<S: Store>(rt: &impl Abort, alloc: Global, server: &mut Server<S>) {
    let mut out = Vec::new(alloc);
    let timeout = server.on_timeout(1025, &mut out);
    expect_equal(rt, &timeout, &Err(ServerFault::NoSuchTid), "a timeout");
}

/// A server without transfers, which lends its store.
#[test]
fn a_new_server_holds_no_transfer(rt: HostRuntime) {
    let config = Config::default();
    expect(&rt, config.is_valid(), "the default");
    let server = Server::new(rt.alloc(), config, empty(&rt, rt.alloc()));
    let mut server = server.expect(&rt, "a server");
    holds_none(&rt, rt.alloc(), &mut server);
    has_no_timeout(&rt, rt.alloc(), &mut server);
    server.store_mut().refuse_next(true);
    expect(&rt, server.store().refuses(), "what it was told");
}
