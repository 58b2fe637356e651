//! Scenes at a server: what happens there in turn, and what is found after each event.

use crate::expect::{expect, expect_equal};
use crate::stores::{Setup, TestStore, path, store_of};
use std::alloc::Global;
use std::process::Abort;
use tftp_ends::{Endpoint, Outcome, Step};
use tftp_server::{Config, Opened, Server, ServerFault};

/// The client at this port.
pub(crate) fn client(port: u16) -> Endpoint {
    Endpoint {
        ip: [10, 0, 0, 2],
        port,
    }
}

/// An event at a server, or a question to it. A transfer goes by its identifier.
#[derive(Clone, Copy)]
pub(crate) enum Event<'a> {
    /// A datagram from the client at this port arrives at the request port. A transfer that it
    /// opens gets the identifier.
    Request(u16, u16, &'a [u8]),
    /// A datagram from the client at this port arrives at the transfer.
    Datagram(u16, u16, &'a [u8]),
    /// The transfer handles a timeout.
    Timeout(u16),
    /// The transfer is taken if it is closed.
    Take(u16),
    /// Could a datagram from the client at this port open a transfer, by the tests that need no
    /// store?
    MayOpen(u16, &'a [u8]),
    /// Is the transfer's draft committed?
    Draft(u16),
    /// Is there a file of this name in the store?
    File(&'a [u8]),
}

/// What is found after an event, beside the bytes that are sent, stored or in the file.
#[derive(Clone, Copy, Debug, PartialEq)]
pub(crate) enum Found {
    /// No transfer opens or closes, or there is no such transfer.
    Nothing,
    /// A transfer with this identifier opens.
    Opened(u16),
    /// The transfer closes, or had closed, with this outcome.
    Closed(Outcome),
    /// The answer to a question.
    Is(bool),
    /// The event is not handled.
    Fault(ServerFault),
}

/// The events of a scene in turn, and after each what is found and which bytes.
pub(crate) type Events<'a> = &'a [(Event<'a>, Found, &'a [u8])];

/// Plays the events of each scene at a server of its own.
pub(crate) fn play_each(rt: &impl Abort, alloc: Global, scenes: &[(Setup, Events<'_>)]) {
    for (setup, events) in scenes {
        let mut server = server_of(rt, alloc, setup);
        play(rt, alloc, &mut server, *events);
    }
}

/// A server over the store.
pub(crate) fn server_of(rt: &impl Abort, alloc: Global, setup: &Setup) -> Server<TestStore> {
    let mut config = Config::default();
    config.cap = setup.cap;
    config.overwrite = setup.overwrite;
    expect(rt, config.is_valid(), "the settings of a server");
    let store = store_of(rt, alloc, setup);
    Server::new(alloc, config, store).expect(rt, "a server")
}

/// The events happen in turn.
pub(crate) fn play(
    rt: &impl Abort,
    alloc: Global,
    server: &mut Server<TestStore>,
    events: Events<'_>,
) {
    let mut out = Vec::new(alloc);
    for (row, &(event, expected, bytes)) in events.iter().enumerate() {
        out.clear();
        let found = after(rt, alloc, server, event, &mut out);
        let found = (row, found, out.as_slice());
        expect_equal(rt, &found, &(row, expected, bytes), "what is found");
    }
}

/// What is found after the event; the bytes are appended.
fn after(
    rt: &impl Abort,
    alloc: Global,
    server: &mut Server<TestStore>,
    event: Event<'_>,
    out: &mut Vec<u8>,
) -> Found {
    match event {
        Event::Request(port, tid, bytes) => {
            let opened = server.on_request(client(port), tid, bytes, out);
            after_request(rt, client(port), opened)
        }
        Event::Datagram(port, tid, bytes) => {
            after_step(server.on_datagram(tid, client(port), bytes, out))
        }
        Event::Timeout(tid) => after_step(server.on_timeout(tid, out)),
        Event::Take(tid) => take(rt, server, tid, out),
        Event::MayOpen(port, bytes) => match server.may_open(client(port), bytes) {
            Ok(may_open) => Found::Is(may_open),
            Err(fault) => Found::Fault(fault),
        },
        Event::Draft(tid) => {
            let draft = server.draft(tid).expect(rt, "a draft");
            out.extend_from_slice(draft.as_bytes()).expect(rt, "memory");
            Found::Is(draft.is_committed())
        }
        Event::File(name) => find(rt, alloc, server.store(), name, out),
    }
}

/// What is found after a request of this client.
fn after_request(rt: &impl Abort, from: Endpoint, opened: Result<Opened, ServerFault>) -> Found {
    match opened {
        Ok(opened) => {
            expect(rt, opened.to == Some(from), "an answer to the client");
            match opened.tid {
                Some(tid) => Found::Opened(tid),
                None => Found::Nothing,
            }
        }
        Err(fault) => Found::Fault(fault),
    }
}

/// What is found after a step of a transfer.
fn after_step(step: Result<Step, ServerFault>) -> Found {
    match step {
        Ok(step) => match step.closed {
            Some(outcome) => Found::Closed(outcome),
            None => Found::Nothing,
        },
        Err(fault) => Found::Fault(fault),
    }
}

/// Takes a transfer if it is closed, and appends the bytes of its draft.
fn take(rt: &impl Abort, server: &mut Server<TestStore>, tid: u16, out: &mut Vec<u8>) -> Found {
    let Some((record, draft)) = server.take_closed(tid) else {
        return Found::Nothing;
    };
    if let Some(draft) = draft {
        out.extend_from_slice(draft.as_bytes()).expect(rt, "memory");
    }
    match record.outcome {
        Some(outcome) => Found::Closed(outcome),
        None => Found::Nothing,
    }
}

/// Finds a file of the store, and appends its bytes.
fn find(
    rt: &impl Abort,
    alloc: Global,
    store: &TestStore,
    name: &[u8],
    out: &mut Vec<u8>,
) -> Found {
    let path = path(rt, alloc, name);
    let file = store.get_ref().file(&path);
    out.extend_from_slice(file.unwrap_or(b""))
        .expect(rt, "memory");
    Found::Is(file.is_some())
}
