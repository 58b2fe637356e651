//! The calls of a server: its request port, and its transfers over the files of its caller.

ghost use Rattle.std.specs.Prelude.{◌≡◌, ◌↔◌, ◌≤◌, false, is_some, length as list_length, None};
ghost use Rattle.tftp_server.specs.CallersFiles.{is_open_receiver, is_open_sender};
ghost use Rattle.tftp_server.specs.State.{at, is_open, without};
ghost use Rattle.tftp_c.specs.Faults.{GetFails, PutFails};
ghost use Rattle.tftp_c.specs.HeldServer.{AsksOf, OnServer, OpensGet, OpensPut};
ghost use Rattle.tftp_c.specs.Aborted.{AbortsAt, AtFault};
ghost use Rattle.tftp_c.specs.HeldServer.{ReceivedAt, SentAt, TimedOutAt};
ghost use Rattle.tftp_c.specs.Informed.{InformsAt, InfoFaultAt};
ghost use Rattle.tftp_c.specs.Waits.{backoff_of, WaitsAt};

use crate::event::{self, TftpEndpoint, TftpEvent, TftpInfo, TftpQuestion};
use crate::server_handle::TftpServer;
use crate::serving::{Served, serve_get, serve_put};
use crate::{aborting, asking, holding, informing, transfers};
use std::alloc::Global;

/// Reads a datagram at the request port: the path of the file that it asks for is written to
/// `name`, or the ERROR that answers it to `reply`.
#[unsafe(no_mangle)]
pub extern "C" fn tftp_server_request(
    alloc: Global,
    server: &mut TftpServer,
    from: &TftpEndpoint,
    datagram: &[u8],
    name: &mut [u8],
    reply: &mut [u8],
    question: &mut TftpQuestion,
) -> u8
    ensures ok { OnServer server.old.slot.value server.new.slot.value (λ s _. result ≡ 0
        → AsksOf s.server from.now datagram.now name.new reply.new question.new) }
    ensures fits { result ≡ 0 → question.new.send_len ≤ list_length reply.old }
    ensures same { server.new.slot.value ≡ server.old.slot.value }
    ensures unmoved { (result ≡ 0 → ⊥) → question.new ≡ question.old }
    ensures none { server.old.slot.value ≡ None → result ≡ 1 }
{
    if !server.is_open() {
        return event::NOT_OPEN;
    }
    let held = server.slot.server();
    asking::request(alloc, &held.server, from, datagram, name, reply, question)
}

/// Opens a transfer for a read request: the file has `length` bytes, of which `next` are the first.
#[unsafe(no_mangle)]
pub extern "C" fn tftp_server_get(
    alloc: Global,
    server: &mut TftpServer,
    tid: u16,
    from: &TftpEndpoint,
    request: &[u8],
    length: u64,
    next: &[u8],
    reply: &mut [u8],
    event: &mut TftpEvent,
) -> u8
    ensures ok { OnServer server.old.slot.value server.new.slot.value (λ s t. result ≡ 0
        → OpensGet tid from.now request.now length next.now s.options reply.new event.new s.server
        t.server) }
    ensures fault { OnServer server.old.slot.value server.new.slot.value (λ s _.
        (result ≡ 0 → ⊥) → GetFails tid from.now request.now length next.now s.options s.server
        (list_length reply.old) result) }
    ensures fits { result ≡ 0 → event.new.send_len ≤ list_length reply.old }
    ensures options { OnServer server.old.slot.value server.new.slot.value (λ s t.
        t.options ≡ s.options) }
    ensures err { (result ≡ 0 → ⊥) → server.new.slot.value ≡ server.old.slot.value }
    ensures unmoved { (result ≡ 0 → ⊥) → (event.new ≡ event.old) × (reply.new ≡ reply.old) }
    ensures none { server.old.slot.value ≡ None → result ≡ 1 }
{
    if !server.is_open() {
        return event::NOT_OPEN;
    }
    let held = server.slot.server();
    let room = reply.len();
    match serve_get(alloc, from, request, length, next, &held.options, room) {
        Ok(Served { end, count }) => {
            let table = &mut held.server;
            holding::open(table, tid, from, request, end, count, reply, event)
        }
        Err(fault) => fault,
    }
}

/// Opens a transfer for a write request.
#[unsafe(no_mangle)]
pub extern "C" fn tftp_server_put(
    alloc: Global,
    server: &mut TftpServer,
    tid: u16,
    from: &TftpEndpoint,
    request: &[u8],
    reply: &mut [u8],
    event: &mut TftpEvent,
) -> u8
    ensures ok { OnServer server.old.slot.value server.new.slot.value (λ s t. result ≡ 0
        → OpensPut tid from.now request.now s.options reply.new event.new s.server t.server) }
    ensures fault { OnServer server.old.slot.value server.new.slot.value (λ s _.
        (result ≡ 0 → ⊥) → PutFails tid from.now request.now s.options s.server
        (list_length reply.old) result) }
    ensures fits { result ≡ 0 → event.new.send_len ≤ list_length reply.old }
    ensures options { OnServer server.old.slot.value server.new.slot.value (λ s t.
        t.options ≡ s.options) }
    ensures err { (result ≡ 0 → ⊥) → server.new.slot.value ≡ server.old.slot.value }
    ensures unmoved { (result ≡ 0 → ⊥) → (event.new ≡ event.old) × (reply.new ≡ reply.old) }
    ensures none { server.old.slot.value ≡ None → result ≡ 1 }
{
    if !server.is_open() {
        return event::NOT_OPEN;
    }
    let held = server.slot.server();
    match serve_put(alloc, from, request, &held.options) {
        Ok(end) => holding::open(&mut held.server, tid, from, request, end, 0, reply, event),
        Err(fault) => fault,
    }
}

/// Handles a datagram at the transfer with the identifier, as `tftp_receive`.
#[unsafe(no_mangle)]
pub extern "C" fn tftp_server_receive(
    server: &mut TftpServer,
    tid: u16,
    from: &TftpEndpoint,
    datagram: &[u8],
    file: &mut [u8],
    reply: &mut [u8],
    event: &mut TftpEvent,
) -> u8
    ensures ok { OnServer server.old.slot.value server.new.slot.value (λ s t. result ≡ 0
        → ReceivedAt tid from.now datagram.now file.old file.new reply.new event.new s.server
        t.server) }
    ensures fits { result ≡ 0 → event.new.send_len ≤ list_length reply.old }
    ensures waits { OnServer server.old.slot.value server.new.slot.value (λ s t. result ≡ 0
        → WaitsAt tid (backoff_of s.options) t.server event.new) }
    ensures options { OnServer server.old.slot.value server.new.slot.value (λ s t.
        t.options ≡ s.options) }
    ensures no_transfer { OnServer server.old.slot.value server.new.slot.value (λ s _.
        (result ≡ 9) ↔ (is_open_receiver (at tid s.server.held) ≡ false)) }
    ensures err { (result ≡ 0 → ⊥) → server.new.slot.value ≡ server.old.slot.value }
    ensures unmoved { (result ≡ 0 → ⊥) → event.new ≡ event.old }
    ensures none { server.old.slot.value ≡ None → result ≡ 1 }
{
    if !server.is_open() {
        return event::NOT_OPEN;
    }
    let held = server.slot.server();
    let backoff = held.options.backoff();
    transfers::receive(
        &mut held.server,
        tid,
        backoff,
        from,
        datagram,
        file,
        reply,
        event,
    )
}

/// Handles a datagram at the transfer with the identifier, as `tftp_send`.
#[unsafe(no_mangle)]
pub extern "C" fn tftp_server_send(
    server: &mut TftpServer,
    tid: u16,
    from: &TftpEndpoint,
    datagram: &[u8],
    next: &[u8],
    reply: &mut [u8],
    event: &mut TftpEvent,
) -> u8
    ensures ok { OnServer server.old.slot.value server.new.slot.value (λ s t. result ≡ 0
        → SentAt tid from.now datagram.now next.now reply.new event.new s.server t.server) }
    ensures fits { result ≡ 0 → event.new.send_len ≤ list_length reply.old }
    ensures waits { OnServer server.old.slot.value server.new.slot.value (λ s t. result ≡ 0
        → WaitsAt tid (backoff_of s.options) t.server event.new) }
    ensures options { OnServer server.old.slot.value server.new.slot.value (λ s t.
        t.options ≡ s.options) }
    ensures no_transfer { OnServer server.old.slot.value server.new.slot.value (λ s _.
        (result ≡ 9) ↔ (is_open_sender (at tid s.server.held) ≡ false)) }
    ensures err { (result ≡ 0 → ⊥) → server.new.slot.value ≡ server.old.slot.value }
    ensures unmoved { (result ≡ 0 → ⊥) → event.new ≡ event.old }
    ensures none { server.old.slot.value ≡ None → result ≡ 1 }
{
    if !server.is_open() {
        return event::NOT_OPEN;
    }
    let held = server.slot.server();
    let backoff = held.options.backoff();
    transfers::send(
        &mut held.server,
        tid,
        backoff,
        from,
        datagram,
        next,
        reply,
        event,
    )
}

/// Delivers a timeout to the transfer with the identifier, as `tftp_timeout`.
#[unsafe(no_mangle)]
pub extern "C" fn tftp_server_timeout(
    server: &mut TftpServer,
    tid: u16,
    reply: &mut [u8],
    event: &mut TftpEvent,
) -> u8
    ensures ok { OnServer server.old.slot.value server.new.slot.value (λ s t. result ≡ 0
        → TimedOutAt tid reply.new event.new s.server t.server) }
    ensures fits { result ≡ 0 → event.new.send_len ≤ list_length reply.old }
    ensures waits { OnServer server.old.slot.value server.new.slot.value (λ s t. result ≡ 0
        → WaitsAt tid (backoff_of s.options) t.server event.new) }
    ensures options { OnServer server.old.slot.value server.new.slot.value (λ s t.
        t.options ≡ s.options) }
    ensures no_transfer { OnServer server.old.slot.value server.new.slot.value (λ s _.
        (result ≡ 9) ↔ (is_open (at tid s.server.held) ≡ false)) }
    ensures err { (result ≡ 0 → ⊥) → server.new.slot.value ≡ server.old.slot.value }
    ensures unmoved { (result ≡ 0 → ⊥) → event.new ≡ event.old }
    ensures none { server.old.slot.value ≡ None → result ≡ 1 }
{
    if !server.is_open() {
        return event::NOT_OPEN;
    }
    let held = server.slot.server();
    let backoff = held.options.backoff();
    transfers::time_out(&mut held.server, tid, backoff, reply, event)
}

/// Ends the transfer with the identifier by an ERROR, as `tftp_abort`, and removes it.
#[unsafe(no_mangle)]
pub extern "C" fn tftp_server_abort(
    alloc: Global,
    server: &mut TftpServer,
    tid: u16,
    code: u16,
    text: &[u8],
    reply: &mut [u8],
    event: &mut TftpEvent,
) -> u8
    ensures ok { OnServer server.old.slot.value server.new.slot.value (λ s t. result ≡ 0
        → AbortsAt tid code text.now reply.new event.new s.server t.server) }
    ensures fits { result ≡ 0 → event.new.send_len ≤ list_length reply.old }
    ensures options { OnServer server.old.slot.value server.new.slot.value (λ s t.
        t.options ≡ s.options) }
    ensures fault { OnServer server.old.slot.value server.new.slot.value (λ s _.
        (result ≡ 0 → ⊥) → AtFault tid text.now s.server result) }
    ensures err { (result ≡ 0 → ⊥) → server.new.slot.value ≡ server.old.slot.value }
    ensures unmoved { (result ≡ 0 → ⊥) → (event.new ≡ event.old) × (reply.new ≡ reply.old) }
    ensures none { server.old.slot.value ≡ None → result ≡ 1 }
{
    if !server.is_open() {
        return event::NOT_OPEN;
    }
    let held = server.slot.server();
    let Some(state) = held.server.record(tid) else {
        return event::NO_TRANSFER;
    };
    match aborting::abort(alloc, &state, code, text, reply, event) {
        Ok(()) => {
            held.server.give_up(tid);
            0
        }
        Err(fault) => aborting::abort_number(fault, event::NO_TRANSFER),
    }
}

/// Reports what the transfer with the identifier and its peer have agreed. After a fault `info` is
/// unchanged.
#[unsafe(no_mangle)]
pub extern "C" fn tftp_server_info(server: &mut TftpServer, tid: u16, info: &mut TftpInfo) -> u8
    ensures ok { OnServer server.old.slot.value server.new.slot.value (λ s _. result ≡ 0
        → InformsAt tid s.server info.new) }
    ensures fault { OnServer server.old.slot.value server.new.slot.value (λ s _.
        (result ≡ 0 → ⊥) → InfoFaultAt tid s.server info.old result) }
    ensures same { server.new.slot.value ≡ server.old.slot.value }
    ensures unmoved { (result ≡ 0 → ⊥) → info.new ≡ info.old }
    ensures none { server.old.slot.value ≡ None → result ≡ 1 }
{
    if !server.is_open() {
        return event::NOT_OPEN;
    }
    let fault = info.size_fault();
    if fault != 0 {
        return fault;
    }
    let held = server.slot.server();
    let Some(state) = held.server.record(tid) else {
        return event::NO_TRANSFER;
    };
    let Some(files) = held.server.files(tid) else {
        return event::NO_TRANSFER;
    };
    *info = informing::agreed(&state, informing::stated_in(files));
    0
}

/// Removes the transfer with the identifier, open or closed, and returns whether there was one.
#[unsafe(no_mangle)]
pub extern "C" fn tftp_server_give_up(server: &mut TftpServer, tid: u16) -> bool
    ensures removed { OnServer server.old.slot.value server.new.slot.value (λ s t. t ≡ record s {
      server = record s.server { held = without tid s.server.held };
    }) }
    ensures held { OnServer server.old.slot.value server.new.slot.value (λ s _.
        result ≡ is_some (at tid s.server.held)) }
    ensures none { server.old.slot.value ≡ None → result ≡ false }
{
    if !server.is_open() {
        return false;
    }
    let held = server.slot.server();
    held.server.give_up(tid).is_some()
}

/// Closes the server and its transfers, and frees their memory, if there is one. `tftp_server_close`
/// of `tftp.h` calls it, which allows null.
#[unsafe(no_mangle)]
pub extern "C" fn tftp_close_server(alloc: Global, server: &mut TftpServer)
    ensures { server.new.slot.value ≡ None }
{
    server.close(alloc);
}
