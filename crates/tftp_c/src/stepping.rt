//! The steps of an end for C.

ghost use Rattle.std.specs.Prelude.{◌≡◌, ◌≤◌, None, length};
ghost use Rattle.tftp_ends.specs.End.{record_of};
ghost use Rattle.tftp_c.specs.Handled.{OnClient, OnEnd, Received, Sent, TimedOut};
ghost use Rattle.tftp_c.specs.Reports.{Reports, Sends};
ghost use Rattle.tftp_c.specs.Stated.{Learns, LearnsFrom};
ghost use Rattle.tftp_ends.specs.Step.{lent};
ghost use Rattle.tftp_c.specs.Waits.{Waits};

use crate::client::Client;
use crate::event::{self, TftpEndpoint, TftpEvent};
use crate::handle::TftpEnd;
use crate::report::{endpoint, report, report_record, wait_of};
use crate::slice_sink::SliceSink;
use crate::slice_source::SliceSource;
use crate::stated::stated_after;
use tftp_ends::{EndFault, Endpoint, Outgoing, Step};

/// The number that a call returns for this fault.
fn end_fault(fault: EndFault) -> u8
    ensures { result ≡ 0 → ⊥ }
{
    match fault {
        EndFault::Closed => event::CLOSED,
        EndFault::Memory => event::MEMORY,
    }
}

/// Reports the step that an end has made, with the number of bytes that it moved, and notes what its
/// peer stated by it.
#[inline(always)]
fn conclude(
    client: &mut Client,
    known: Option<Endpoint>,
    datagram: &[u8],
    made: (Step, Outgoing, usize),
    reply: &mut [u8],
    event: &mut TftpEvent,
)
    ensures end { client.new.end ≡ client.old.end }
    ensures backoff { client.new.backoff ≡ client.old.backoff }
    ensures learns { Learns known (record_of client.old.end).peer datagram.now client.old.stated
        client.new.stated }
    ensures sends { Sends made.0.to (lent made.1 client.old.end) reply.new event.new }
    ensures fits { event.new.send_len ≤ length reply.old }
    ensures file { event.new.file_len ≡ made.2 }
    ensures progress { event.new.progress ≡ made.0.progress }
    ensures waits { Waits client.old.backoff client.old.end event.new }
    ensures reports { Reports client.old.end event.new }
{
    let (step, outgoing, count) = made;
    let state = client.end.record();
    if known.is_none() {
        client.stated = stated_after(known, state.peer, datagram, client.stated);
    }
    let wait = wait_of(&client.end, client.backoff);
    let answer = client.end.bytes_of(outgoing);
    report_record(&state, wait, step, answer, reply, count, event);
}

/// Handles a datagram at a receiver: the bytes of the file that it brings are written to `file`,
/// and the datagram to send to `reply`.
#[unsafe(no_mangle)]
pub extern "C" fn tftp_receive(
    end: &mut TftpEnd,
    from: &TftpEndpoint,
    datagram: &[u8],
    file: &mut [u8],
    reply: &mut [u8],
    event: &mut TftpEvent,
) -> u8
    ensures ok { OnEnd end.old.slot.value end.new.slot.value (λ before e. result ≡ 0
        → Received from.now datagram.now before e file.old file.new reply.new event.new) }
    ensures learns { OnClient end.old.slot.value end.new.slot.value (λ c d. result ≡ 0
        → LearnsFrom datagram.now c d) }
    ensures waits { OnClient end.old.slot.value end.new.slot.value (λ c d. result ≡ 0
        → Waits c.backoff d.end event.new) }
    ensures backoff { OnClient end.old.slot.value end.new.slot.value (λ c d.
        d.backoff ≡ c.backoff) }
    ensures fits { result ≡ 0 → event.new.send_len ≤ length reply.old }
    ensures err { (result ≡ 0 → ⊥) → end.new.slot.value ≡ end.old.slot.value }
    ensures unmoved { (result ≡ 0 → ⊥) → event.new ≡ event.old }
    ensures none { end.old.slot.value ≡ None → result ≡ 1 }
{
    if !end.is_open() {
        return event::NOT_OPEN;
    }
    receive(end.slot.client(), from, datagram, file, reply, event)
}

/// Handles a datagram at a receiver: most bring the next block.
// A block's step is one function, down to the copy: no phase and no action is copied between calls.
#[inline(always)]
fn receive(
    client: &mut Client,
    from: &TftpEndpoint,
    datagram: &[u8],
    file: &mut [u8],
    reply: &mut [u8],
    event: &mut TftpEvent,
) -> u8
    ensures ok { result ≡ 0 → Received from.now datagram.now client.old.end client.new.end file.old
        file.new reply.new event.new }
    ensures learns { result ≡ 0 → LearnsFrom datagram.now client.old client.new }
    ensures fits { result ≡ 0 → event.new.send_len ≤ length reply.old }
    ensures waits { result ≡ 0 → Waits client.old.backoff client.new.end event.new }
    ensures backoff { client.new.backoff ≡ client.old.backoff }
    ensures err { (result ≡ 0 → ⊥) → (client.new ≡ client.old) × (event.new ≡ event.old) }
{
    let origin = endpoint(from);
    let Some(next) = client.end.next_block(origin, datagram) else {
        return receive_any(client, from, datagram, file, reply, event);
    };
    let mut sink = SliceSink {
        room: file,
        used: 0,
        is_committed: false,
    };
    match client.end.store_next(next, &mut sink, origin, datagram) {
        Ok((step, outgoing)) => {
            let made = (step, outgoing, sink.count());
            conclude(client, Some(next.peer()), datagram, made, reply, event);
            0
        }
        Err(fault) => end_fault(fault),
    }
}

/// As [`receive`], of any datagram.
#[inline(never)]
fn receive_any(
    client: &mut Client,
    from: &TftpEndpoint,
    datagram: &[u8],
    file: &mut [u8],
    reply: &mut [u8],
    event: &mut TftpEvent,
) -> u8
    ensures ok { result ≡ 0 → Received from.now datagram.now client.old.end client.new.end file.old
        file.new reply.new event.new }
    ensures learns { result ≡ 0 → LearnsFrom datagram.now client.old client.new }
    ensures fits { result ≡ 0 → event.new.send_len ≤ length reply.old }
    ensures waits { result ≡ 0 → Waits client.old.backoff client.new.end event.new }
    ensures backoff { client.new.backoff ≡ client.old.backoff }
    ensures err { (result ≡ 0 → ⊥) → (client.new ≡ client.old) × (event.new ≡ event.old) }
{
    let before = client.end.record();
    if before.side.is_sender() {
        return event::WRONG_SIDE;
    }
    let mut sink = SliceSink {
        room: file,
        used: 0,
        is_committed: false,
    };
    match client
        .end
        .handle_any_as_receiver(&mut sink, endpoint(from), datagram)
    {
        Ok((step, outgoing)) => {
            let made = (step, outgoing, sink.count());
            conclude(client, before.peer, datagram, made, reply, event);
            0
        }
        Err(fault) => end_fault(fault),
    }
}

/// Handles a datagram at a sender: it takes what it sends from the start of `next`, the next bytes
/// of the file, and writes the datagram to send to `reply`.
#[unsafe(no_mangle)]
pub extern "C" fn tftp_send(
    end: &mut TftpEnd,
    from: &TftpEndpoint,
    datagram: &[u8],
    next: &[u8],
    reply: &mut [u8],
    event: &mut TftpEvent,
) -> u8
    ensures ok { OnEnd end.old.slot.value end.new.slot.value (λ before e. result ≡ 0
        → Sent from.now datagram.now before e next.now reply.new event.new) }
    ensures learns { OnClient end.old.slot.value end.new.slot.value (λ c d. result ≡ 0
        → LearnsFrom datagram.now c d) }
    ensures waits { OnClient end.old.slot.value end.new.slot.value (λ c d. result ≡ 0
        → Waits c.backoff d.end event.new) }
    ensures backoff { OnClient end.old.slot.value end.new.slot.value (λ c d.
        d.backoff ≡ c.backoff) }
    ensures fits { result ≡ 0 → event.new.send_len ≤ length reply.old }
    ensures err { (result ≡ 0 → ⊥) → end.new.slot.value ≡ end.old.slot.value }
    ensures unmoved { (result ≡ 0 → ⊥) → event.new ≡ event.old }
    ensures none { end.old.slot.value ≡ None → result ≡ 1 }
{
    if !end.is_open() {
        return event::NOT_OPEN;
    }
    send(end.slot.client(), from, datagram, next, reply, event)
}

/// Handles a datagram at a sender: most request the next block.
// As of a receiver, a block's step is one function.
#[inline(always)]
fn send(
    client: &mut Client,
    from: &TftpEndpoint,
    datagram: &[u8],
    next: &[u8],
    reply: &mut [u8],
    event: &mut TftpEvent,
) -> u8
    ensures ok { result ≡ 0 → Sent from.now datagram.now client.old.end client.new.end next.now
        reply.new event.new }
    ensures learns { result ≡ 0 → LearnsFrom datagram.now client.old client.new }
    ensures fits { result ≡ 0 → event.new.send_len ≤ length reply.old }
    ensures waits { result ≡ 0 → Waits client.old.backoff client.new.end event.new }
    ensures backoff { client.new.backoff ≡ client.old.backoff }
    ensures err { (result ≡ 0 → ⊥) → (client.new ≡ client.old) × (event.new ≡ event.old) }
{
    let origin = endpoint(from);
    let Some(block) = client.end.next_ack(origin, datagram) else {
        return send_any(client, from, datagram, next, reply, event);
    };
    let mut source = SliceSource::of(next);
    match client.end.send_next(block, &mut source, origin, datagram) {
        Ok((step, outgoing)) => {
            let made = (step, outgoing, source.taken_of(next));
            conclude(client, Some(block.peer()), datagram, made, reply, event);
            0
        }
        Err(fault) => end_fault(fault),
    }
}

/// As [`send`], of any datagram.
#[inline(never)]
fn send_any(
    client: &mut Client,
    from: &TftpEndpoint,
    datagram: &[u8],
    next: &[u8],
    reply: &mut [u8],
    event: &mut TftpEvent,
) -> u8
    ensures ok { result ≡ 0 → Sent from.now datagram.now client.old.end client.new.end next.now
        reply.new event.new }
    ensures learns { result ≡ 0 → LearnsFrom datagram.now client.old client.new }
    ensures fits { result ≡ 0 → event.new.send_len ≤ length reply.old }
    ensures waits { result ≡ 0 → Waits client.old.backoff client.new.end event.new }
    ensures backoff { client.new.backoff ≡ client.old.backoff }
    ensures err { (result ≡ 0 → ⊥) → (client.new ≡ client.old) × (event.new ≡ event.old) }
{
    let before = client.end.record();
    if !before.side.is_sender() {
        return event::WRONG_SIDE;
    }
    let mut source = SliceSource::of(next);
    match client
        .end
        .handle_any_as_sender(&mut source, endpoint(from), datagram)
    {
        Ok((step, outgoing)) => {
            let made = (step, outgoing, source.taken_of(next));
            conclude(client, before.peer, datagram, made, reply, event);
            0
        }
        Err(fault) => end_fault(fault),
    }
}

/// Delivers a timeout.
#[unsafe(no_mangle)]
pub extern "C" fn tftp_timeout(end: &mut TftpEnd, reply: &mut [u8], event: &mut TftpEvent) -> u8
    ensures ok { OnEnd end.old.slot.value end.new.slot.value (λ before e. result ≡ 0
        → TimedOut before e reply.new event.new) }
    ensures stated { OnClient end.old.slot.value end.new.slot.value (λ c d.
        d.stated ≡ c.stated) }
    ensures waits { OnClient end.old.slot.value end.new.slot.value (λ c d. result ≡ 0
        → Waits c.backoff d.end event.new) }
    ensures backoff { OnClient end.old.slot.value end.new.slot.value (λ c d.
        d.backoff ≡ c.backoff) }
    ensures fits { result ≡ 0 → event.new.send_len ≤ length reply.old }
    ensures err { (result ≡ 0 → ⊥) → end.new.slot.value ≡ end.old.slot.value }
    ensures unmoved { (result ≡ 0 → ⊥) → event.new ≡ event.old }
    ensures none { end.old.slot.value ≡ None → result ≡ 1 }
{
    if !end.is_open() {
        return event::NOT_OPEN;
    }
    let client = end.slot.client();
    match client.end.handle_timeout() {
        Ok((step, outgoing)) => {
            report(&client.end, client.backoff, step, outgoing, reply, 0, event);
            0
        }
        Err(fault) => end_fault(fault),
    }
}
