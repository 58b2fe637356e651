//! The steps of the transfers of a server for C, over the bytes of its caller.

ghost use Rattle.std.specs.Prelude.{◌≡◌, ◌↔◌, ◌≤◌, false, IsSome, Some};
ghost use Rattle.std.specs.Prelude.{length};
ghost use Rattle.tftp_ends.specs.Step.{lent};
ghost use Rattle.tftp_server.specs.CallersFiles.{is_open_receiver, is_open_sender};
ghost use Rattle.tftp_server.specs.State.{at, is_open};
ghost use Rattle.tftp_c.specs.Reports.{Reports, Sends};
ghost use Rattle.tftp_c.specs.Waits.{WaitsAt};
ghost use Rattle.tftp_c.specs.HeldServer.{CallersTransfer, ReceivedAt, SentAt, TimedOutAt};

use crate::elsewhere::Elsewhere;
use crate::event::{TftpEndpoint, TftpEvent};
use crate::holding::table_fault;
use crate::report::{endpoint, report_apart};
use crate::slice_sink::SliceSink;
use crate::slice_source::SliceSource;
use tftp_ends::{Backoff, Outgoing, Step};
use tftp_server::Server;

/// Reports a step of the transfer that has the identifier, and copies the datagram to send.
pub(crate) fn report_at(
    server: &Server<Elsewhere>,
    tid: u16,
    backoff: Backoff,
    step: Step,
    outgoing: Outgoing,
    reply: &mut [u8],
    file_len: usize,
    event: &mut TftpEvent,
)
    requires { IsSome (at tid server.now.held) }
    ensures sends { (it : CallersTransfer) → at tid server.now.held ≡ Some it
        → Sends step.to (lent outgoing it.end) reply.new event.new }
    ensures reports { (it : CallersTransfer) → at tid server.now.held ≡ Some it
        → Reports it.end event.new }
    ensures fits { event.new.send_len ≤ length reply.old }
    ensures file { event.new.file_len ≡ file_len }
    ensures progress { event.new.progress ≡ step.progress }
    ensures waits { WaitsAt tid backoff server.now event.new }
{
    let Some(record) = server.record(tid) else {
        unreachable!()
    };
    let Some(datagram) = server.bytes_of(tid, outgoing) else {
        unreachable!()
    };
    let Some(timeouts) = server.timeouts(tid) else {
        unreachable!()
    };
    let wait = backoff.wait(record.interval(), timeouts);
    report_apart(&record, wait, step, datagram, reply, file_len, event);
}

/// Handles a datagram at a transfer that receives.
pub(crate) fn receive(
    server: &mut Server<Elsewhere>,
    tid: u16,
    backoff: Backoff,
    from: &TftpEndpoint,
    datagram: &[u8],
    file: &mut [u8],
    reply: &mut [u8],
    event: &mut TftpEvent,
) -> u8
    ensures ok { result ≡ 0 → ReceivedAt tid from.now datagram.now file.old file.new reply.new
        event.new server.old server.new }
    ensures fits { result ≡ 0 → event.new.send_len ≤ length reply.old }
    ensures waits { result ≡ 0 → WaitsAt tid backoff server.new event.new }
    ensures no_transfer { (result ≡ 9)
        ↔ (is_open_receiver (at tid server.old.held) ≡ false) }
    ensures err { (result ≡ 0 → ⊥) → (server.new ≡ server.old) × (event.new ≡ event.old) }
{
    let mut sink = SliceSink {
        room: file,
        used: 0,
        is_committed: false,
    };
    match server.lend_sink(tid, &mut sink, endpoint(from), datagram) {
        Ok((step, outgoing)) => {
            let count = sink.count();
            report_at(server, tid, backoff, step, outgoing, reply, count, event);
            0
        }
        Err(fault) => table_fault(fault),
    }
}

/// Handles a datagram at a transfer that sends.
pub(crate) fn send(
    server: &mut Server<Elsewhere>,
    tid: u16,
    backoff: Backoff,
    from: &TftpEndpoint,
    datagram: &[u8],
    next: &[u8],
    reply: &mut [u8],
    event: &mut TftpEvent,
) -> u8
    ensures ok { result ≡ 0 → SentAt tid from.now datagram.now next.now reply.new event.new
        server.old server.new }
    ensures fits { result ≡ 0 → event.new.send_len ≤ length reply.old }
    ensures waits { result ≡ 0 → WaitsAt tid backoff server.new event.new }
    ensures no_transfer { (result ≡ 9)
        ↔ (is_open_sender (at tid server.old.held) ≡ false) }
    ensures err { (result ≡ 0 → ⊥) → (server.new ≡ server.old) × (event.new ≡ event.old) }
{
    let mut source = SliceSource::of(next);
    match server.lend_source(tid, &mut source, endpoint(from), datagram) {
        Ok((step, outgoing)) => {
            let count = source.taken_of(next);
            report_at(server, tid, backoff, step, outgoing, reply, count, event);
            0
        }
        Err(fault) => table_fault(fault),
    }
}

/// Delivers a timeout to a transfer.
pub(crate) fn time_out(
    server: &mut Server<Elsewhere>,
    tid: u16,
    backoff: Backoff,
    reply: &mut [u8],
    event: &mut TftpEvent,
) -> u8
    ensures ok { result ≡ 0 → TimedOutAt tid reply.new event.new server.old server.new }
    ensures fits { result ≡ 0 → event.new.send_len ≤ length reply.old }
    ensures waits { result ≡ 0 → WaitsAt tid backoff server.new event.new }
    ensures no_transfer { (result ≡ 9) ↔ (is_open (at tid server.old.held) ≡ false) }
    ensures err { (result ≡ 0 → ⊥) → (server.new ≡ server.old) × (event.new ≡ event.old) }
{
    match server.handle_timeout(tid) {
        Ok((step, outgoing)) => {
            report_at(server, tid, backoff, step, outgoing, reply, 0, event);
            0
        }
        Err(fault) => table_fault(fault),
    }
}
