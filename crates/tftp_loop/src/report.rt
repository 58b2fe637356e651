//! The printed and logged lines of transfers and requests.

ghost use Rattle.std.specs.Prelude.{◌≡◌, ◌⊎◌, Some, IfErr, is_some, option_map, if◌then◌else◌};
ghost use Rattle.tftp_server.specs.State.{at, taken_of, without};
ghost use Rattle.tftp_loop.specs.LoopStates.{FailsToPrint, close_reported};
ghost use Rattle.tftp_loop.specs.Told.{IsCloseTold, IsClosedBy, direction_asked, direction_of};
ghost use Rattle.tftp_loop.specs.Told.{unopened_entry};

use crate::datagram::Datagram;
use crate::log::Log;
use crate::log_entry::{LogEntry, shown};
use crate::serving::{LoopConfig, LoopFault};
use crate::transfer_port::TransferPort;
use tftp_ends::{ErrorReply, Outcome, Record, Side};
use tftp_lines::{LogLine, Lost, Printed, Reason, RequestLine};
use tftp_server::Server;
use tftp_sockets::{Direction, Entry, ServerUdp, Watch};
use tftp_store::ServedStore;

/// Logs the line of the request port, if there is a log: what standard output has may go nowhere.
pub(crate) fn log_listening<E: Eprint>(rt: &E, config: &LoopConfig, line: Printed) {
    if config.logs {
        let _ = eprintln!(rt; "{line}");
    }
}

/// Logs that the server drains, with so many transfers open, if there is a log.
pub(crate) fn log_drain<E: Eprint>(rt: &E, log: Log, count: usize) {
    if log.is_written {
        let _ = eprintln!(rt; "draining: {count} transfers open");
    }
}

/// What happened by this answer to a datagram that opened no transfer.
pub(crate) fn unopened_entry(answer: &[u8]) -> Entry
    ensures { result ≡ unopened_entry answer.now }
{
    if answer.is_empty() {
        return Entry::Ignored;
    }
    if answer == ErrorReply::ServerBusy.datagram() {
        return Entry::Busy;
    }
    Entry::Refused
}

/// Which way the file goes that a request asks for.
pub(crate) fn direction_asked(request: &[u8]) -> Direction
    ensures { result ≡ direction_asked request.now }
{
    match request {
        [0, 1, ..] => Direction::Read,
        _ => Direction::Write,
    }
}

/// The opening of a transfer.
#[derive(Clone, Copy)]
pub(crate) struct Opening<'a> {
    /// The answer to its request.
    pub(crate) answer: &'a [u8],
    /// The reading of the clock.
    pub(crate) reading: u64,
    /// That the answer was sent, if there is one, or why the system refused that.
    pub(crate) sent: Result<(), Reason>,
}

/// Logs a request that opened a transfer at this port, if there is a log, and returns the entry for
/// its close, if there is a log or the device counts.
pub(crate) fn log_opened<N: ServerUdp + Eprint>(
    net: &N,
    log: Log,
    port: u16,
    datagram: Datagram<'_>,
    opening: Opening<'_>,
) -> Option<LogEntry> {
    if !log.is_written && !net.is_counted() {
        return None;
    }
    let entry = LogEntry::new(log, datagram, opening.answer, opening.reading);
    if log.is_written {
        log.write(net, entry.opened(port));
        entry.keep_unsent(opening.sent);
        if let Some(line) = entry.take_unsent(port) {
            log.write(net, line);
        }
    }
    Some(entry)
}

/// The answer to a datagram that opened no transfer.
#[derive(Clone, Copy)]
pub(crate) struct Refusal<'a> {
    pub(crate) answer: &'a [u8],
    /// Why the name of the file, or a file call, was refused, if one was.
    pub(crate) reason: Option<Reason>,
    /// That the answer was sent, if there is one, or why the system refused that.
    pub(crate) sent: Result<(), Reason>,
}

/// Logs a datagram that opened no transfer, with its answer from this port.
pub(crate) fn log_refused<E: Eprint>(
    rt: &E,
    log: Log,
    port: u16,
    datagram: Datagram<'_>,
    refusal: Refusal<'_>,
) {
    let shown_request = shown(log.alloc, datagram.bytes);
    let shown_answer = shown(log.alloc, refusal.answer);
    let request = RequestLine {
        peer: datagram.from,
        line: shown_request.as_str(),
    };
    let line = if refusal.answer.is_empty() {
        LogLine::Ignored { request }
    } else {
        LogLine::Refused {
            request,
            answer: shown_answer.as_str(),
            reason: refusal.reason,
        }
    };
    log.write(rt, line);
    if let Err(reason) = refusal.sent {
        let line = LogLine::Unsent {
            port,
            request,
            reason,
        };
        log.write(rt, line);
    }
}

/// Logs a lost request.
pub(crate) fn log_lost<E: Eprint>(rt: &E, log: Log, datagram: Datagram<'_>, lost: Lost) {
    let shown_request = shown(log.alloc, datagram.bytes);
    let request = RequestLine {
        peer: datagram.from,
        line: shown_request.as_str(),
    };
    let line = LogLine::Lost { request, lost };
    log.write(rt, line);
}

/// Logs a datagram of a transfer that the system refused to send since the last call, if there is a
/// log and it did.
pub(crate) fn log_unsent<E: Eprint>(rt: &E, port: &TransferPort) {
    let Some(entry) = &port.socket.log_entry else {
        return;
    };
    if !entry.log.is_written {
        return;
    }
    if let Some(line) = entry.take_unsent(port.socket.udp.port()) {
        entry.log.write(rt, line);
    }
}

/// Removes a closed transfer from the server, and returns its record. Its draft is let go.
pub(crate) fn record_of_closed<S: ServedStore<Reason> + Drop>(
    server: &mut Server<S>,
    tid: u16,
) -> Option<Record>
    ensures found { result ≡ option_map (λ taken. taken.0) (taken_of (at tid server.old.held)) }
    ensures held { server.new.held ≡ (if is_some result then without tid server.old.held else
        server.old.held) }
    ensures rest { server.new ≡ record server.old { held = server.new.held } }
{
    match server.take_closed(tid) {
        Some((record, Some(draft))) => {
            let _ = let_go(server.store(), &record, draft);
            Some(record)
        }
        Some((record, None)) => Some(record),
        None => None,
    }
}

/// The draft of a closed transfer, as it is let go: one that got no name keeps what its client was
/// acknowledged.
fn let_go<S: ServedStore<Reason>>(store: &S, closed: &Record, mut draft: S::Draft) -> S::Draft
    ensures out { (closed.now.outcome ≡ Some Outcome.Complete) ⊎ S.written_out result }
{
    match closed.outcome {
        Some(Outcome::Complete) => draft,
        _ => {
            store.write_out(&mut draft);
            draft
        }
    }
}

/// Counts the close of a transfer, logs it, and prints its outcome. `reading` is the newest reading of the
/// clock, and `reason` the system's reason for refusing the last file call.
pub(crate) fn report_close<N: ServerUdp + Eprint>(
    net: &mut N,
    port: &TransferPort,
    closed: Option<Record>,
    reading: u64,
    reason: Option<Reason>,
) -> Result<(), LoopFault>
    ensures events { N.log net.new
        ≡ close_reported port.now.socket.udp.port port.now.socket.peer closed
        (N.log net.old) }
    ensures fault { IfErr result (λ fault. FailsToPrint fault (N.log net.new)) }
    ensures told { IsCloseTold closed (N.told net.old) (N.told net.new) }
    ensures file { N.file net.new ≡ N.file net.old }
{
    let Some(record) = closed else {
        return Ok(());
    };
    let Some(outcome) = record.outcome else {
        return Ok(());
    };
    log_closed(&*net, port, reading, outcome, reason);
    net.count(closed_entry(&port.socket.log_entry, record.side, outcome));
    let line = Printed::Closed {
        port: port.socket.udp.port(),
        peer: port.socket.peer.port,
        outcome,
    };
    match net.print_line(line) {
        Ok(()) => Ok(()),
        Err(_) => Err(LoopFault::Output),
    }
}

/// Logs the close of a transfer, if there is a log.
fn log_closed<E: Eprint>(
    rt: &E,
    port: &TransferPort,
    reading: u64,
    outcome: Outcome,
    reason: Option<Reason>,
) {
    let Some(entry) = &port.socket.log_entry else {
        return;
    };
    if entry.log.is_written {
        let line = entry.closed(port.socket.udp.port(), reading, outcome, reason);
        entry.log.write(rt, line);
    }
}

/// What happened by the close of a transfer with this entry, if it has one.
fn closed_entry(log_entry: &Option<LogEntry>, side: Side, outcome: Outcome) -> Entry
    ensures { IsClosedBy side outcome result }
{
    let direction = direction_of(side);
    match log_entry {
        Some(entry) => Entry::Closed {
            direction,
            outcome,
            bytes: entry.bytes(),
            again: entry.again(),
        },
        None => Entry::Closed {
            direction,
            outcome,
            bytes: 0,
            again: 0,
        },
    }
}

/// Which way the file of an end of this kind goes.
fn direction_of(side: Side) -> Direction
    ensures { result ≡ direction_of side }
{
    match side {
        Side::ClientRead => Direction::Read,
        Side::ServerRead => Direction::Read,
        Side::ClientWrite => Direction::Write,
        Side::ServerWrite => Direction::Write,
    }
}

/// Reports the open transfers at these ports, if a report is due.
pub(crate) fn report_if_due<N: ServerUdp>(net: &mut N, ports: &[TransferPort], watch: Watch)
    ensures events { N.log net.new ≡ N.log net.old }
    ensures file { N.file net.new ≡ N.file net.old }
{
    if net.is_report_due(watch.now) {
        report_all(net, ports, watch);
    }
}

/// Reports the open transfers at these ports.
pub(crate) fn report_all<N: ServerUdp>(net: &mut N, ports: &[TransferPort], watch: Watch)
    ensures events { N.log net.new ≡ N.log net.old }
    ensures told { N.told net.new ≡ N.told net.old }
    ensures file { N.file net.new ≡ N.file net.old }
{
    for port in ports.iter() {
        report_open(net, port, watch.reading);
    }
    net.end_report(watch.now);
}

/// Adds an open transfer to the report that is due. `reading` is the newest reading of the clock.
pub(crate) fn report_open<N: ServerUdp>(net: &mut N, port: &TransferPort, reading: u64)
    ensures events { N.log net.new ≡ N.log net.old }
    ensures told { N.told net.new ≡ N.told net.old }
    ensures file { N.file net.new ≡ N.file net.old }
{
    if let Some(entry) = &port.socket.log_entry {
        net.report_open(entry.open_transfer(port.socket.udp.port(), reading));
    }
}
