//! What the calls report to C.

ghost use Rattle.std.specs.Prelude.{◌≡◌, ◌≤◌, ◌<◌, true, false, length, take};
ghost use Rattle.tftp_c.specs.Opens.{FirstSent};
ghost use Rattle.tftp_ends.specs.Opening.{opening_step};
ghost use Rattle.tftp_c.specs.Reports.{endpoint_of, outcome_number, peer_code};
ghost use Rattle.tftp_c.specs.Reports.{Reports, ReportsRecord, Sends};
ghost use Rattle.tftp_ends.specs.Backoff.{timeouts_of, wait_of};
ghost use Rattle.tftp_ends.specs.End.{record_of, seconds_of};
ghost use Rattle.tftp_c.specs.Waits.{Waits};
ghost use Rattle.tftp_ends.specs.Step.{lent};

use crate::event::{TftpEndpoint, TftpEvent};
use crate::slice_sink::copy_datagram;
use tftp_ends::{Backoff, End, Endpoint, Outcome, Outgoing, Record, Step};

pub(crate) fn endpoint(at: &TftpEndpoint) -> Endpoint
    ensures { result ≡ endpoint_of at.now }
{
    let ip = at.ip;
    Endpoint { ip, port: at.port }
}

fn address(at: Endpoint) -> TftpEndpoint
    ensures { endpoint_of result ≡ at }
{
    let ip = at.ip;
    TftpEndpoint { ip, port: at.port }
}

/// What was written of a datagram.
#[derive(Clone, Copy)]
pub(crate) struct Written {
    /// Its length, or 0.
    pub(crate) len: usize,
    /// Whether it did not fit the buffer, and is lost.
    pub(crate) is_lost: bool,
}

/// Writes a datagram to the start of a buffer, or nothing of it if it does not fit.
#[inline(always)]
pub(crate) fn write(datagram: &[u8], reply: &mut [u8]) -> Written
    ensures len { length datagram.now ≤ length reply.new → result.len ≡ length datagram.now }
    ensures bytes { length datagram.now ≤ length reply.new
        → take (length datagram.now) reply.new ≡ datagram.now }
    ensures whole { length datagram.now ≤ length reply.new → result.is_lost ≡ false }
    ensures none { length reply.new < length datagram.now → result.len ≡ 0 }
    ensures lost { length reply.new < length datagram.now → result.is_lost ≡ true }
    ensures fits { result.len ≤ length reply.old }
{
    let len = datagram.len();
    if len > reply.len() {
        return Written {
            len: 0,
            is_lost: true,
        };
    }
    copy_datagram(reply, datagram);
    Written {
        len,
        is_lost: false,
    }
}

fn outcome_number(outcome: Option<Outcome>) -> u8
    ensures { result ≡ outcome_number outcome }
{
    match outcome {
        Some(outcome) => outcome.number(),
        None => 0,
    }
}

fn peer_code(outcome: Option<Outcome>) -> u16
    ensures { result ≡ peer_code outcome }
{
    match outcome {
        Some(Outcome::PeerError(code)) => code,
        Some(_) => 0,
        None => 0,
    }
}

/// Reports a step of an end by its record, and copies the datagram to send.
#[inline(always)]
pub(crate) fn report_record(
    state: &Record,
    interval: u16,
    step: Step,
    datagram: &[u8],
    reply: &mut [u8],
    file_len: usize,
    event: &mut TftpEvent,
)
    ensures sends { Sends step.to datagram.now reply.new event.new }
    ensures fits { event.new.send_len ≤ length reply.old }
    ensures file { event.new.file_len ≡ file_len }
    ensures progress { event.new.progress ≡ step.progress }
    ensures interval { event.new.interval ≡ interval }
    ensures reports { ReportsRecord state.now event.new }
{
    event.send_len = 0;
    event.no_room = false;
    if let Some(to) = step.to {
        let at = address(to);
        let Written { len, is_lost } = write(datagram, reply);
        event.to = at;
        event.send_len = len;
        event.no_room = is_lost;
    }
    event.file_len = file_len;
    event.progress = step.progress;
    event.interval = interval;
    event.complete = state.complete;
    event.number = state.number;
    event.block_size = state.size;
    event.outcome = outcome_number(state.outcome);
    event.peer_code = peer_code(state.outcome);
}

/// As [`report_record`], for every call but that of a block: they share this code.
#[inline(never)]
pub(crate) fn report_apart(
    state: &Record,
    interval: u16,
    step: Step,
    datagram: &[u8],
    reply: &mut [u8],
    file_len: usize,
    event: &mut TftpEvent,
)
    ensures sends { Sends step.to datagram.now reply.new event.new }
    ensures fits { event.new.send_len ≤ length reply.old }
    ensures file { event.new.file_len ≡ file_len }
    ensures progress { event.new.progress ≡ step.progress }
    ensures interval { event.new.interval ≡ interval }
    ensures reports { ReportsRecord state.now event.new }
{
    report_record(state, interval, step, datagram, reply, file_len, event);
}

/// The state of an end, for the same calls.
#[inline(never)]
pub(crate) fn state_of(end: &End) -> Record
    ensures { result ≡ record_of end.now }
{
    end.record()
}

/// How long the caller of an end waits, in seconds.
#[inline(always)]
pub(crate) fn wait_of(end: &End, backoff: Backoff) -> u16
    ensures { result ≡ wait_of backoff (seconds_of (record_of end.now).timeout) (timeouts_of end.now) }
{
    backoff.wait(end.interval(), end.timeouts())
}

/// Reports a step of an end, and copies the datagram to send.
pub(crate) fn report(
    end: &End,
    backoff: Backoff,
    step: Step,
    outgoing: Outgoing,
    reply: &mut [u8],
    file_len: usize,
    event: &mut TftpEvent,
)
    ensures sends { Sends step.to (lent outgoing end.now) reply.new event.new }
    ensures fits { event.new.send_len ≤ length reply.old }
    ensures file { event.new.file_len ≡ file_len }
    ensures progress { event.new.progress ≡ step.progress }
    ensures waits { Waits backoff end.now event.new }
    ensures reports { Reports end.now event.new }
{
    let state = state_of(end);
    let wait = wait_of(end, backoff);
    let datagram = end.bytes_of(outgoing);
    report_apart(&state, wait, step, datagram, reply, file_len, event);
}

/// The step of an opening, whose first datagram is for `to`.
pub(crate) fn opening_step(to: Endpoint) -> Step
    ensures { result ≡ opening_step to }
{
    Step {
        to: Some(to),
        progress: false,
        closed: None,
    }
}

/// Reports an opening, and copies its first datagram, which fits the buffer.
pub(crate) fn report_opening(
    end: &End,
    to: Endpoint,
    reply: &mut [u8],
    file_len: usize,
    event: &mut TftpEvent,
)
    requires { length end.now.position.last_sent ≤ length reply.old }
    ensures sent { FirstSent end.now to reply.new event.new }
    ensures fits { event.new.send_len ≤ length reply.old }
    ensures file { event.new.file_len ≡ file_len }
{
    let step = opening_step(to);
    let first = Outgoing::LastSent;
    report(end, Backoff::Constant, step, first, reply, file_len, event);
}
