//! A visit of the port of a transfer: its datagrams, and its timeout.

ghost use Rattle.std.specs.Prelude.{◌≡◌, ◌≤◌, ◌⊎◌, IsSome, MatchOption, IfSome};
ghost use Rattle.std.specs.Prelude.{◌≢◌, ◌<◌, ◌+◌, false, length, ℕ, None};
ghost use Rattle.tftp_sockets.specs.declared.address.TheConstants.{DATAGRAM_BUFFER};
ghost use Rattle.tftp_server.specs.State.{at, is_open, taken_of};
ghost use Rattle.tftp_loop.specs.Fair.{ReceivesAtMost};
ghost use Rattle.tftp_loop.specs.PortVisit.{AnswersReceived, HasStatus, IsTried, ServesVisit};
ghost use Rattle.tftp_loop.specs.PortVisit.{at_visit};
ghost use Rattle.tftp_loop.specs.Steps.{AnswersTimeout};
ghost use Rattle.tftp_loop.specs.Steps.{Timer, WorksAtPort, most_in_round, sends_again, timer_after};
ghost use Rattle.tftp_loop.specs.LoopStates.{OnlyServesPort, at_port, timer_of};
ghost use Rattle.tftp_loop.specs.MayWait.{IsNotVisited, IsTimed, IsUnclosedBy};
ghost use Rattle.tftp_loop.specs.MayWait.{LeavesTimer};
ghost use Rattle.tftp_loop.specs.MayWait.{StaysOpen, UnlessClosed, leaves_by, leaves_timed};

use crate::datagram::Datagram;
use crate::log_entry::LogEntry;
use crate::transfer_port::{
    TransferPort, mark_empty, mark_ready, note_received, note_step, reply, restart, work_at,
};
use tftp_ends::Step;
use tftp_lines::Reason;
use tftp_server::{Server, Store};
use tftp_sockets::{Receipt, ServerSocket, ServerUdp, is_due};

/// The most datagrams received from one socket in a visit, so that a flood at one port does not
/// starve the others.
const MOST_AT_ONCE: usize = 32;

const _: () = prove!(1 <= MOST_AT_ONCE && MOST_AT_ONCE <= 32);
// A port has two visits between two waits: one if it is marked, and one if it is due.
const _: () = prove!(2 * MOST_AT_ONCE <= 64);

/// Which ports of transfers a pass over all of them is for, and what it does there.
#[derive(Clone, Copy)]
pub(crate) enum Pass {
    /// If the port is marked, its datagrams are handled.
    Ready,
    /// If the port is due, its datagrams are handled, or else its timeout.
    Due,
}

/// The result of a receive at a transfer's port, of a timeout, or of a visit.
#[derive(Clone, Copy, PartialEq, Eq)]
pub(crate) enum PortStatus {
    /// No datagram was received.
    Empty,
    /// The transfer advanced. Datagrams that are left are received once a wait reports the port, or
    /// when it is due.
    Onward,
    /// Datagrams may be left.
    Unfinished,
    /// The transfer closed.
    Closed,
}

impl PortStatus {
    /// Whether the transfer closed.
    pub(crate) fn is_closed(self) -> bool
        ensures { result ≡ false → self ≢ PortStatus.Closed }
    {
        match self {
            PortStatus::Closed => true,
            PortStatus::Empty | PortStatus::Onward | PortStatus::Unfinished => false,
        }
    }
}

/// When a port is visited.
#[derive(Clone, Copy)]
pub(crate) struct Moment {
    /// The time of the watch, in milliseconds.
    pub(crate) now: u64,
    /// The number of active transfers.
    pub(crate) active: usize,
}

/// Whether a pass is for the port of a transfer: it is marked, or it is due.
pub(crate) fn is_visited(pass: Pass, now: u64, port: &TransferPort) -> bool
    ensures { result ≡ false → IsNotVisited pass now (timer_of port.now) }
{
    match pass {
        Pass::Ready => port.is_ready,
        Pass::Due => is_due(now, port.look_at),
    }
}

/// Visits the port of a transfer.
pub(crate) fn visit_port<N: ServerUdp, S: Store>(
    server: &mut Server<S>,
    port: &mut TransferPort,
    net: &mut N,
    moment: Moment,
    pass: Pass,
    buffer: &mut [u8],
) -> PortStatus
    // The port before the visit.
    requires long { DATAGRAM_BUFFER ≤ length buffer.old }
    requires due { port.old.look_at ≤ port.old.socket.deadline }
    requires few { port.old.socket.received ≤ MOST_AT_ONCE }
    // What happens at the port, and what the next wait may rest on.
    ensures serves { OnlyServesPort S.meaning S.Source.meaning moment.now server.old port.old
        (N.log net.old) server.new port.new (N.log net.new) }
    ensures leaves { leaves_by pass (at_port server.new port.new (N.log net.new)) moment.now }
    ensures received { ReceivesAtMost MOST_AT_ONCE (N.log net.old) (N.log net.new) }
    ensures open { UnlessClosed result (StaysOpen (at_port server.old port.old (N.log net.old))
        (at_port server.new port.new (N.log net.new))) }
    // What stays.
    ensures file { N.file net.new ≡ N.file net.old }
{
    let mut visit = PortVisit {
        server,
        port,
        net,
        now: moment.now,
        active: moment.active,
    };
    match pass {
        Pass::Ready => visit.take_datagrams(buffer),
        Pass::Due => visit.take_due(buffer),
    }
}

/// A visit of the port of a transfer: what its steps read and change.
#[derive(Drop)]
struct PortVisit<'a, N, S: Store> {
    server: &'a mut Server<S>,
    port: &'a mut TransferPort,
    net: &'a mut N,
    /// The time of the watch, in milliseconds.
    now: u64,
    /// The number of active transfers.
    active: usize,
}

impl<N: ServerUdp, S: Store> PortVisit<'_, N, S> {
    /// Handles the datagrams at the port. Without progress, delivers the timeout if that is due.
    fn take_due(&mut self, buffer: &mut [u8]) -> PortStatus
        // The port before the visit.
        requires few { self.old.port.now.socket.received ≤ MOST_AT_ONCE }
        requires long { DATAGRAM_BUFFER ≤ length buffer.old }
        // What happens at the port, and what the next wait may rest on.
        ensures serves { ServesVisit N.log S.meaning S.Source.meaning MOST_AT_ONCE self.old
            self.new }
        ensures timed { leaves_timed (at_visit N.log self.new) self.new.now }
        ensures open { UnlessClosed result (StaysOpen (at_visit N.log self.old)
            (at_visit N.log self.new)) }
        ensures file { N.file self.new.net.now ≡ N.file self.old.net.now }
    {
        let status = self.take_datagrams(buffer);
        if status == PortStatus::Closed {
            return status;
        }
        if status == PortStatus::Onward {
            return status;
        }
        self.time_out_if_due()
    }

    /// Receives datagrams and handles them, until the transfer advances or closes, or none is left.
    fn take_datagrams(&mut self, buffer: &mut [u8]) -> PortStatus
        // The port before the visit.
        requires few { self.old.port.now.socket.received ≤ MOST_AT_ONCE }
        requires long { DATAGRAM_BUFFER ≤ length buffer.old }
        // What happens at the port, and what the next wait may rest on.
        ensures serves { ServesVisit N.log S.meaning S.Source.meaning MOST_AT_ONCE self.old
            self.new }
        ensures status { HasStatus result self.new }
        ensures tried { IsTried N.log self.new }
        ensures open { UnlessClosed result (StaysOpen (at_visit N.log self.old)
            (at_visit N.log self.new)) }
        // What stays.
        ensures file { N.file self.new.net.now ≡ N.file self.old.net.now }
    {
        for count in 0..MOST_AT_ONCE {
            match self.net.receive(&self.port.socket.udp, buffer) {
                Receipt::Datagram(from, length) => {
                    let bytes = &buffer[..length];
                    match self.answer(Datagram { from, bytes }) {
                        PortStatus::Unfinished => {}
                        status => return status,
                    }
                }
                Receipt::Nothing => {
                    mark_empty(self.port);
                    return PortStatus::Empty;
                }
                Receipt::Failed => {
                    mark_ready(self.port);
                    return PortStatus::Empty;
                }
            }
        }
        PortStatus::Unfinished
    }

    /// Handles a datagram that was received at the port, and sends the answer. After that the file
    /// reads ahead or is written back. Once the transfer is over age the datagram is dropped: so
    /// its timeouts run out. It is lost when out of memory, or if no transfer is open.
    fn answer(&mut self, datagram: Datagram<'_>) -> PortStatus
        // What happens to the datagram.
        requires { self.old.port.now.socket.received < most_in_round }
        ensures answers { AnswersReceived N.log S.meaning S.Source.meaning datagram.entry self.old
            self.new }
        ensures status { HasStatus result self.new }
        ensures counted { self.new.port.now.socket.received
            ≡ self.old.port.now.socket.received + 1 }
        // What stays.
        ensures open { UnlessClosed result (StaysOpen (at_visit N.log self.old)
            (at_visit N.log self.new)) }
        ensures file { N.file self.new.net.now ≡ N.file self.old.net.now }
    {
        if self.port.socket.age_limit < self.now {
            note_received(self.port);
            return PortStatus::Unfinished;
        }
        let Datagram { from, bytes } = datagram;
        let tid = self.port.socket.udp.port();
        let socket = &mut self.port.socket;
        let Ok((step, outgoing)) = self.server.handle_datagram(tid, from, bytes) else {
            note_received(self.port);
            return PortStatus::Unfinished;
        };
        let answer = self.server.bytes_of(tid, outgoing).unwrap_or_default();
        let sent = reply(self.net, &socket.udp, step.to, answer);
        add_step(&mut socket.log_entry, bytes, &step, answer, sent);
        note_step(self.port, self.now, &step);
        work_after(self.server, self.port, &step, self.active);
        status_of(&step)
    }

    /// Delivers the timeout, if it is due, and sends the datagram of its step.
    fn time_out_if_due(&mut self) -> PortStatus
        // The port was read, and is not left for a while.
        requires tried { IsTried N.log self.old }
        requires look { self.old.port.now.look_at ≡ self.old.port.now.socket.deadline }
        // What happens at the port, and what the next wait may rest on.
        ensures serves { ServesVisit N.log S.meaning S.Source.meaning 0 self.old self.new }
        ensures timed { IsTimed self.new.now (timer_of self.new.port.now) }
        ensures open { UnlessClosed result (StaysOpen (at_visit N.log self.old)
            (at_visit N.log self.new)) }
        ensures file { N.file self.new.net.now ≡ N.file self.old.net.now }
    {
        if !is_due(self.now, self.port.socket.deadline) {
            return PortStatus::Empty;
        }
        let number = self.port.socket.udp.port();
        self.net.elapsed(number, self.now);
        let socket = &self.port.socket;
        let step = time_out(self.server, &socket.udp, &socket.log_entry, self.net);
        restart(self.port, self.now, sends_again(&step));
        status_of_timeout(step)
    }
}

/// Adds a datagram, its step and its answer to the log entry, if there is one, and why the system
/// refused to send the answer, if it did.
fn add_step(
    log_entry: &mut Option<LogEntry>,
    received: &[u8],
    step: &Step,
    answer: &[u8],
    sent: Result<(), Reason>,
) {
    if let Some(entry) = log_entry {
        entry.keep_unsent(sent);
        entry.add(received, step, answer);
    }
}

/// Counts the datagram of a timeout's step, if there is a log entry, and stores why the system
/// refused to send it, if it did.
fn count_again(log_entry: &Option<LogEntry>, step: &Step, sent: Result<(), Reason>) {
    if let Some(entry) = log_entry {
        entry.keep_unsent(sent);
        entry.count_again(step);
    }
}

/// Lets the file read ahead or be written back after progress, if the transfer is still open and no
/// more transfers are active than its limit.
fn work_after<S: Store>(server: &mut Server<S>, port: &TransferPort, step: &Step, active: usize)
    ensures works { (server.new ≡ server.old)
        ⊎ WorksAtPort S.meaning S.Source.meaning port.now.socket.udp.port server.old server.new }
    ensures closed { IsSome step.now.closed → server.new ≡ server.old }
{
    if active > port.socket.file_work_limit {
        return;
    }
    if !step.progress {
        return;
    }
    if step.closed.is_some() {
        return;
    }
    work_at(server, port);
}

/// Whether a timeout made a transfer send again. If none was open, it did not.
fn sends_again(step: &Option<Step>) -> bool
    ensures { result ≡ sends_again step.now }
{
    match step {
        Some(step) => step.to.is_some(),
        None => false,
    }
}

/// The result of a timeout's step, if a transfer was open.
fn status_of_timeout(step: Option<Step>) -> PortStatus
    ensures { UnlessClosed result (IfSome step (λ step. step.closed ≡ None)) }
{
    match step {
        Some(step) if step.closed.is_some() => PortStatus::Closed,
        _ => PortStatus::Empty,
    }
}

/// The result of a step.
fn status_of(step: &Step) -> PortStatus
    ensures closed { result ≡ PortStatus.Closed → IsSome step.now.closed }
    ensures open { UnlessClosed result (step.now.closed ≡ None) }
    ensures timer { (now : ℕ) (timer : Timer)
        → LeavesTimer result now (timer_after now step.now.progress timer) }
{
    if step.closed.is_some() {
        return PortStatus::Closed;
    }
    if step.progress {
        PortStatus::Onward
    } else {
        PortStatus::Unfinished
    }
}

/// Makes the timeout step of the transfer at the socket's port, and sends its datagram. `None` if
/// no transfer is open.
fn time_out<N: ServerUdp, S: Store>(
    server: &mut Server<S>,
    udp: &ServerSocket,
    log_entry: &Option<LogEntry>,
    net: &mut N,
) -> Option<Step>
    ensures steps { MatchOption result
        ((is_open (at udp.now.port server.old.held) ≡ false) × (server.new ≡ server.old)
        × (N.log net.new ≡ N.log net.old))
        (λ step. AnswersTimeout udp.now.port server.old server.new (N.log net.old)
        (N.log net.new) step) }
    ensures open { IsUnclosedBy result udp.now.port server.old.held server.new.held }
    ensures received { ReceivesAtMost 0 (N.log net.old) (N.log net.new) }
    ensures file { N.file net.new ≡ N.file net.old }
{
    let tid = udp.port();
    let Ok((step, outgoing)) = server.handle_timeout(tid) else {
        return None;
    };
    let answer = server.bytes_of(tid, outgoing).unwrap_or_default();
    let sent = reply(net, udp, step.to, answer);
    count_again(log_entry, &step, sent);
    Some(step)
}
