//! The port of a transfer: its socket, its timer and its mark.

ghost use Rattle.std.specs.Prelude.{◌≡◌, ◌<◌, ◌∷◌, List, true, false, map, min, ◌+◌};
ghost use Rattle.std.specs.Prelude.{◌≤◌, if◌then◌else◌};
ghost use Rattle.tftp_ends.specs.Action.{same_address};
ghost use Rattle.tftp_sockets.specs.Trace.{replied};
ghost use Rattle.tftp_sockets.specs.Watch.{last_moment};
ghost use Rattle.tftp_loop.specs.Fair.{ReceivesAtMost};
ghost use Rattle.tftp_loop.specs.Steps.{WorksAtPort, age_limit_of, look_after, marked_as};
ghost use Rattle.tftp_loop.specs.Steps.{most_in_round, open_of, restarted, timeouts_after};
ghost use Rattle.tftp_loop.specs.Steps.{timer_after, wait_in};
ghost use Rattle.tftp_loop.specs.LoopStates.{timer_of};
ghost use Rattle.tftp_loop.specs.MayWait.{IsSurveyOf, earlier, marked_if, set_if, wait_until};
ghost use Rattle.tftp_loop.specs.MayWait.{woken_if};

use crate::log_entry::LogEntry;
use tftp_ends::{Backoff, Endpoint, Step};
use tftp_lines::Reason;
use tftp_server::{Server, Store};
use tftp_sockets::{LONGEST_WAIT, Port, ServerSocket, ServerUdp, deadline};

/// The time after an opening or progress at which a port is read again though no wait reported it,
/// in milliseconds. A second datagram that arrived with the first is reported only once.
const LOOK_AFTER: u64 = 500;

/// The time after its opening and after progress for which a transfer counts as active, in
/// milliseconds.
const ACTIVE_FOR: u64 = 500;

/// The socket, the timer and the log entry of a transfer.
#[derive(Drop)]
pub(crate) struct TransferSocket {
    pub(crate) udp: ServerSocket,
    /// The endpoint that asked for the transfer.
    pub(crate) peer: Endpoint,
    /// The timeout interval in seconds: the wait for a timeout after an opening or progress.
    pub(crate) interval: u8,
    /// How long it waits after timeouts.
    pub(crate) backoff: Backoff,
    /// How many timeouts made it send again since the opening or the newest progress.
    pub(crate) timeouts: u8,
    /// When the transfer times out, in milliseconds. The port may be due earlier, to be read again.
    pub(crate) deadline: u64,
    /// Whether the deadline counts from a time that was read before the newest opening, progress or
    /// timeout: the next reading of the clock sets it.
    pub(crate) is_provisional: bool,
    /// When the transfer was opened or last made progress, in milliseconds.
    pub(crate) moved_at: u64,
    /// The time behind which the transfer is over age, in milliseconds: its datagrams are dropped.
    pub(crate) age_limit: u64,
    /// The number of datagrams that were received at the port since the last wait.
    pub(crate) received: usize,
    /// The number of active transfers up to which its file reads ahead or is written back.
    pub(crate) file_work_limit: usize,
    /// The log entry, if there is a log or the device counts.
    pub(crate) log_entry: Option<LogEntry>,
}

/// The port of a transfer.
pub(crate) type TransferPort = Port<TransferSocket>;

/// What the ports of transfers ask of the next wait.
#[derive(Clone, Copy)]
pub(crate) struct Survey {
    /// Whether one is marked.
    pub(crate) is_ready: bool,
    /// The nearest time at which one is read, marked or not, in milliseconds. `None` without ports.
    pub(crate) look_at: Option<u64>,
    /// The number of transfers that were opened or made progress lately. One that only waits for a
    /// repeated datagram, or whose client vanished, does not count.
    pub(crate) active: usize,
}

/// How many of these ports are of transfers with the address of this endpoint.
pub(crate) fn open_of(from: Endpoint, ports: &[TransferPort]) -> usize
    ensures { result ≡ open_of from (map timer_of ports.now) }
{
    let mut count = 0;
    let mut index = ports.len();
    while index > 0 {
        index -= 1;
        count += counted(from, &ports[index]);
    }
    count
}

/// One if the transfer at a port is of a peer with the address of this endpoint.
fn counted(from: Endpoint, port: &TransferPort) -> usize
    ensures one { result ≡ (if same_address port.now.socket.peer from then 1 else 0) }
    ensures most { result ≤ 1 }
{
    if port.socket.peer.ip == from.ip { 1 } else { 0 }
}

impl Survey {
    /// One pass over the ports of transfers.
    pub(crate) fn of(now: u64, ports: &[TransferPort]) -> Survey
        ensures { IsSurveyOf ports.now result }
    {
        let mut survey = Survey {
            is_ready: false,
            look_at: None,
            active: 0,
        };
        let mut index = ports.len();
        while index > 0 {
            index -= 1;
            survey = survey.with(now, &ports[index]);
        }
        survey
    }

    /// The survey of these ports and this one.
    fn with(self, now: u64, port: &TransferPort) -> Survey
        ensures { (ports : List (Port TransferSocket)) → IsSurveyOf ports self
            → IsSurveyOf (port.now ∷ ports) result }
    {
        Survey {
            is_ready: port.is_ready || self.is_ready,
            look_at: Some(earlier(port.look_at, self.look_at)),
            active: self
                .active
                .saturating_add(usize::from(is_active(now, port))),
        }
    }

    /// How long to wait, in milliseconds, if no port is marked: until the nearest time at which one
    /// is read, at most a second.
    pub(crate) fn millis(self, now: u64) -> u64
        ensures { result ≡ wait_until now self.look_at }
    {
        match self.look_at {
            Some(time) => time.saturating_sub(now).min(LONGEST_WAIT),
            None => LONGEST_WAIT,
        }
    }
}

/// The earlier of two times, of which there may be one.
fn earlier(time: u64, other: Option<u64>) -> u64
    ensures { result ≡ earlier time other }
{
    match other {
        Some(other) => time.min(other),
        None => time,
    }
}

/// Whether a transfer was opened or made progress lately.
fn is_active(now: u64, port: &TransferPort) -> bool {
    now <= port.socket.moved_at.saturating_add(ACTIVE_FOR)
}

/// Sends the answer of a step, if it has one. If the system refuses it, it is lost, and its reason
/// returned.
pub(crate) fn reply<N: ServerUdp>(
    net: &mut N,
    socket: &ServerSocket,
    to: Option<Endpoint>,
    bytes: &[u8],
) -> Result<(), Reason>
    ensures events { N.log net.new ≡ replied socket.now.port to bytes.now (N.log net.old) }
    ensures told { N.told net.new ≡ N.told net.old }
    ensures received { ReceivesAtMost 0 (N.log net.old) (N.log net.new) }
    ensures file { N.file net.new ≡ N.file net.old }
{
    match to {
        Some(to) => net.send(socket, to, bytes),
        None => Ok(()),
    }
}

/// Counts a datagram. If its step was progress, restarts the timer of the transfer, and leaves the
/// port for a while. Else the port stays marked.
pub(crate) fn note_step(port: &mut TransferPort, now: u64, step: &Step)
    requires { port.old.socket.received < most_in_round }
    ensures { timer_of port.new ≡ timer_after now step.now.progress (timer_of port.old) }
{
    if step.progress {
        note_progress(port, now);
    } else {
        note_received(port);
    }
}

/// Counts a datagram, restarts the timer of its transfer, and leaves its port for a while.
fn note_progress(port: &mut TransferPort, now: u64)
    requires { port.old.socket.received < most_in_round }
    ensures { timer_of port.new ≡ timer_after now true (timer_of port.old) }
{
    port.socket.timeouts = 0;
    let deadline = deadline(now, port.socket.backoff.wait(port.socket.interval, 0));
    port.socket.received += 1;
    port.socket.moved_at = now;
    port.socket.deadline = deadline;
    port.socket.is_provisional = true;
    port.is_ready = false;
    port.look_at = deadline.min(next_look(now));
}

/// Counts a datagram that made no progress. More may be at the port.
pub(crate) fn note_received(port: &mut TransferPort)
    requires { port.old.socket.received < most_in_round }
    ensures { timer_of port.new ≡ timer_after 0 false (timer_of port.old) }
{
    port.socket.received += 1;
    port.is_ready = true;
    port.look_at = port.socket.deadline;
}

/// When a port is read again, if its transfer opens or advances at `now` and does not expire
/// before.
pub(crate) fn next_look(now: u64) -> u64
    ensures { result ≡ min (now + look_after) last_moment }
{
    now.saturating_add(LOOK_AFTER)
}

/// The time behind which a transfer that opens at `now` is over age: so many seconds later, or
/// never.
pub(crate) fn age_limit(now: u64, longest: Option<u32>) -> u64
    ensures { result ≡ age_limit_of now longest }
{
    match longest {
        Some(seconds) => now.saturating_add(u64::from(seconds) * 1_000),
        None => u64::MAX,
    }
}

/// Marks that a datagram may be at a transfer's port.
pub(crate) fn mark_ready(port: &mut TransferPort)
    ensures { timer_of port.new ≡ marked_as true (timer_of port.old) }
{
    port.is_ready = true;
    port.look_at = port.socket.deadline;
}

/// Removes the mark of a transfer's port, since no datagram is there. The port is read when a wait
/// reports it, or when the transfer times out.
pub(crate) fn mark_empty(port: &mut TransferPort)
    ensures { timer_of port.new ≡ marked_as false (timer_of port.old) }
{
    port.is_ready = false;
    port.look_at = port.socket.deadline;
}

/// Wakes the ports of transfers after a wait: sets the provisional deadlines at the reading of the
/// clock before it, marks the ports that it reported, and counts anew what is received at each.
pub(crate) fn wake_all(ports: &mut [TransferPort], time: u64, reported: &[u16])
    ensures { ports.new ≡ map (woken_if time reported.now) ports.old }
{
    for port in ports.iter_mut() {
        wake(port, time, reported);
    }
}

/// Wakes the port of a transfer.
fn wake(port: &mut TransferPort, time: u64, reported: &[u16])
    ensures { port.new ≡ woken_if time reported.now port.old }
{
    set_deadline(port, time);
    mark_reported(port, reported);
}

/// Marks a port if a wait reported it, and counts anew.
fn mark_reported(port: &mut TransferPort, reported: &[u16])
    ensures { port.new ≡ marked_if reported.now port.old }
{
    port.socket.received = 0;
    let number = port.socket.udp.port();
    if reported.contains(&number) {
        port.is_ready = true;
    }
}

/// Lets the file of the transfer at the port be written back, or read ahead.
pub(crate) fn work_at<S: Store>(server: &mut Server<S>, port: &TransferPort)
    ensures { WorksAtPort S.meaning S.Source.meaning port.now.socket.udp.port server.old
        server.new }
{
    server.work(port.socket.udp.port());
}

/// Restarts the timer of a transfer after a timeout, which made it send again, or did not.
pub(crate) fn restart(port: &mut TransferPort, now: u64, again: bool)
    ensures { timer_of port.new ≡ restarted now again (timer_of port.old) }
{
    port.socket.timeouts = timeouts_after(again, port.socket.timeouts);
    port.look_at = deadline(now, wait_in(port));
    port.socket.deadline = port.look_at;
    port.socket.is_provisional = true;
}

/// How many timeouts made a transfer send again after one more, which did, or did not.
fn timeouts_after(again: bool, timeouts: u8) -> u8
    ensures { result ≡ timeouts_after again timeouts }
{
    if again {
        timeouts.saturating_add(1)
    } else {
        timeouts
    }
}

/// How long a transfer waits for its next timeout, in seconds (RFC 1123, section 4.2.3.2).
fn wait_in(port: &TransferPort) -> u16
    ensures { result ≡ wait_in (timer_of port.now) }
{
    port.socket
        .backoff
        .wait(port.socket.interval, port.socket.timeouts)
}

/// Sets the deadline of a transfer at a reading of the clock, if it is provisional.
fn set_deadline(port: &mut TransferPort, time: u64)
    ensures { port.new ≡ set_if time port.old }
{
    if !port.socket.is_provisional {
        return;
    }
    let latest = deadline(time, wait_in(port));
    port.socket.deadline = port.socket.deadline.max(latest);
    port.socket.is_provisional = false;
}
