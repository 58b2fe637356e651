//! A client's end from its opening to its close, over its socket. It waits there while its end is
//! open, no longer than to its deadline and never longer than a second. A wait that ends behind the
//! deadline without progress is followed by the timeout (RFC 1350, section 2).

ghost use Rattle.std.specs.Prelude.{◌≡◌, ◌≤◌, ◌+◌, ◌-◌, ◌⊎◌, ◌∷◌, max, min, true, false, length};
ghost use Rattle.std.specs.Prelude.{take, Some, None, IsSome, IfSome, IfNone, IfOk, IfErr, OnOk};
ghost use Rattle.tftp_ends.specs.End.{is_complete, outcome_of};
ghost use Rattle.tftp_ends.specs.Files.{AreFilesOf};
ghost use Rattle.tftp_sockets.specs.declared.address.TheConstants.{DATAGRAM_BUFFER};
ghost use Rattle.tftp_sockets.specs.Trace.SocketEvent.{Quiet};
ghost use Rattle.tftp_sockets.specs.Trace.QuietEvent.{Slept};
ghost use Rattle.tftp_sockets.specs.Trace.{replied};
ghost use Rattle.tftp_sockets.specs.Quiet.{waits as waits_in};
ghost use Rattle.tftp_sockets.specs.Receipt.{Fits, receive_event};
ghost use Rattle.tftp_client.specs.Converses.{Converses, MayElapse, WorksOnFile};
ghost use Rattle.tftp_client.specs.Converses.{AnswersReceived, HandlesAs};
ghost use Rattle.tftp_client.specs.Converses.{EndsBy, IsOpen, deadline_at, deadline_after};
ghost use Rattle.tftp_client.specs.Converses.{seconds_of};

use crate::cause::Cause;
use crate::transfer::Job;
use crate::transfer::notes::{note_error, note_sent, note_total};
use std::alloc::{AllocError, Global};
use tftp_ends::{Backoff, End, Endpoint, Outcome, Step};
use tftp_file::{Files, Sink, Source};
use tftp_lines::{LineClock, ProgressLine, Reason};
use tftp_negotiate::Kind;
use tftp_sockets::{
    ClientSocket, ClientUdp, DATAGRAM_BUFFER, LONGEST_WAIT, Receipt, Udp, Watch, deadline, is_due,
};

/// The limit of waits of a command: in all its runs, and in its dally.
pub(crate) const MAX_WAITS: u32 = 1_000_000;

const _: () = prove!(MAX_WAITS == 1_000_000);

/// Erases the rest of a terminal's line.
const ERASE_REST: &str = "\x1b[K";

/// A step without effect.
const NO_STEP: Step = Step {
    to: None,
    progress: false,
    closed: None,
};

/// Whether progress is shown on standard error.
#[derive(Clone, Copy)]
pub(crate) enum Progress {
    Shown,
    Hidden,
}

/// A client's end, with its socket and its watch.
#[derive(Drop)]
pub(crate) struct Conversation {
    alloc: Global,
    pub(crate) socket: ClientSocket,
    end: End,
    watch: Watch,
    deadline: u64,
    backoff: Backoff,
    /// The time of the last progress, in milliseconds.
    advanced_at: u64,
    buffer: Vec<u8>,
    /// When progress was last shown, if it is shown.
    lines: Option<LineClock>,
    /// The length of the file in bytes, if known.
    total: Option<u64>,
    /// The direction of the transfer.
    kind: Kind,
    /// What the ERROR says by which the peer ended the transfer, if it did.
    said: Option<Cause>,
    /// Why the system refused to send the newest datagram, if it did.
    pub(crate) unsent: Option<Reason>,
    ghost room: { DATAGRAM_BUFFER ≤ length buffer.items },
}

impl Conversation {
    ghost use Rattle.tftp_client.specs.Conversation.{IsReady, state_of};

    /// The conversation of a job at its start. The caller sends the end's request.
    pub(crate) fn new<N: ClientUdp>(
        net: &N,
        alloc: Global,
        socket: ClientSocket,
        end: End,
        job: &Job<'_>,
        total: Option<u64>,
    ) -> Result<Conversation, AllocError>
        ensures { IfOk result (λ conversation. (conversation.end ≡ end)
            × (conversation.socket.port ≡ socket.port) × (conversation.watch.now ≡ 0)
            × (conversation.backoff ≡ job.now.backoff)
            × (conversation.deadline ≡ deadline_at job.now.backoff 0 end)) }
    {
        let watch = net.start_watch();
        let due = deadline(0, seconds(job.backoff, &end));
        Ok(Conversation {
            alloc,
            socket,
            end,
            watch,
            deadline: due,
            backoff: job.backoff,
            advanced_at: watch.now,
            buffer: Vec::from_elem(alloc, 0u8, DATAGRAM_BUFFER)?,
            lines: match job.progress {
                Progress::Shown => Some(LineClock::default()),
                Progress::Hidden => None,
            },
            total,
            kind: job.kind,
            said: None,
            unsent: None,
        })
    }

    /// Runs the transfer until it is complete. Fails with the outcome of a closed end, or with
    /// `TimedOut` after so many waits. Counts those that are left.
    pub(crate) fn run<E: Eprint, N: ClientUdp, S: Source, K: Sink>(
        &mut self,
        rt: &E,
        net: &mut N,
        files: &mut Files<S, K>,
        waits: &mut u32,
    ) -> Result<(), Outcome>
        requires files { AreFilesOf self.old.end.role.side files.old }
        requires not_closed { IsOpen self.old.end }
        requires incomplete { is_complete self.old.end.position.phase ≡ false }
        requires ready { IsReady self.old }
        ensures converses { Converses S.meaning K.meaning self.old.socket.port
            (state_of self.old (N.log net.old)) files.old
            (state_of self.new (N.log net.new)) files.new }
        ensures port { self.new.socket.port ≡ self.old.socket.port }
        ensures complete { OnOk result (is_complete self.new.end.position.phase ≡ true) }
        ensures failed { IfErr result (λ outcome. EndsBy (waits.old + waits_in (N.log net.old))
            (state_of self.new (N.log net.new)) outcome) }
        ensures incomplete { IfErr result (λ _.
            is_complete self.new.end.position.phase ≡ false) }
        ensures files { AreFilesOf self.new.end.role.side files.new }
        ensures ready { OnOk result (IsReady self.new) }
        ensures counted { waits.new + waits_in (N.log net.new)
            ≡ waits.old + waits_in (N.log net.old) }
    {
        let most = *waits;
        for made in 0..most {
            *waits = most - made - 1;
            self.turn(net, files);
            if let Some(ended) = ended(&self.end) {
                return ended;
            }
            self.show(rt);
        }
        Err(Outcome::TimedOut)
    }

    /// Runs the end of a complete transfer until it closes, or for so many waits. For two timeouts
    /// a receiver acknowledges its last block again whenever that is repeated (RFC 1350,
    /// section 6).
    pub(crate) fn dally<N: ClientUdp, S: Source, K: Sink>(
        &mut self,
        net: &mut N,
        files: &mut Files<S, K>,
        waits: u32,
    )
        requires files { AreFilesOf self.old.end.role.side files.old }
        requires ready { IsReady self.old }
        ensures converses { Converses S.meaning K.meaning self.old.socket.port
            (state_of self.old (N.log net.old)) files.old
            (state_of self.new (N.log net.new)) files.new }
        ensures port { self.new.socket.port ≡ self.old.socket.port }
        ensures waits { waits_in (N.log net.new) ≤ waits + waits_in (N.log net.old) }
        ensures over { IsSome (outcome_of self.new.end.position.phase)
            ⊎ (waits + waits_in (N.log net.old) ≤ waits_in (N.log net.new)) }
    {
        for _ in 0..waits {
            if self.end.outcome().is_some() {
                return;
            }
            self.turn(net, files);
        }
    }

    /// Waits once, and handles the datagram that arrived, if any. Without progress, delivers a
    /// timeout that is due: no wait begins behind the deadline.
    fn turn<N: ClientUdp, S: Source, K: Sink>(&mut self, net: &mut N, files: &mut Files<S, K>)
        requires files { AreFilesOf self.old.end.role.side files.old }
        requires not_closed { IsOpen self.old.end }
        requires ready { IsReady self.old }
        ensures converses { Converses S.meaning K.meaning self.old.socket.port
            (state_of self.old (N.log net.old)) files.old
            (state_of self.new (N.log net.new)) files.new }
        ensures port { self.new.socket.port ≡ self.old.socket.port }
        ensures files { AreFilesOf self.new.end.role.side files.new }
        ensures ready { IsReady self.new }
        ensures waits { waits_in (N.log net.new) ≡ 1 + waits_in (N.log net.old) }
    {
        let step = self.take_received(net, files);
        if self.end.outcome().is_some() {
            return;
        }
        if step.progress {
            self.advanced_at = self.watch.now;
            self.work(files);
            return;
        }
        self.take_timeout(net);
    }

    /// Waits once, until the end is due for a timeout, at most a second, and handles the datagram
    /// that arrived, if any. A failed receive counts as none.
    fn take_received<N: ClientUdp, S: Source, K: Sink>(
        &mut self,
        net: &mut N,
        files: &mut Files<S, K>,
    ) -> Step
        requires files { AreFilesOf self.old.end.role.side files.old }
        requires not_closed { IsOpen self.old.end }
        requires ready { IsReady self.old }
        ensures converses { Converses S.meaning K.meaning self.old.socket.port
            (state_of self.old (N.log net.old)) files.old
            (state_of self.new (N.log net.new)) files.new }
        ensures port { self.new.socket.port ≡ self.old.socket.port }
        ensures files { AreFilesOf self.new.end.role.side files.new }
        ensures advanced { result.progress ≡ true
            → self.new.deadline
            ≡ deadline_at self.new.backoff self.new.watch.now self.new.end }
        ensures waits { waits_in (N.log net.new) ≡ 1 + waits_in (N.log net.old) }
    {
        let received = receive_until(
            &mut self.socket,
            net,
            self.watch.now,
            self.deadline,
            self.buffer.as_mut_slice(),
        );
        net.read_watch(&mut self.watch);
        match received {
            Receipt::Datagram(from, count) => { self.answer_datagram(net, files, from, count) }
            Receipt::Nothing => NO_STEP,
            Receipt::Failed => NO_STEP,
        }
    }

    /// Handles the datagram in the buffer, and reads the clock again: the step may have used the
    /// file. After progress the deadline counts from then.
    fn answer_datagram<N: ClientUdp, S: Source, K: Sink>(
        &mut self,
        net: &mut N,
        files: &mut Files<S, K>,
        from: Endpoint,
        count: usize,
    ) -> Step
        requires files { AreFilesOf self.old.end.role.side files.old }
        requires count { count ≤ length self.old.buffer.items }
        ensures answers { AnswersReceived S.meaning K.meaning self.old.socket.port
            from (take count self.old.buffer.items)
            (state_of self.old (N.log net.old)) files.old
            (state_of self.new (N.log net.new)) files.new }
        ensures port { self.new.socket.port ≡ self.old.socket.port }
        ensures files { AreFilesOf self.new.end.role.side files.new }
        ensures advanced { result.progress ≡ true
            → self.new.deadline
            ≡ deadline_at self.new.backoff self.new.watch.now self.new.end }
    {
        let step = self.take_datagram(net, files, from, count);
        let now = net.read_watch(&mut self.watch);
        let seconds = seconds(self.backoff, &self.end);
        self.deadline = deadline_after(&step, now, seconds, self.deadline);
        step
    }

    /// Handles the datagram in the buffer, and sends the answer. Out of memory, it loses the
    /// datagram.
    fn take_datagram<N: ClientUdp, S: Source, K: Sink>(
        &mut self,
        net: &mut N,
        files: &mut Files<S, K>,
        from: Endpoint,
        count: usize,
    ) -> Step
        requires files { AreFilesOf self.old.end.role.side files.old }
        requires count { count ≤ length self.old.buffer.items }
        ensures handles { HandlesAs S.meaning K.meaning self.old.socket.port
            from (take count self.old.buffer.items)
            (state_of self.old (N.log net.old)) files.old
            (state_of self.new (N.log net.new)) files.new result.progress }
        ensures port { self.new.socket.port ≡ self.old.socket.port }
        ensures files { AreFilesOf self.new.end.role.side files.new }
    {
        let bytes = datagram_in(self.buffer.as_slice(), count);
        let Ok((step, outgoing)) = self.end.handle_datagram(files, from, bytes) else {
            return NO_STEP;
        };
        let sent = reply(&self.socket, net, step.to, self.end.bytes_of(outgoing));
        note_sent(&mut self.unsent, &step, sent);
        note_error(&mut self.said, self.alloc, &step, bytes);
        note_total(&mut self.total, &self.lines, &step, bytes);
        step
    }

    /// Reads the source ahead, or writes the sink's buffer, after the datagram is sent.
    fn work<S: Source, K: Sink>(&self, files: &mut Files<S, K>)
        requires { AreFilesOf self.now.end.role.side files.old }
        ensures works { WorksOnFile S.meaning K.meaning files.old files.new }
        ensures files { AreFilesOf self.now.end.role.side files.new }
    {
        match files {
            Files::Source(source) => source.read_ahead(),
            Files::Sink(sink) => sink.write_behind(),
        }
    }

    /// Delivers a timeout, if it is due, and sends the answer.
    fn take_timeout<N: ClientUdp>(&mut self, net: &mut N)
        ensures elapses { MayElapse self.old.socket.port
            (state_of self.old (N.log net.old)) (state_of self.new (N.log net.new)) }
        ensures port { self.new.socket.port ≡ self.old.socket.port }
        ensures side { self.new.end.role.side ≡ self.old.end.role.side }
        ensures ready { IsReady self.new }
    {
        if !is_due(self.watch.now, self.deadline) {
            return;
        }
        let now = self.watch.now;
        let Ok((step, outgoing)) = self.end.handle_timeout() else {
            return;
        };
        self.deadline = deadline(now, seconds(self.backoff, &self.end));
        net.elapsed(self.socket.port(), now);
        let sent = reply(&self.socket, net, step.to, self.end.bytes_of(outgoing));
        note_sent(&mut self.unsent, &step, sent);
    }

    /// The progress so far, counted in full blocks, at most `total`.
    fn progress_line(&self) -> ProgressLine {
        let record = self.end.record();
        let bytes = u64::from(record.number) * u64::from(record.size);
        ProgressLine {
            bytes: match self.total {
                Some(total) => bytes.min(total),
                None => bytes,
            },
            total: self.total,
            millis: self.advanced_at,
        }
    }

    /// Shows the progress, if that is due.
    fn show<E: Eprint>(&mut self, rt: &E)
        ensures end { self.new.end ≡ self.old.end }
        ensures watch { self.new.watch ≡ self.old.watch }
        ensures deadline { self.new.deadline ≡ self.old.deadline }
        ensures backoff { self.new.backoff ≡ self.old.backoff }
        ensures port { self.new.socket.port ≡ self.old.socket.port }
    {
        let Some(lines) = &mut self.lines else {
            return;
        };
        if lines.take_due(self.watch.now) {
            let line = self.progress_line();
            let _ = eprint!(rt; "\r{line}{ERASE_REST}");
        }
    }

    /// Shows the final progress, and ends the line. `stored` is the number of bytes that a receiver
    /// stored.
    pub(crate) fn finish<E: Eprint>(&self, rt: &E, stored: Option<u64>) {
        if self.lines.is_none() {
            return;
        }
        let mut line = self.progress_line();
        if let Some(bytes) = stored {
            line.bytes = bytes;
        }
        let _ = eprintln!(rt; "\r{line}{ERASE_REST}");
    }

    /// Why the transfer failed with this outcome, as far as the end knows it.
    pub(crate) fn into_cause(self, outcome: Outcome) -> Cause {
        let Conversation {
            end,
            kind,
            said,
            unsent,
            ..
        } = self;
        if outcome == Outcome::TimedOut {
            if let Some(reason) = unsent {
                return Cause::Unsent(reason);
            }
            if end.record().peer.is_some() {
                return Cause::Peer("no answer any more");
            }
        }
        match said {
            Some(cause) => cause,
            None => Cause::of(outcome, kind),
        }
    }
}

/// How a transfer ended, if it did: complete, or with the outcome of its closed end.
fn ended(end: &End) -> Option<Result<(), Outcome>>
    ensures complete { IfSome result (λ ended. OnOk ended
        (is_complete end.now.position.phase ≡ true)) }
    ensures closed { IfSome result (λ ended. IfErr ended (λ outcome.
        outcome_of end.now.position.phase ≡ Some outcome)) }
    ensures incomplete { IfSome result (λ ended. IfErr ended (λ _.
        is_complete end.now.position.phase ≡ false)) }
    ensures open { IfNone result ((is_complete end.now.position.phase ≡ false)
        × (outcome_of end.now.position.phase ≡ None)) }
{
    let record = end.record();
    if record.complete {
        return Some(Ok(()));
    }
    record.outcome.map(Err)
}

/// Waits for a datagram until `deadline`, at most a second. The buffer has room for the longest
/// one, so that none is cut.
fn receive_until<N: ClientUdp>(
    socket: &mut ClientSocket,
    net: &mut N,
    now: u64,
    deadline: u64,
    buffer: &mut [u8],
) -> Receipt
    requires room { DATAGRAM_BUFFER ≤ length buffer.old }
    ensures port { socket.new.port ≡ socket.old.port }
    ensures noted { N.log net.new ≡ receive_event socket.old.port buffer.new result
        ∷ Quiet (Slept (max (min (deadline - now) LONGEST_WAIT) 1)) ∷ N.log net.old }
    ensures fits { Fits buffer.new result }
{
    let wait = deadline.saturating_sub(now).min(LONGEST_WAIT);
    net.receive(socket, wait, buffer)
}

/// The datagram of so many bytes that was received into the buffer.
fn datagram_in(buffer: &[u8], count: usize) -> &[u8]
    requires { count ≤ length buffer.now }
    ensures { result.now ≡ take count buffer.now }
{
    &buffer[..count]
}

/// Sends the answer of a step, if it has one. If the system refuses it, it is lost, and its reason
/// returned.
fn reply<N: ClientUdp>(
    socket: &ClientSocket,
    net: &mut N,
    to: Option<Endpoint>,
    bytes: &[u8],
) -> Result<(), Reason>
    ensures { N.log net.new ≡ replied socket.now.port to bytes.now (N.log net.old) }
{
    match to {
        Some(to) => net.send(socket, to, bytes),
        None => Ok(()),
    }
}

/// How long an end waits for its peer, in seconds: its interval, or twice as long after each timeout
/// without progress (RFC 2349, "Timeout Interval Option Specification"; RFC 1123, section 4.2.3.2).
fn seconds(backoff: Backoff, end: &End) -> u16
    ensures { result ≡ seconds_of backoff end.now }
{
    backoff.wait(end.interval(), end.timeouts())
}

/// The deadline after a step at `now`, in milliseconds: progress restarts the timeout of `seconds`
/// (RFC 2349, "Timeout Interval Option Specification").
fn deadline_after(step: &Step, now: u64, seconds: u16, current: u64) -> u64
    ensures { result ≡ deadline_after step.now.progress now seconds current }
{
    if step.progress {
        deadline(now, seconds)
    } else {
        current
    }
}
