//! The loop over the ports of a server, in one thread.

ghost use Rattle.std.specs.Prelude.{◌≡◌, ◌≤◌, ◌<◌, ◌+◌, ◌⊎◌, ◌||◌, IfErr, OnOk};
ghost use Rattle.std.specs.Prelude.{IfOk, IsTrue, List, length, map, false, if◌then◌else◌};
ghost use Rattle.tftp_sockets.specs.declared.address.TheConstants.{DATAGRAM_BUFFER};
ghost use Rattle.tftp_sockets.specs.Trace.{SocketEvent};
ghost use Rattle.tftp_sockets.specs.Quiet.{is_among};
ghost use Rattle.tftp_loop.specs.Steps.{marked_by, set_by};
ghost use Rattle.tftp_loop.specs.LoopStates.{AreBound, AreLong, FailsToPrint, HasRoom};
ghost use Rattle.tftp_loop.specs.LoopStates.{IsAtStart, IsEmptied};
ghost use Rattle.tftp_loop.specs.LoopStates.{EndsRounds, OnlyWorks};
ghost use Rattle.tftp_loop.specs.LoopStates.{WorksRound};
ghost use Rattle.tftp_loop.specs.MayWait.{Finishes, HasRead, HasWaited, HasWoken, MayBeginWait};
ghost use Rattle.tftp_loop.specs.MayWait.{AwaitVisit, HasFew, WereVisited, before_visit};
ghost use Rattle.tftp_loop.specs.MayWait.{IsSurveyOf};
ghost use Rattle.tftp_loop.specs.MayWait.{IsSettled, IsTended};
ghost use Rattle.tftp_loop.specs.MayWait.{millis_of, reads_of, timers_of};

use crate::drain::Drain;
use crate::log::Log;
use crate::port_visit::{Moment, Pass, is_visited, visit_port};
use crate::report::{log_drain, log_unsent, record_of_closed, report_close, report_if_due};
use crate::serving::{LoopConfig, LoopFault};
use crate::sockets::Sockets;
use crate::transfer_port::{Survey, TransferPort, wake_all, work_at};
use std::alloc::{AllocError, Global};
use tftp_ends::{Backoff, Endpoint};
use tftp_lines::Reason;
use tftp_server::{Server, Store};
use tftp_sockets::{DATAGRAM_BUFFER, DrainSignal, LONGEST_WAIT, Reports, ServerUdp, index_of};
use tftp_store::ServedStore;

/// The most ports that one wait reports.
const MOST_REPORTS: usize = 128;

/// A server with its sockets.
#[derive(Drop)]
pub(crate) struct ServerLoop<S: Store + Drop> {
    pub(crate) server: Server<S>,
    pub(crate) sockets: Sockets,
    pub(crate) ports: Vec<TransferPort>,
    /// The answer to a datagram of the request port.
    pub(crate) out: Vec<u8>,
    /// A datagram of the request port that is to be admitted again: its sender, and its length in
    /// bytes.
    pub(crate) pending: Option<(Endpoint, usize)>,
    /// The number of active transfers, as of the last wait.
    active: usize,
    /// The number of transfers that are yet to close.
    pub(crate) left: u64,
    /// The number of waits that may still begin.
    pub(crate) rounds: u64,
    /// The age of a transfer, in seconds, behind which its datagrams are dropped.
    pub(crate) longest: Option<u32>,
    /// How long a transfer waits after timeouts without progress.
    pub(crate) backoff: Backoff,
    /// Whether what does not begin as a request is dropped at the request port.
    pub(crate) requests_only: bool,
    /// How many transfers one address has open at most.
    pub(crate) per_client: Option<u8>,
    /// Whether it takes no new request.
    pub(crate) drain: Drain,
    /// The time of the watch at which the signal to drain is looked at again, in milliseconds.
    signal_look: u64,
    pub(crate) log: Log,
    pub(crate) alloc: Global,
}

/// The ports that a wait reports, and buffers for a datagram of the request port and one of a
/// transfer.
#[derive(Drop)]
pub(crate) struct Buffers {
    pub(crate) reports: Reports,
    pub(crate) request: Vec<u8>,
    pub(crate) datagram: Vec<u8>,
}

impl Buffers {
    /// Buffers with room for the longest datagrams: a shorter one would cut a DATA, which then
    /// counts as the last block (RFC 1350, section 6).
    pub(crate) fn new(alloc: Global) -> Result<Buffers, AllocError>
        ensures { IfOk result AreLong }
    {
        let request = buffer(alloc, DATAGRAM_BUFFER)?;
        let datagram = buffer(alloc, DATAGRAM_BUFFER)?;
        match Reports::new(alloc, MOST_REPORTS) {
            Ok(reports) => Ok(Buffers {
                reports,
                request,
                datagram,
            }),
            Err(error) => Err(error),
        }
    }
}

/// A buffer of this size, in bytes.
fn buffer(alloc: Global, size: usize) -> Result<Vec<u8>, AllocError>
    ensures { IfOk result (λ buffer. length buffer.items ≡ size) }
{
    Vec::from_elem(alloc, 0u8, size)
}

impl<S: ServedStore<Reason> + Drop> ServerLoop<S> {
    /// A server without ports of transfers, and without room for them.
    pub(crate) fn new(
        alloc: Global,
        server: Server<S>,
        sockets: Sockets,
        config: &LoopConfig,
    ) -> ServerLoop<S>
        requires { AreBound config.now sockets }
        ensures server { result.server ≡ server }
        ensures sockets { result.sockets ≡ sockets }
        ensures starts { IsAtStart config.now result }
    {
        let log = Log::new(alloc, config, sockets.listening());
        ServerLoop {
            server,
            sockets,
            ports: Vec::new(alloc),
            out: Vec::new(alloc),
            pending: None,
            active: 0,
            left: config.ending.transfers,
            rounds: config.ending.rounds,
            longest: config.longest,
            backoff: config.backoff,
            requests_only: config.requests_only,
            per_client: config.per_client,
            drain: Drain::of(config.drains),
            signal_look: 0,
            log,
            alloc,
        }
    }

    /// Serves, wait by wait, until no transfer is yet to close or no wait may begin, or until it
    /// has drained.
    pub(crate) fn take_rounds<N: ServerUdp + Eprint, D: DrainSignal>(
        &mut self,
        net: &mut N,
        signal: &D,
        reports: &mut Reports,
        request: &mut [u8],
        datagram: &mut [u8],
    ) -> Result<(), LoopFault>
        // The buffers are long enough.
        requires long_request { DATAGRAM_BUFFER ≤ length request.old }
        requires long_datagram { DATAGRAM_BUFFER ≤ length datagram.old }
        // The loop before the call.
        requires room { HasRoom self.old }
        requires settled { IsSettled self.old }
        requires few { HasFew 0 self.old }
        requires first { self.old.sockets.has_received ≡ false }
        // What it does, as steps of the loop.
        ensures serves { EndsRounds S.meaning S.Source.meaning result request.old self.old
            (N.log net.old) request.new self.new (N.log net.new) }
        ensures end { OnOk result ((self.new.left ≡ 0) ⊎ ((self.new.rounds ≡ 0)
            ⊎ IsEmptied self.new)) }
        // What stays.
        ensures file { N.file net.new ≡ N.file net.old }
    {
        loop {
            if let Err(fault) = self.take_round(net, signal, request, datagram) {
                return Err(fault);
            }
            if self.is_over() {
                return Ok(());
            }
            self.wait(net, reports);
            if net.has_no_reader() {
                return Err(LoopFault::NoReader);
            }
        }
    }

    /// Whether the loop ends: no transfer is yet to close, no wait may begin, or the server has
    /// drained, which takes no new request and has nothing left to do.
    fn is_over(&self) -> bool
        ensures over { IsTrue result
            → (self.now.left ≡ 0) ⊎ ((self.now.rounds ≡ 0) ⊎ IsEmptied self.now) }
        ensures left { result ≡ false → 1 ≤ self.now.left }
        ensures rounds { result ≡ false → 1 ≤ self.now.rounds }
    {
        if self.left == 0 {
            return true;
        }
        if self.rounds == 0 {
            return true;
        }
        let Drain::Begun = self.drain else {
            return false;
        };
        if self.pending.is_some() {
            return false;
        }
        self.ports.is_empty()
    }

    /// Begins to drain if that is signalled, and then handles datagrams and due timeouts, until no
    /// transfer is yet to close. Transfers precede a request, because an acknowledgement may free
    /// the slot that its client's next request needs.
    fn take_round<N: ServerUdp + Eprint, D: DrainSignal>(
        &mut self,
        net: &mut N,
        signal: &D,
        request: &mut [u8],
        datagram: &mut [u8],
    ) -> Result<(), LoopFault>
        // The buffers are long enough.
        requires long_request { DATAGRAM_BUFFER ≤ length request.old }
        requires long_datagram { DATAGRAM_BUFFER ≤ length datagram.old }
        // The loop before the call.
        requires room { HasRoom self.old }
        requires settled { IsSettled self.old }
        requires few { HasFew 0 self.old }
        requires first { self.old.sockets.has_received ≡ false }
        // What it does, as steps of the loop.
        ensures works { WorksRound S.meaning S.Source.meaning request.old self.old
            (N.log net.old) request.new self.new (N.log net.new) }
        ensures tended { OnOk result (1 ≤ self.new.left → IsTended self.new (N.log net.new)) }
        // What stays.
        ensures rounds { self.new.rounds ≡ self.old.rounds }
        ensures fault { IfErr result (λ fault. FailsToPrint fault (N.log net.new)) }
        ensures room { HasRoom self.new }
        ensures file { N.file net.new ≡ N.file net.old }
    {
        self.look_at_signal(net, signal);
        if let Err(fault) = self.pass_over(net, Pass::Ready, datagram) {
            return Err(fault);
        }
        if self.left == 0 {
            return Ok(());
        }
        self.take_request(net, request);
        self.pass_over(net, Pass::Due, datagram)
    }

    /// Begins to drain if that is signalled, and logs that: from then on no new request is taken. The
    /// signal is looked at once a second at most.
    fn look_at_signal<N: ServerUdp + Eprint, D: DrainSignal>(&mut self, net: &mut N, signal: &D)
        ensures works { OnlyWorks S.meaning S.Source.meaning self.old (N.log net.old) self.new
            (N.log net.new) }
        ensures rest { self.new ≡ record self.old {
          drain = self.new.drain;
          signal_look = self.new.signal_look;
        } }
        ensures room { HasRoom self.old → HasRoom self.new }
        ensures file { N.file net.new ≡ N.file net.old }
    {
        let Drain::Awaited = self.drain else {
            return;
        };
        let now = self.sockets.watch.now;
        if now < self.signal_look {
            return;
        }
        self.signal_look = now.saturating_add(LONGEST_WAIT);
        if !net.is_signalled(signal) {
            return;
        }
        self.drain = Drain::Begun;
        log_drain(&*net, self.log, self.ports.len());
    }

    /// Whether the request port is read: it is marked, and the server does not drain.
    pub(crate) fn reads_requests(&self) -> bool
        ensures { result ≡ reads_of self.now }
    {
        if self.drain.is_draining() {
            return false;
        }
        self.sockets.is_ready
    }

    /// Waits once, until a datagram has arrived or a port is to be read, for at most a second. A
    /// draft that is to be synced is synced before, if no datagram has arrived: all other transfers
    /// wait for it.
    fn wait<N: ServerUdp>(&mut self, net: &mut N, reports: &mut Reports)
        requires { MayBeginWait self.old (N.log net.old) }
        ensures waits { HasWaited S.meaning S.Source.meaning self.old (N.log net.old) self.new
            (N.log net.new) }
        ensures file { N.file net.new ≡ N.file net.old }
    {
        report_if_due(net, self.ports.as_slice(), self.sockets.watch);
        let survey = Survey::of(self.sockets.watch.now, self.ports.as_slice());
        if self.millis_to_wait(survey) > 0 {
            if let Some(tid) = self.server.store().take_unsynced() {
                self.sync_and_wait(net, reports, survey, tid);
                return;
            }
        }
        self.sleep(net, reports, survey);
    }

    /// Polls, and syncs the draft of a transfer and waits if no datagram has arrived.
    fn sync_and_wait<N: ServerUdp>(
        &mut self,
        net: &mut N,
        reports: &mut Reports,
        survey: Survey,
        tid: u16,
    )
        requires surveyed { IsSurveyOf self.old.ports.items survey }
        requires may { MayBeginWait self.old (N.log net.old) }
        ensures waits { HasWaited S.meaning S.Source.meaning self.old (N.log net.old) self.new
            (N.log net.new) }
        ensures file { N.file net.new ≡ N.file net.old }
    {
        if net.poll_now(&mut self.sockets.poll, reports) {
            self.read_clock(net);
            net.note_poll(reports);
            self.wake(net, reports);
            return;
        }
        self.sync(tid);
        self.sleep(net, reports, survey);
    }

    /// Syncs the draft of a transfer.
    fn sync(&mut self, tid: u16)
        ensures works { (events : List SocketEvent)
            → OnlyWorks S.meaning S.Source.meaning self.old events self.new events }
        ensures settled { IsSettled self.old → IsSettled self.new }
        ensures rest { self.new ≡ record self.old { server = self.new.server } }
        ensures room { HasRoom self.old → HasRoom self.new }
    {
        let Some(index) = index_of(tid, self.ports.as_slice()) else {
            return;
        };
        if index >= self.ports.len() {
            return;
        }
        let port = &self.ports[index];
        self.server.store().let_sync();
        work_at(&mut self.server, port);
    }

    /// Waits until a datagram has arrived or a port is to be read, for at most a second.
    fn sleep<N: ServerUdp>(&mut self, net: &mut N, reports: &mut Reports, survey: Survey)
        requires surveyed { IsSurveyOf self.old.ports.items survey }
        requires may { MayBeginWait self.old (N.log net.old) }
        ensures waits { HasWaited S.meaning S.Source.meaning self.old (N.log net.old) self.new
            (N.log net.new) }
        ensures file { N.file net.new ≡ N.file net.old }
    {
        self.active = survey.active;
        self.read_clock(net);
        let millis = self.millis_to_wait(survey);
        let polls = polls_before(millis, self.active, self.sockets.polls);
        net.wait(&mut self.sockets.poll, reports, millis, polls);
        self.wake(net, reports);
    }

    /// Reads the clock before a wait: the store or a file may have taken long.
    fn read_clock<N: ServerUdp>(&mut self, net: &mut N)
        ensures reads { HasRead self.old (N.log net.old) self.new (N.log net.new) }
        ensures file { N.file net.new ≡ N.file net.old }
    {
        let began = self.sockets.watch.now;
        let end = self.sockets.round_end();
        net.read_watch_within(&mut self.sockets.watch, end);
        self.sockets.limit = began.saturating_add(LONGEST_WAIT);
    }

    /// Sets the deadlines of the transfers that opened, advanced or timed out before the clock was
    /// read, marks the ports that a wait reported, counts the wait, and reads the clock.
    fn wake<N: ServerUdp>(&mut self, net: &mut N, reports: &Reports)
        ensures woken { HasWoken reports.now.ports.items self.old (N.log net.old) self.new
            (N.log net.new) }
        ensures file { N.file net.new ≡ N.file net.old }
    {
        self.mark(reports.ports());
        self.rounds = self.rounds.saturating_sub(1);
        let end = self.sockets.round_end();
        net.read_watch_within(&mut self.sockets.watch, end);
        self.sockets.limit = end;
    }

    /// Sets the provisional deadlines, marks the ports that a wait reported, and counts anew what
    /// is received at each.
    fn mark(&mut self, reported: &[u16])
        ensures requests { self.new.sockets ≡ record self.old.sockets {
          is_ready = self.old.sockets.is_ready
              || is_among self.old.sockets.requests.port reported.now;
          has_received = false;
        } }
        ensures transfers { timers_of self.new ≡ map (marked_by reported.now)
            (map (set_by self.old.sockets.watch.now) (timers_of self.old)) }
        ensures rest { self.new
            ≡ record self.old { sockets = self.new.sockets; ports = self.new.ports } }
        ensures room { HasRoom self.old → HasRoom self.new }
    {
        let time = self.sockets.watch.now;
        wake_all(self.ports.as_mut_slice(), time, reported);
        self.sockets.mark(reported);
    }

    /// The longest wait, in milliseconds: none if a port is to be read or a datagram is pending,
    /// and else until the nearest time at which a port is read, at most a second.
    fn millis_to_wait(&self, survey: Survey) -> u64
        requires { IsSurveyOf self.now.ports.items survey }
        ensures { result ≡ millis_of self.now }
    {
        if self.reads_requests() {
            return 0;
        }
        if self.pending.is_some() {
            return 0;
        }
        if survey.is_ready {
            return 0;
        }
        survey.millis(self.sockets.watch.now)
    }

    /// Visits the port of each transfer that this pass is for.
    fn pass_over<N: ServerUdp + Eprint>(
        &mut self,
        net: &mut N,
        pass: Pass,
        buffer: &mut [u8],
    ) -> Result<(), LoopFault>
        // The loop before the call.
        requires long { DATAGRAM_BUFFER ≤ length buffer.old }
        requires settled { IsSettled self.old }
        requires few { HasFew (before_visit pass) self.old }
        // What it does, as steps of the loop.
        ensures works { OnlyWorks S.meaning S.Source.meaning self.old (N.log net.old) self.new
            (N.log net.new) }
        // What holds for the next wait.
        ensures settled { IsSettled self.new }
        ensures visited { OnOk result (1 ≤ self.new.left → WereVisited pass 0 self.new
            (N.log net.new)) }
        // What stays.
        ensures asked { self.new.sockets.has_received ≡ self.old.sockets.has_received }
        ensures rounds { self.new.rounds ≡ self.old.rounds }
        // What a fault says, and what stays in any case.
        ensures fault { IfErr result (λ fault. FailsToPrint fault (N.log net.new)) }
        ensures room { HasRoom self.old → HasRoom self.new }
        ensures file { N.file net.new ≡ N.file net.old }
    {
        // In reverse order, because a close moves the last port to the freed index.
        let mut index = self.ports.len();
        while index > 0 {
            if self.left == 0 {
                return Ok(());
            }
            index -= 1;
            if let Err(fault) = self.visit(net, pass, index, buffer) {
                return Err(fault);
            }
        }
        Ok(())
    }

    /// Visits the port at this index, if there is one and the pass is for it, logs what could not
    /// be sent, and removes the transfer if that closes.
    fn visit<N: ServerUdp + Eprint>(
        &mut self,
        net: &mut N,
        pass: Pass,
        index: usize,
        buffer: &mut [u8],
    ) -> Result<(), LoopFault>
        // The loop before the call.
        requires long { DATAGRAM_BUFFER ≤ length buffer.old }
        requires left { 1 ≤ self.old.left }
        requires settled { IsSettled self.old }
        requires waiting { AwaitVisit pass (index + 1) self.old }
        // What it does, as steps of the loop.
        ensures works { OnlyWorks S.meaning S.Source.meaning self.old (N.log net.old) self.new
            (N.log net.new) }
        // What holds for the next wait.
        ensures settled { IsSettled self.new }
        ensures visited { WereVisited pass (index + 1) self.old (N.log net.old)
            → WereVisited pass index self.new (N.log net.new) }
        ensures waiting { AwaitVisit pass index self.new }
        // What stays.
        ensures asked { self.new.sockets.has_received ≡ self.old.sockets.has_received }
        ensures rounds { self.new.rounds ≡ self.old.rounds }
        // What a fault says, and what stays in any case.
        ensures fault { IfErr result (λ fault. FailsToPrint fault (N.log net.new)) }
        ensures room { HasRoom self.old → HasRoom self.new }
        ensures file { N.file net.new ≡ N.file net.old }
    {
        if index >= self.ports.len() {
            return Ok(());
        }
        if !is_visited(pass, self.sockets.watch.now, &self.ports[index]) {
            return Ok(());
        }
        let moment = Moment {
            now: self.sockets.watch.now,
            active: self.active,
        };
        let port = &mut self.ports[index];
        let status = visit_port(&mut self.server, port, net, moment, pass, buffer);
        log_unsent(&*net, port);
        if !status.is_closed() {
            return Ok(());
        }
        self.finish(net, index)
    }

    /// Removes the transfer at this index with its port, if it has closed, and prints its outcome:
    /// it is one less to close.
    fn finish<N: ServerUdp + Eprint>(&mut self, net: &mut N, index: usize) -> Result<(), LoopFault>
        // The loop before the call.
        requires left { 1 ≤ self.old.left }
        requires within { index < length self.old.ports.items }
        // What it does, as steps of the loop.
        ensures finishes { Finishes S.meaning S.Source.meaning index self.old (N.log net.old)
            self.new (N.log net.new) }
        // What stays.
        ensures asked { self.new.sockets.has_received ≡ self.old.sockets.has_received }
        ensures rounds { self.new.rounds ≡ self.old.rounds }
        // What a fault says, and what stays in any case.
        ensures fault { IfErr result (λ fault. FailsToPrint fault (N.log net.new)) }
        ensures room { HasRoom self.old → HasRoom self.new }
        ensures file { N.file net.new ≡ N.file net.old }
    {
        let port = &self.ports[index];
        let closed = record_of_closed(&mut self.server, port.socket.udp.port());
        if closed.is_none() {
            return Ok(());
        }
        self.left -= 1;
        let port = self.ports.swap_remove(index);
        let reason = self.server.store().take_reason();
        let reading = self.sockets.watch.reading;
        report_close(net, &port, closed, reading, reason)
    }
}

/// The number of polls before a wait of at most `millis` milliseconds, with this number of active
/// transfers: so many, if several are.
fn polls_before(millis: u64, active: usize, polls: u32) -> u32
    ensures most { result ≤ polls }
    ensures asleep { millis ≡ 0 → result ≡ 0 }
    ensures alone { active ≤ 1 → result ≡ 0 }
{
    if millis > 0 && active > 1 { polls } else { 0 }
}
