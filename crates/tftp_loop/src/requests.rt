//! The datagrams of the request port, and the transfers that they open.

ghost use Rattle.std.specs.Prelude.{◌≡◌, ◌≢◌, ◌<◌, ◌≤◌, ◌++◌, ◌∷◌, ◌==◌, ◌||◌, [], true, false, None};
ghost use Rattle.std.specs.Prelude.{Some, IfOk, ◌&&◌, not};
ghost use Rattle.std.specs.Prelude.{IfSome, is_some, vec_len, vec_capacity, map, take, length};
ghost use Rattle.std.specs.Prelude.{◌+◌, ◌*◌, if◌then◌else◌};
ghost use Rattle.tftp_server.specs.Port.{granted_size};
ghost use Rattle.tftp_server.specs.Request.{Admits};
ghost use Rattle.tftp_server.specs.State.{at};
ghost use Rattle.tftp_sockets.specs.declared.address.TheConstants.{DATAGRAM_BUFFER};
ghost use Rattle.tftp_sockets.specs.Told.{and_told};
ghost use Rattle.tftp_sockets.specs.declared.entry.Entry.TheVariants.{Opened as Opened_by};
ghost use Rattle.tftp_sockets.specs.Trace.{replied};
ghost use Rattle.tftp_sockets.specs.Trace.SocketEvent.{Quiet};
ghost use Rattle.tftp_sockets.specs.Trace.QuietEvent.{Out_of_memory};
ghost use Rattle.tftp_loop.specs.PortOrder.{IsOneOf};
ghost use Rattle.tftp_loop.specs.PortPool.{IsOfPool, most_of};
ghost use Rattle.tftp_loop.specs.Steps.{IsSet, answering_port, has_most, interval_at, started};
ghost use Rattle.tftp_loop.specs.Steps.{with_timer};
ghost use Rattle.tftp_loop.specs.OnlyRequests.{IsHandledBy, begins_as_request};
ghost use Rattle.tftp_loop.specs.RequestActions.{IsActionOn, MayOpenBy, may_open_later};
ghost use Rattle.tftp_loop.specs.RequestActions.{refused_bytes, refused_to};
ghost use Rattle.tftp_loop.specs.Longest.{IsBoundedFor, longest_in};
ghost use Rattle.tftp_loop.specs.LoopStates.{HasAnswered, HasRoom, WorksRound, timer_of};
ghost use Rattle.tftp_loop.specs.MayWait.{AnswersPending, HandlesReceived, HasTriedRequests};
ghost use Rattle.tftp_loop.specs.MayWait.{HasFew, IsSettled, reads_of, timers_of};
ghost use Rattle.tftp_loop.specs.Told.{IsToldOnce, IsToldUnlessKept, direction_asked, unopened_entry};
ghost use Rattle.tftp_loop.specs.declared.port_visit.TheConstants.{MOST_AT_ONCE};

use crate::datagram::Datagram;
use crate::log::Log;
use crate::log_entry::{LogEntry, reason_unasked};
use crate::report::{
    Opening, Refusal, direction_asked, log_lost, log_opened, log_refused, unopened_entry,
};
use crate::server_loop::ServerLoop;
use crate::sockets::Sockets;
use crate::transfer_port::{TransferPort, TransferSocket, age_limit, next_look, open_of, reply};
use tftp_ends::{DEFAULT_INTERVAL, Endpoint, ErrorReply, Record};
use tftp_lines::{Lost, Reason};
use tftp_server::{Admission, Opened, Server, Store};
use tftp_sockets::{Entry, Load, Port, Receipt, ServerSocket, ServerUdp, deadline};
use tftp_store::ServedStore;

/// The port of a datagram whose sender has none, and gets no answer (RFC 768).
const NO_PORT: u16 = 0;

/// What is done about a datagram of the request port.
#[derive(Drop)]
enum RequestAction<'a> {
    /// It gets no answer.
    Ignore,
    /// It is lost, because memory was refused.
    NoMemory,
    /// It is lost, because its client's address has this many transfers open, and may have no more.
    TooMany(u8),
    /// It opens no transfer, and gets this answer, if any.
    Refuse(Option<ErrorReply>),
    /// It may open a transfer.
    Open(Admission<'a>),
}

impl RequestAction<'_> {
    /// Whether it may be `Open` once the datagrams of transfers are handled: an acknowledgement
    /// that the client sent just before may free a slot.
    fn may_open_later(&self) -> bool
        ensures { result ≡ may_open_later self.now }
    {
        match self {
            RequestAction::TooMany(_) => true,
            RequestAction::Refuse(_) => true,
            RequestAction::Open(_) => false,
            RequestAction::Ignore => false,
            RequestAction::NoMemory => false,
        }
    }
}

/// The most bytes that the files of all transfers read ahead: more leave a processor's cache before
/// they are sent.
const MOST_AHEAD: usize = 1 << 20;

impl<S: ServedStore<Reason> + Drop> ServerLoop<S> {
    /// Handles the pending datagram of the request port, and then the next one, if there is one and
    /// the server does not drain. It is the only one of its round, since an opening asks the store
    /// while transfers wait.
    pub(crate) fn take_request<N: ServerUdp + Eprint>(&mut self, net: &mut N, request: &mut [u8])
        // The loop before the call.
        requires long { DATAGRAM_BUFFER ≤ length request.old }
        requires settled { IsSettled self.old }
        requires room { HasRoom self.old }
        requires first { self.old.sockets.has_received ≡ false }
        // What it does, as steps of the loop.
        ensures works { WorksRound S.meaning S.Source.meaning request.old self.old
            (N.log net.old) request.new self.new (N.log net.new) }
        // What holds for the next wait.
        ensures settled { IsSettled self.old → IsSettled self.new }
        ensures tried { HasTriedRequests self.new (N.log net.new) }
        ensures few { HasFew MOST_AT_ONCE self.old → HasFew MOST_AT_ONCE self.new }
        // What stays.
        ensures rounds { self.new.rounds ≡ self.old.rounds }
        ensures room { HasRoom self.new }
        ensures file { N.file net.new ≡ N.file net.old }
    {
        self.take_pending(net, request);
        if !self.reads_requests() {
            return;
        }
        self.receive_request(net, request);
    }

    /// Handles the pending datagram of the request port, if there is one.
    fn take_pending<N: ServerUdp + Eprint>(&mut self, net: &mut N, request: &[u8])
        // The loop before the call.
        requires settled { IsSettled self.old }
        requires room { HasRoom self.old }
        // What it does, as steps of the loop.
        ensures works { WorksRound S.meaning S.Source.meaning request.now self.old
            (N.log net.old) request.now self.new (N.log net.new) }
        // What holds for the next wait.
        ensures settled { IsSettled self.old → IsSettled self.new }
        ensures pending { self.new.pending ≡ None }
        ensures few { HasFew MOST_AT_ONCE self.old → HasFew MOST_AT_ONCE self.new }
        // What stays.
        ensures asked { self.new.sockets.has_received ≡ self.old.sockets.has_received }
        ensures rounds { self.new.rounds ≡ self.old.rounds }
        ensures room { HasRoom self.new }
        ensures file { N.file net.new ≡ N.file net.old }
    {
        let Some((from, count)) = self.pending else {
            return;
        };
        let bytes = &request[..count.min(request.len())];
        let datagram = Datagram { from, bytes };
        let action = self.action_on(datagram);
        self.carry_out(net, datagram, action);
        self.pending = None;
    }

    /// Receives a datagram at the request port, and handles it.
    fn receive_request<N: ServerUdp + Eprint>(&mut self, net: &mut N, request: &mut [u8])
        // The loop before the call.
        requires long { DATAGRAM_BUFFER ≤ length request.old }
        requires settled { IsSettled self.old }
        requires room { HasRoom self.old }
        // The request port is to be read.
        requires pending { self.old.pending ≡ None }
        requires reads { reads_of self.old ≡ true }
        requires first { self.old.sockets.has_received ≡ false }
        // What it does, as steps of the loop.
        ensures works { WorksRound S.meaning S.Source.meaning request.old self.old
            (N.log net.old) request.new self.new (N.log net.new) }
        // What holds for the next wait.
        ensures settled { IsSettled self.old → IsSettled self.new }
        ensures tried { HasTriedRequests self.new (N.log net.new) }
        ensures few { HasFew MOST_AT_ONCE self.old → HasFew MOST_AT_ONCE self.new }
        // What stays.
        ensures rounds { self.new.rounds ≡ self.old.rounds }
        ensures room { HasRoom self.new }
        ensures file { N.file net.new ≡ N.file net.old }
    {
        let load = self.load();
        match net.receive_request(&self.sockets.requests, load, request) {
            Receipt::Datagram(from, count) => {
                self.sockets.has_received = true;
                self.take_received(net, from, count, request);
            }
            Receipt::Nothing => self.sockets.is_ready = false,
            // A datagram may be there, or is left to another server: the port stays marked.
            Receipt::Failed => {}
        }
    }

    /// How much the server has to do.
    fn load(&self) -> Load
        ensures open { result.open ≡ length self.now.ports.items }
        ensures cap { result.cap
            ≡ most_of self.now.server.config.cap self.now.sockets.pool.range }
    {
        Load {
            open: self.ports.len(),
            cap: self.sockets.most_open(self.server.cap()),
        }
    }

    /// Handles a datagram that was received at the request port. One that would open no transfer,
    /// or one too many of its client, stays pending: the datagrams of transfers are handled first,
    /// and then it is admitted again.
    fn take_received<N: ServerUdp + Eprint>(
        &mut self,
        net: &mut N,
        from: Endpoint,
        count: usize,
        request: &[u8],
    )
        // The loop before the call.
        requires settled { IsSettled self.old }
        requires room { HasRoom self.old }
        requires count { count ≤ length request.now }
        // What happens to the datagram.
        ensures handles { HandlesReceived S.meaning S.Source.meaning from count request.now
            self.old (N.log net.old) self.new (N.log net.new) }
        ensures told { IsToldUnlessKept self.new.pending (N.told net.old) (N.told net.new) }
        // What stays.
        ensures rounds { self.new.rounds ≡ self.old.rounds }
        ensures room { HasRoom self.new }
        ensures file { N.file net.new ≡ N.file net.old }
    {
        let bytes = &request[..count];
        let datagram = Datagram { from, bytes };
        let action = self.action_on(datagram);
        if action.may_open_later() {
            self.pending = Some((from, count));
            return;
        }
        self.carry_out(net, datagram, action);
        self.pending = None;
    }

    /// What is done about a datagram of the request port. One from port 0 is ignored, since no
    /// answer can come there, and so is what does not begin as a request, if only requests are
    /// handled.
    fn action_on<'a>(&self, datagram: Datagram<'a>) -> RequestAction<'a>
        ensures { IsActionOn self.now datagram.entry.from datagram.entry.bytes.now result }
    {
        if datagram.from.port == NO_PORT {
            return RequestAction::Ignore;
        }
        if self.drops(datagram.bytes) {
            return RequestAction::Ignore;
        }
        let Ok(admission) = self.server.admit(datagram.from, datagram.bytes) else {
            return RequestAction::NoMemory;
        };
        if !admission.may_open() {
            return RequestAction::Refuse(admission.refusal());
        }
        match self.most_reached(datagram.from) {
            Some(most) => RequestAction::TooMany(most),
            None => RequestAction::Open(admission),
        }
    }

    /// Carries out what is done about a datagram of the request port.
    fn carry_out<N: ServerUdp + Eprint>(
        &mut self,
        net: &mut N,
        datagram: Datagram<'_>,
        action: RequestAction<'_>,
    )
        // The loop before the call.
        requires settled { IsSettled self.old }
        requires room { HasRoom self.old }
        requires action { IsActionOn self.old datagram.from datagram.bytes.now action }
        // What happens to the datagram.
        ensures answers { AnswersPending S.meaning S.Source.meaning datagram.entry.from
            datagram.entry.bytes.now self.old (N.log net.old) self.new (N.log net.new) }
        ensures told { IsToldOnce (N.told net.old) (N.told net.new) }
        // What stays.
        ensures rounds { self.new.rounds ≡ self.old.rounds }
        ensures room { HasRoom self.new }
        ensures file { N.file net.new ≡ N.file net.old }
    {
        match action {
            RequestAction::Ignore => refuse(net, &self.sockets.requests, self.log, datagram, None),
            RequestAction::NoMemory => lose_for_memory(net, self.log, datagram),
            RequestAction::TooMany(most) => {
                lose(net, self.log, datagram, Lost::Client(most));
            }
            RequestAction::Refuse(reply) => {
                let requests = &self.sockets.requests;
                refuse(net, requests, self.log, datagram, reply);
            }
            RequestAction::Open(admission) => self.open_request(net, datagram, admission),
        }
    }

    /// Whether a datagram of the request port is dropped, as if the network had lost it: only requests
    /// are handled, and it does not begin as one. So no ERROR is taken for the answer to the next
    /// request of a client that acknowledged an ERROR here.
    fn drops(&self, bytes: &[u8]) -> bool
        ensures value { result ≡ (self.now.requests_only && not (begins_as_request bytes.now)) }
        ensures handled { result ≡ false → IsHandledBy self.now.requests_only bytes.now }
    {
        self.requests_only && !begins_as_request(bytes)
    }

    /// The most transfers of one address, if that of this endpoint has so many open.
    fn most_reached(&self, from: Endpoint) -> Option<u8>
        ensures { is_some result ≡ has_most self.now.per_client from (timers_of self.now) }
    {
        let most = self.per_client?;
        if usize::from(most) <= open_of(from, self.ports.as_slice()) {
            Some(most)
        } else {
            None
        }
    }

    /// Carries out the admission of a datagram that may open a transfer, at a port of its own. The
    /// datagram is lost if none can be bound, if the system binds one that is taken, or when out of
    /// memory.
    fn open_request<N: ServerUdp + Eprint>(
        &mut self,
        net: &mut N,
        datagram: Datagram<'_>,
        admission: Admission<'_>,
    )
        // The datagram may open a transfer by this admission.
        requires action { MayOpenBy self.old datagram.from datagram.bytes.now admission }
        // The loop before the call.
        requires room { HasRoom self.old }
        requires reserved { vec_len self.old.ports < vec_capacity self.old.ports }
        // What happens to the datagram.
        ensures answers { AnswersPending S.meaning S.Source.meaning datagram.entry.from
            datagram.entry.bytes.now self.old (N.log net.old) self.new (N.log net.new) }
        ensures told { IsToldOnce (N.told net.old) (N.told net.new) }
        // What stays.
        ensures rounds { self.new.rounds ≡ self.old.rounds }
        ensures room { HasRoom self.new }
        ensures file { N.file net.new ≡ N.file net.old }
    {
        let Some(bound) = self.sockets.port_for(net, &admission) else {
            let lost = Lost::Port(self.sockets.bind_error());
            lose(net, self.log, datagram, lost);
            return;
        };
        if is_taken(&self.sockets, &self.server, bound.port()) {
            lose(net, self.log, datagram, Lost::Port(None));
            return;
        }
        self.open_at(net, datagram, admission, bound);
    }

    /// Carries out the admission of a datagram that may open a transfer at this port. If none opens
    /// there the port is free again, for whoever binds it next: a server binds its other ports first,
    /// since what refused a transfer here may be the port's own draft.
    fn open_at<N: ServerUdp + Eprint>(
        &mut self,
        net: &mut N,
        datagram: Datagram<'_>,
        admission: Admission<'_>,
        bound: ServerSocket,
    )
        // The datagram may open a transfer by this admission.
        requires action { MayOpenBy self.old datagram.from datagram.bytes.now admission }
        // The port is of the pool, and nobody has it.
        requires port { IsOfPool self.old.sockets.pool bound }
        requires own { bound.port ≢ self.old.sockets.requests.port }
        requires free { at bound.port self.old.server.held ≡ None }
        // The loop before the call.
        requires room { HasRoom self.old }
        requires reserved { vec_len self.old.ports < vec_capacity self.old.ports }
        // What happens to the datagram.
        ensures answers { AnswersPending S.meaning S.Source.meaning datagram.entry.from
            datagram.entry.bytes.now self.old (N.log net.old) self.new (N.log net.new) }
        ensures told { IsToldOnce (N.told net.old) (N.told net.new) }
        // What stays.
        ensures rounds { self.new.rounds ≡ self.old.rounds }
        ensures room { HasRoom self.new }
        ensures file { N.file net.new ≡ N.file net.old }
        // The store opens the file of a read by the longest length that the agreed block size allows.
        ensures bounded { IsBoundedFor S.is_bounded self.old.server.config.limits admission.entry.ask
            self.new.server.store }
    {
        let tid = bound.port();
        set_store(&mut self.server, &admission, tid);
        self.out.clear();
        let opened = self.server.open(admission, tid, &mut self.out);
        let reason = self.server.store().take_reason();
        match opened {
            Ok(opened) => self.answer_opened(net, datagram, bound, opened, reason),
            Err(_) => lose_for_memory(net, self.log, datagram),
        }
    }

    /// Sends the answer to a datagram: from this port if it opened a transfer there, else from the
    /// request port.
    fn answer_opened<N: ServerUdp + Eprint>(
        &mut self,
        net: &mut N,
        datagram: Datagram<'_>,
        bound: ServerSocket,
        opened: Opened,
        reason: Option<Reason>,
    )
        // The port is of the pool, and that of the transfer.
        requires reserved { vec_len self.old.ports < vec_capacity self.old.ports }
        requires port { IsOfPool self.old.sockets.pool bound }
        requires own { bound.port ≢ self.old.sockets.requests.port }
        requires tid { IfSome opened.tid (λ tid. tid ≡ bound.port) }
        // What is sent and told.
        ensures answers { HasAnswered datagram.entry.from opened self.old.out.items self.old
            (N.log net.old) self.new (N.log net.new) }
        ensures told { IsToldOnce (N.told net.old) (N.told net.new) }
        ensures file { N.file net.new ≡ N.file net.old }
    {
        match opened.tid {
            Some(_) => self.begin(net, datagram, bound, opened.to),
            None => {
                let (requests, out) = (&self.sockets.requests, self.out.as_slice());
                answer(net, requests, self.log, datagram, opened.to, out, reason);
            }
        }
    }

    /// Sends the first datagram of an opened transfer from its port, and adds the port.
    fn begin<N: ServerUdp + Eprint>(
        &mut self,
        net: &mut N,
        datagram: Datagram<'_>,
        bound: ServerSocket,
        to: Option<Endpoint>,
    )
        // The port is of the pool, and there is room for it.
        requires port { IsOneOf self.old.sockets.pool.range bound.port }
        requires own { bound.port ≢ self.old.sockets.requests.port }
        requires reserved { vec_len self.old.ports < vec_capacity self.old.ports }
        // What is sent and told.
        ensures answers { HasAnswered datagram.entry.from (record { tid = Some bound.port; to = to })
            self.old.out.items self.old (N.log net.old) self.new (N.log net.new) }
        ensures told { N.told net.new
            ≡ and_told (Opened_by (direction_asked datagram.entry.bytes.now)) (N.told net.old) }
        ensures file { N.file net.new ≡ N.file net.old }
    {
        let sent = reply(net, &bound, to, self.out.as_slice());
        net.count(Entry::Opened(direction_asked(datagram.bytes)));
        let opening = Opening {
            answer: self.out.as_slice(),
            reading: self.sockets.watch.reading,
            sent,
        };
        let log_entry = log_opened(&*net, self.log, bound.port(), datagram, opening);
        let port = self.port_of(bound, datagram.from, log_entry);
        self.ports.push_reserved(port);
    }

    /// The port of an opened transfer.
    fn port_of(
        &self,
        bound: ServerSocket,
        peer: Endpoint,
        log_entry: Option<LogEntry>,
    ) -> TransferPort
        ensures tid { result.tid ≡ bound.port }
        ensures registered { result.socket.udp.is_registered ≡ true }
        ensures timer { timer_of result
            ≡ started self.now.sockets.watch.now self.now.longest self.now.backoff bound.port peer
            (interval_at (at bound.port self.now.server.held)) }
    {
        let mut udp = bound;
        self.sockets.register(&mut udp);
        let tid = udp.port();
        let (interval, file_work_limit) = pace_of(&self.server, tid);
        let times_out_at = deadline(self.sockets.watch.now, self.backoff.wait(interval, 0));
        Port {
            tid,
            look_at: times_out_at.min(next_look(self.sockets.watch.now)),
            is_ready: false,
            socket: TransferSocket {
                udp,
                peer,
                interval,
                backoff: self.backoff,
                timeouts: 0,
                deadline: times_out_at,
                is_provisional: true,
                moved_at: self.sockets.watch.now,
                received: 0,
                age_limit: age_limit(self.sockets.watch.now, self.longest),
                file_work_limit,
                log_entry,
            },
        }
    }
}

/// Sends this answer, if any, from the request port to a datagram that opens no transfer.
fn refuse<N: ServerUdp + Eprint>(
    net: &mut N,
    requests: &ServerSocket,
    log: Log,
    datagram: Datagram<'_>,
    reply: Option<ErrorReply>,
)
    ensures events { N.log net.new ≡ replied requests.now.port
        (refused_to datagram.entry.from reply) (refused_bytes reply) (N.log net.old) }
    ensures told { N.told net.new
        ≡ and_told (unopened_entry (refused_bytes reply)) (N.told net.old) }
    ensures file { N.file net.new ≡ N.file net.old }
{
    match reply {
        Some(reply) => {
            let bytes = reply.datagram();
            let reason = reason_unasked(bytes);
            let to = Some(datagram.from);
            answer(net, requests, log, datagram, to, bytes, reason);
        }
        None => answer(net, requests, log, datagram, None, &[], None),
    }
}

/// Sends the answer, if there is one, to a datagram that opened no transfer, from the request port.
/// `reason` is why its name or a file call was refused, if one was.
fn answer<N: ServerUdp + Eprint>(
    net: &mut N,
    requests: &ServerSocket,
    log: Log,
    datagram: Datagram<'_>,
    to: Option<Endpoint>,
    answer: &[u8],
    reason: Option<Reason>,
)
    ensures events { N.log net.new ≡ replied requests.now.port to answer.now (N.log net.old) }
    ensures told { N.told net.new ≡ and_told (unopened_entry answer.now) (N.told net.old) }
    ensures file { N.file net.new ≡ N.file net.old }
{
    let sent = reply(net, requests, to, answer);
    net.count(unopened_entry(answer));
    if log.is_written {
        let refusal = Refusal {
            answer,
            reason,
            sent,
        };
        log_refused(&*net, log, requests.port(), datagram, refusal);
    }
}

/// Notes that memory was refused for a datagram, which is lost by that.
fn lose_for_memory<N: ServerUdp + Eprint>(net: &mut N, log: Log, datagram: Datagram<'_>)
    ensures events { N.log net.new ≡ Quiet Out_of_memory ∷ N.log net.old }
    ensures told { N.told net.new ≡ and_told Entry.Lost (N.told net.old) }
    ensures file { N.file net.new ≡ N.file net.old }
{
    net.out_of_memory();
    lose(net, log, datagram, Lost::Memory);
}

/// Counts a lost request, and logs it, if there is a log.
fn lose<N: ServerUdp + Eprint>(net: &mut N, log: Log, datagram: Datagram<'_>, lost: Lost)
    ensures events { N.log net.new ≡ N.log net.old }
    ensures told { N.told net.new ≡ and_told Entry.Lost (N.told net.old) }
    ensures file { N.file net.new ≡ N.file net.old }
{
    net.count(Entry::Lost);
    if log.is_written {
        log_lost(&*net, log, datagram, lost);
    }
}

/// Whether a datagram begins with the opcode of RRQ or of WRQ. It may still be malformed.
fn begins_as_request(bytes: &[u8]) -> bool
    ensures { result ≡ begins_as_request bytes.now }
{
    matches!(bytes, [0, 1, ..] | [0, 2, ..])
}

/// Whether the port is that of a transfer, or the request port.
fn is_taken<S: Store>(sockets: &Sockets, server: &Server<S>, port: u16) -> bool
    ensures { result ≡ ((port == sockets.now.requests.port)
        || is_some (at port server.now.held)) }
{
    port == sockets.requests.port() || server.record(port).is_some()
}

/// Sets the store for the transfer that an admission may open at this port.
fn set_store<S: ServedStore<Reason> + Drop>(
    server: &mut Server<S>,
    admission: &Admission<'_>,
    tid: u16,
)
    // Only the store changes, and none of its files.
    ensures rest { server.new ≡ record server.old { store = server.new.store } }
    ensures same { S.meaning.stored server.new.store ≡ S.meaning.stored server.old.store }
    ensures behind { IsSet S.meaning server.old.store server.new.store }
    // For which port and length it is set.
    ensures set { S.meaning.is_set_to server.new.store tid }
    ensures longest { S.is_bounded server.new.store
        (longest_in (granted_size server.old.config.limits admission.now.ask)) }
{
    let longest = longest_in(server.block_size(admission));
    let store = server.store_mut();
    store.set_port(tid);
    store.set_longest(longest);
}

/// The seconds without progress before a timeout of a transfer, and the number of active transfers
/// up to which its file works beside theirs.
fn pace_of<S: Store>(server: &Server<S>, tid: u16) -> (u8, usize)
    ensures { result.0 ≡ interval_at (at tid server.now.held) }
{
    match server.record(tid) {
        Some(record) => (record.interval(), file_work_limit(&record)),
        None => (DEFAULT_INTERVAL, usize::MAX),
    }
}

/// The number of active transfers up to which this one's file reads ahead: as many as have a block
/// each in `MOST_AHEAD` bytes. A file that is written has no bound: its writes go on beside others.
fn file_work_limit(record: &Record) -> usize {
    if record.side.is_sender() {
        let block = usize::from(record.size);
        MOST_AHEAD.checked_div(block).unwrap_or(usize::MAX)
    } else {
        usize::MAX
    }
}

/// The longest length that can be sent in blocks of this size, if there is one, in bytes: 65,535
/// blocks, the last one byte short (RFC 1350, section 6).
fn longest_in(block_size: Option<u16>) -> u64
    ensures value { result ≡ longest_in block_size }
    ensures fits { IfSome block_size (λ size. 1 ≤ size → result < 65535 * size) }
{
    match block_size {
        Some(size) => (u64::from(size) * 65_535).saturating_sub(1),
        None => 0,
    }
}
