//! **Trusted by reading**: UDP, waits, the clock and standard output of the system, with notes of its
//! calls.
//!
//! Review alone shows that a note is true: the sockets, the clock and the printer of std and `mio`
//! have no model. Each datagram, wait, receive without a datagram, bind of a transfer's port,
//! reading of the clock and printed line has one note: what was passed to the system or returned
//! by it, and for a receive or a datagram the port that the socket is bound to. That a
//! port stays empty, once a receive found nothing there, until a wait reports it, is trusted too.
//!
//! A failed send counts as a lost datagram, and returns the reason. A poll that takes
//! no time and reports no port is no event, nor is a look that finds nothing, or whether a datagram
//! has arrived.

ghost use Rattle.std.specs.Prelude.{◌≡◌, [], None};

use crate::address::address_of;
use crate::calls::{bound_socket, client_socket, same_socket};
use crate::clock::{micros, read_clock, utc_millis};
use crate::entry::{Entry, OpenTransfer};
use crate::error_lines::{ErrorLines, WholeLines};
use crate::event_ref::EventRef;
use crate::load::Load;
use crate::port_poll::{POLLS, PortPoll, Reports};
use crate::reader::watch_output;
use crate::receipt::Receipt;
use crate::received::{note_bound, note_end, note_look, note_receipt, sent};
use crate::signal::DrainSignal;
use crate::sockets::{ClientSocket, ServerSocket};
use crate::trace::{SocketEvents, Trace};
use crate::udp::{ClientUdp, ServerUdp, Udp};
use crate::watch::Watch;
use rand::make_rng;
use rand::rngs::StdRng;
use std::alloc::Global;
use std::fmt::Display;
use std::io;
use std::net::{Net, UdpSocket};
use std::random::RandomSource;
use std::time::Clock;
use tftp_ends::Endpoint;
use tftp_lines::{ClientOutcome, Printed, Reason};

/// UDP, the clock and the printer of the system. A program makes one.
#[derive(Drop)]
pub struct SystemUdp<'a, R> {
    rt: &'a R,
    /// Whether the reader of standard output is watched.
    watches_reader: bool,
    /// Whether a wait has reported that it has gone.
    has_lost_reader: bool,
    trace: Trace,
}

impl<'a, R: Clock> SystemUdp<'a, R> {
    /// UDP of this runtime, where nothing was done yet.
    pub fn new(rt: &'a R) -> SystemUdp<'a, R>
        ensures { ⟦<SystemUdp<'a, R> as Udp>⟧.log result ≡ [] }
    {
        SystemUdp {
            rt,
            watches_reader: false,
            has_lost_reader: false,
            trace: Trace::new(&SocketEvents),
        }
    }
}

impl<R: Clock> Udp for SystemUdp<'_, R> {
    ghost log = { λ udp. udp.trace.events };

    fn start_watch(&self) -> Watch {
        Watch::new(read_clock(self.rt, 0))
    }

    fn elapsed(&mut self, port: u16, time: u64) {
        self.trace.note(&EventRef::Elapsed(port, time));
    }
}

impl<R: Net + Clock + Print> ClientUdp for SystemUdp<'_, R> {
    fn bind(&self, ip: [u8; 4]) -> io::Result<ClientSocket> {
        client_socket(self.rt, ip)
    }

    fn receive(&mut self, socket: &mut ClientSocket, wait: u64, buffer: &mut [u8]) -> Receipt {
        let wait = wait.max(1);
        self.trace.note(&EventRef::Slept(wait));
        if !socket.set_wait(wait) {
            self.trace.note(&EventRef::Failed(socket.port));
            return Receipt::Failed;
        }
        let received = socket.udp.recv_from(buffer);
        note_receipt(&mut self.trace, socket.port, received, buffer)
    }

    fn send(&mut self, socket: &ClientSocket, to: Endpoint, bytes: &[u8]) -> Result<(), Reason> {
        self.trace.note(&EventRef::Sent(socket.port, to, bytes));
        sent(socket.udp.send_to(bytes, address_of(to)))
    }

    fn read_watch(&mut self, watch: &mut Watch) -> u64 {
        let reading = read_clock(self.rt, watch.reading);
        let time = watch.advance(reading);
        self.trace.note(&EventRef::Watched(*watch));
        time
    }

    fn print_end(&mut self, end: ClientOutcome) -> io::Result<()> {
        let printed = self.rt.println(end);
        note_end(&mut self.trace, end, printed)
    }
}

impl<R: Net + Clock + Print + RandomSource> ServerUdp for SystemUdp<'_, R> {
    ghost told = { λ _. None };

    fn bind(&self, at: Endpoint) -> io::Result<ServerSocket> {
        bound_socket(self.rt, at)
    }

    fn adopt(&self, handed: &UdpSocket, at: Endpoint) -> io::Result<ServerSocket> {
        same_socket(handed, at)
    }

    fn bind_noted(&mut self, at: Endpoint) -> io::Result<ServerSocket> {
        let bound = bound_socket(self.rt, at);
        note_bound(&mut self.trace, at.port, bound)
    }

    fn receive(&mut self, socket: &ServerSocket, buffer: &mut [u8]) -> Receipt {
        let received = socket.udp.recv_from(buffer);
        note_receipt(&mut self.trace, socket.port, received, buffer)
    }

    /// A server alone leaves nothing.
    fn receive_request(
        &mut self,
        requests: &ServerSocket,
        _load: Load,
        buffer: &mut [u8],
    ) -> Receipt {
        ServerUdp::receive(self, requests, buffer)
    }

    fn first_sender(&self, socket: &ServerSocket) -> Option<Endpoint> {
        socket.first_sender()
    }

    fn leave(&mut self, requests: &ServerSocket, _load: Load) -> Receipt {
        self.trace.note(&EventRef::Failed(requests.port));
        Receipt::Failed
    }

    fn send(&mut self, socket: &ServerSocket, peer: Endpoint, bytes: &[u8]) -> Result<(), Reason> {
        self.trace.note(&EventRef::Sent(socket.port, peer, bytes));
        sent(socket.udp.send_to(bytes, address_of(peer)))
    }

    fn poll(&self) -> io::Result<PortPoll> {
        let poll = PortPoll::new(self.rt)?;
        if self.watches_reader {
            watch_output(&poll)?;
        }
        Ok(poll)
    }

    fn polls(&self) -> u32 {
        POLLS
    }

    fn wait(&mut self, poll: &mut PortPoll, reports: &mut Reports, millis: u64, polls: u32) {
        self.trace.note(&EventRef::Slept(millis));
        if !reports.poll_often(poll, polls) {
            // a poll that found the reader gone does not say so again
            let millis = if reports.has_lost_reader() { 0 } else { millis };
            reports.poll(poll, millis);
        }
        self.has_lost_reader = reports.has_lost_reader();
        self.trace.note(&EventRef::Woke(reports.ports()));
    }

    fn poll_now(&self, poll: &mut PortPoll, reports: &mut Reports) -> bool {
        reports.poll_now(poll)
    }

    fn note_poll(&mut self, reports: &mut Reports) {
        reports.note_poll(&mut self.trace);
    }

    fn read_watch_within(&mut self, watch: &mut Watch, limit: u64) -> u64 {
        let reading = read_clock(self.rt, watch.reading);
        let time = watch.advance_within(reading, limit);
        self.trace.note(&EventRef::Watched(*watch));
        time
    }

    fn micros(&self) -> Option<u64> {
        micros(self.rt)
    }

    fn utc_millis(&self) -> Option<u64> {
        utc_millis(self.rt)
    }

    fn out_of_memory(&mut self) {
        self.trace.note(&EventRef::OutOfMemory);
    }

    fn print_line(&mut self, line: Printed) -> io::Result<()> {
        self.trace.note(&EventRef::Line(line));
        self.rt.println(line)
    }

    fn watch_reader(&mut self, _alloc: Global) -> io::Result<()> {
        self.watches_reader = true;
        Ok(())
    }

    fn has_no_reader(&mut self) -> bool {
        note_look(&mut self.trace, self.has_lost_reader, &EventRef::NoReader)
    }

    fn is_signalled<D: DrainSignal>(&mut self, signal: &D) -> bool {
        let is_given = signal.is_given();
        note_look(&mut self.trace, is_given, &EventRef::DrainSignalled)
    }

    fn rng(&self) -> io::Result<StdRng> {
        make_rng(self.rt)
    }

    /// The system counts nothing: a device that wraps this one does.
    fn is_counted(&self) -> bool {
        false
    }

    fn count(&mut self, _entry: Entry) {}

    fn is_report_due(&self, _now: u64) -> bool {
        false
    }

    fn report_open(&mut self, _transfer: OpenTransfer<'_>) {}

    fn end_report(&mut self, _now: u64) {}
}

impl<R: ErrorLines> Eprint for SystemUdp<'_, R> {
    fn eprint<D: Display + Drop>(&self, value: D) -> io::Result<()> {
        WholeLines::new(self.rt).eprint(value)
    }

    fn eprintln<D: Display + Drop>(&self, value: D) -> io::Result<()> {
        WholeLines::new(self.rt).eprintln(value)
    }
}
