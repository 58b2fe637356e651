//! The calls of a program over UDP, and the trace that they make.
//!
//! Code that is generic over one of these traits, and has no other bound that reaches the system, can
//! make no second device and note nothing of its own: each call says what it puts on the trace. A
//! call without an event takes `&self`, and changes nothing of it.

use crate::entry::{Entry, OpenTransfer};
use crate::load::Load;
use crate::port_poll::{PortPoll, Reports};
use crate::receipt::Receipt;
use crate::signal::DrainSignal;
use crate::sockets::{ClientSocket, ServerSocket};
use crate::watch::Watch;
use rand::rngs::StdRng;
use std::alloc::Global;
use std::io;
use std::net::UdpSocket;
use tftp_ends::Endpoint;
use tftp_lines::{ClientOutcome, Printed, Reason};

/// What the programs over UDP share: their trace, and their time.
pub trait Udp {
    ghost use Rattle.std.specs.Prelude.{◌≡◌, ◌∷◌, ℕ, List, Option, None};
    ghost use Rattle.tftp_sockets.specs.Trace.{SocketEvent};
    ghost use Rattle.tftp_sockets.specs.Trace.SocketEvent.{Elapsed};

    /// What was done, the newest event first.
    ghost log: { Self → List SocketEvent };

    /// The path of the file in which the device reports, if it does. No call of a server changes it,
    /// and it is no part of the trace.
    ghost file: { Self → Option (List ℕ) } = { λ _. None };

    /// A watch that starts now, at a reading of the clock.
    fn start_watch(&self) -> Watch
        ensures { result.now ≡ 0 };

    /// Notes a timeout that is delivered to the transfer at the port, at this time of the watch, in
    /// milliseconds.
    fn elapsed(&mut self, port: u16, time: u64)
        ensures noted { log self.new ≡ Elapsed port time ∷ log self.old }
        ensures file { file self.new ≡ file self.old };
}

/// The UDP sockets of a client, its clock and its last line.
pub trait ClientUdp: Udp {
    ghost use Rattle.std.specs.Prelude.{◌≡◌, ◌≤◌, ◌+◌, ◌∷◌, IfOk, length, max};
    ghost use Rattle.tftp_lines.specs.ClientOutcome.{end_text};
    ghost use Rattle.tftp_sockets.specs.Trace.SocketEvent.{Sent, Watched, Printed as Line, Quiet};
    ghost use Rattle.tftp_sockets.specs.Trace.QuietEvent.{Slept};
    ghost use Rattle.tftp_sockets.specs.Output.{line_taken};
    ghost use Rattle.tftp_sockets.specs.Receipt.{Fits, receive_event};
    ghost use Rattle.tftp_sockets.specs.Watch.{later_by};
    ghost use Rattle.tftp_sockets.specs.declared.address.TheConstants.{DATAGRAM_BUFFER};
    ghost use Rattle.tftp_sockets.specs.declared.watch.TheConstants.{LONGEST_WAIT};

    /// Binds a socket to the address, 0.0.0.0 for every address of this host, and a port that the
    /// system chooses.
    fn bind(&self, ip: [u8; 4]) -> io::Result<ClientSocket>
        ensures { IfOk result (λ socket. socket.ip ≡ ip) };

    /// Waits at most `wait` milliseconds for a datagram; 0 counts as 1. A shorter buffer would cut a
    /// DATA, which then counts as the last block (RFC 1350, section 6).
    fn receive(&mut self, socket: &mut ClientSocket, wait: u64, buffer: &mut [u8]) -> Receipt
        requires { DATAGRAM_BUFFER ≤ length buffer.old }
        ensures port { socket.new.port ≡ socket.old.port }
        ensures noted { Self.log self.new ≡ receive_event socket.old.port buffer.new result
            ∷ Quiet (Slept (max wait 1)) ∷ Self.log self.old }
        ensures fits { Fits buffer.new result };

    /// Sends a datagram. If the system refuses it, the datagram is lost, and its reason returned.
    fn send(&mut self, socket: &ClientSocket, to: Endpoint, bytes: &[u8]) -> Result<(), Reason>
        ensures { Self.log self.new ≡ Sent socket.now.port to bytes.now ∷ Self.log self.old };

    /// Reads the clock, and returns the new time of the watch, in milliseconds. It advances as much
    /// as the clock, at most by [`LONGEST_WAIT`](crate::LONGEST_WAIT).
    fn read_watch(&mut self, watch: &mut Watch) -> u64
        ensures noted { Self.log self.new ≡ Watched watch.new ∷ Self.log self.old }
        ensures time { watch.new.now ≡ result }
        ensures reading { result ≡ later_by watch.old watch.new.reading }
        ensures forward { watch.old.now ≤ result }
        ensures soon { result ≤ watch.old.now + LONGEST_WAIT };

    /// Prints how `tftp` ended, on standard output. If the system refuses the line, an empty one is
    /// noted.
    fn print_end(&mut self, end: ClientOutcome) -> io::Result<()>
        ensures { Self.log self.new ≡ Line (line_taken result (end_text end)) ∷ Self.log self.old };
}

/// The UDP sockets of a server, its waits, its clock and its lines.
pub trait ServerUdp: Udp {
    ghost use Rattle.std.specs.Prelude.{◌≡◌, ◌≢◌, ◌≤◌, ◌∷◌, [], true, false, IfOk, OnErr, length};
    ghost use Rattle.std.specs.Prelude.{max, List, Option};
    ghost use Rattle.tftp_lines.specs.Printed.{line_text};
    ghost use Rattle.tftp_sockets.specs.declared.entry.Entry.{Entry};
    ghost use Rattle.tftp_sockets.specs.Told.{and_told};
    ghost use Rattle.tftp_sockets.specs.Bound.{IsBoundTo};
    ghost use Rattle.tftp_sockets.specs.Trace.SocketEvent.{Sent, Watched, Printed as Line, Quiet};
    ghost use Rattle.tftp_sockets.specs.Trace.QuietEvent.{Failed, New_socket, No_socket};
    ghost use Rattle.tftp_sockets.specs.Trace.{looked, polled};
    ghost use Rattle.tftp_sockets.specs.Trace.QuietEvent.{Out_of_memory, Slept, Woke};
    ghost use Rattle.tftp_sockets.specs.Trace.QuietEvent.{No_reader, Drain_signalled};
    ghost use Rattle.tftp_sockets.specs.Receipt.{Fits, receive_event};
    ghost use Rattle.tftp_sockets.specs.Watch.{later_within};
    ghost use Rattle.tftp_sockets.specs.declared.address.TheConstants.{DATAGRAM_BUFFER};

    /// What was counted, the newest entry first, if the device counts. It is no part of the trace.
    ghost told: { Self → Option (List Entry) };

    /// Binds a non-blocking socket to the endpoint; the system chooses a port for 0. It fails with
    /// the system's error, or with `AddrNotAvailable` if the system reports another port, or the port
    /// 0.
    fn bind(&self, at: Endpoint) -> io::Result<ServerSocket>
        ensures { IfOk result (λ socket. IsBoundTo at socket.ip socket.port) };

    /// A non-blocking socket that has the bound port of this one, which another program bound to the
    /// endpoint.
    fn adopt(&self, handed: &UdpSocket, at: Endpoint) -> io::Result<ServerSocket>
        ensures { IfOk result (λ socket. IsBoundTo at socket.ip socket.port) };

    /// Binds a socket as `bind` does. The port of the new socket is noted, or that it fails, with the
    /// port of the endpoint.
    fn bind_noted(&mut self, at: Endpoint) -> io::Result<ServerSocket>
        ensures bound { IfOk result (λ socket. IsBoundTo at socket.ip socket.port) }
        ensures ok { IfOk result (λ socket. Self.log self.new ≡ Quiet (New_socket socket.port)
            ∷ Self.log self.old) }
        ensures err { OnErr result (Self.log self.new ≡ Quiet (No_socket at.port)
            ∷ Self.log self.old) }
        ensures told { Self.told self.new ≡ Self.told self.old }
        ensures file { Self.file self.new ≡ Self.file self.old };

    /// Receives a datagram at the port of a transfer, if one has arrived. A shorter buffer would cut
    /// a DATA, which then counts as the last block (RFC 1350, section 6).
    fn receive(&mut self, socket: &ServerSocket, buffer: &mut [u8]) -> Receipt
        requires { DATAGRAM_BUFFER ≤ length buffer.old }
        ensures noted { Self.log self.new ≡ receive_event socket.now.port buffer.new result
            ∷ Self.log self.old }
        ensures fits { Fits buffer.new result }
        ensures file { Self.file self.new ≡ Self.file self.old };

    /// Receives a datagram at the request port, if one has arrived, and a server with this load does
    /// not leave it to another one.
    fn receive_request(&mut self, requests: &ServerSocket, load: Load, buffer: &mut [u8]) -> Receipt
        requires { DATAGRAM_BUFFER ≤ length buffer.old }
        ensures noted { Self.log self.new ≡ receive_event requests.now.port buffer.new result
            ∷ Self.log self.old }
        ensures fits { Fits buffer.new result }
        ensures file { Self.file self.new ≡ Self.file self.old };

    /// The sender of the first datagram that has arrived, if one has that begins as RRQ or WRQ. It
    /// stays there.
    fn first_sender(&self, socket: &ServerSocket) -> Option<Endpoint>;

    /// Leaves a datagram that has arrived to the other servers that have the socket, and notes a
    /// receive that failed: a datagram may be there. A server without open transfers leaves none.
    fn leave(&mut self, requests: &ServerSocket, load: Load) -> Receipt
        requires { 1 ≤ load.open }
        ensures noted { Self.log self.new ≡ Quiet (Failed requests.now.port) ∷ Self.log self.old }
        ensures failed { result ≡ Receipt.Failed }
        ensures file { Self.file self.new ≡ Self.file self.old };

    /// Sends a datagram. If the system refuses it, the datagram is lost, and its reason returned.
    fn send(&mut self, socket: &ServerSocket, peer: Endpoint, bytes: &[u8]) -> Result<(), Reason>
        ensures noted { Self.log self.new ≡ Sent socket.now.port peer bytes.now ∷ Self.log self.old }
        ensures told { Self.told self.new ≡ Self.told self.old }
        ensures file { Self.file self.new ≡ Self.file self.old };

    /// Creates the poll of non-blocking sockets. The loss of the reader of standard output wakes it,
    /// too, if that is watched.
    fn poll(&self) -> io::Result<PortPoll>;

    /// The number of polls before a wait that may sleep, while several transfers are active. A client
    /// that sends to a sleeping server has to wake it, which slows all clients of one processor.
    fn polls(&self) -> u32;

    /// Waits until a datagram has arrived at a port, for at most `millis` milliseconds. Before it
    /// sleeps it polls up to `polls` times: a client that sends to a sleeping program has to wake it.
    fn wait(&mut self, poll: &mut PortPoll, reports: &mut Reports, millis: u64, polls: u32)
        ensures noted { Self.log self.new ≡ Quiet (Woke reports.new.ports.items)
            ∷ Quiet (Slept millis) ∷ Self.log self.old }
        ensures once { reports.new.is_unnoted ≡ false }
        ensures file { Self.file self.new ≡ Self.file self.old };

    /// Polls without waiting. Returns whether a datagram has arrived at a port: then `note_poll` is
    /// to note it.
    fn poll_now(&self, poll: &mut PortPoll, reports: &mut Reports) -> bool
        ensures some { result ≡ true → reports.new.ports.items ≢ [] }
        ensures unnoted { reports.new.is_unnoted ≡ result };

    /// Notes a poll that took no time and reported these ports, once.
    fn note_poll(&mut self, reports: &mut Reports)
        ensures noted { Self.log self.new ≡ polled reports.old.is_unnoted reports.old.ports.items
            (Self.log self.old) }
        ensures once { reports.new ≡ record reports.old { is_unnoted = false } }
        ensures file { Self.file self.new ≡ Self.file self.old };

    /// Reads the clock, for a time that advances to `limit` at most, and returns the new time of the
    /// watch, in milliseconds.
    fn read_watch_within(&mut self, watch: &mut Watch, limit: u64) -> u64
        ensures noted { Self.log self.new ≡ Watched watch.new ∷ Self.log self.old }
        ensures time { watch.new.now ≡ result }
        ensures reading { result ≡ later_within watch.old watch.new.reading limit }
        ensures forward { watch.old.now ≤ result }
        ensures soon { result ≤ max watch.old.now limit }
        ensures file { Self.file self.new ≡ Self.file self.old };

    /// The time of the monotonic clock in microseconds, if it can be read. It is no time of a watch.
    fn micros(&self) -> Option<u64>;

    /// The time of the wall clock in milliseconds since 1970 began in UTC, if it can be read. It is no
    /// time of a watch, and only lines of a log have it.
    fn utc_millis(&self) -> Option<u64>;

    /// Notes that memory was refused.
    fn out_of_memory(&mut self)
        ensures noted { Self.log self.new ≡ Quiet Out_of_memory ∷ Self.log self.old }
        ensures told { Self.told self.new ≡ Self.told self.old }
        ensures file { Self.file self.new ≡ Self.file self.old };

    /// Prints a line of `tftpd`, on standard output.
    fn print_line(&mut self, line: Printed) -> io::Result<()>
        ensures noted { Self.log self.new ≡ Line (line_text line) ∷ Self.log self.old }
        ensures told { Self.told self.new ≡ Self.told self.old }
        ensures file { Self.file self.new ≡ Self.file self.old };

    /// Watches the reader of standard output from now on.
    fn watch_reader(&mut self, alloc: Global) -> io::Result<()>
        ensures noted { Self.log self.new ≡ Self.log self.old }
        ensures file { Self.file self.new ≡ Self.file self.old };

    /// Looks whether nobody reads any more what the server prints, if that is watched, and notes it
    /// then.
    fn has_no_reader(&mut self) -> bool
        ensures noted { Self.log self.new ≡ looked result No_reader (Self.log self.old) }
        ensures file { Self.file self.new ≡ Self.file self.old };

    /// Looks whether the signal to drain was given by now, and notes it then.
    fn is_signalled<D: DrainSignal>(&mut self, signal: &D) -> bool
        ensures noted { Self.log self.new ≡ looked result Drain_signalled (Self.log self.old) }
        ensures file { Self.file self.new ≡ Self.file self.old };

    /// A generator that is seeded by random bytes of the system.
    fn rng(&self) -> io::Result<StdRng>;

    /// Whether what happens at the server is counted: then [`count`](ServerUdp::count) is told of it.
    fn is_counted(&self) -> bool;

    /// Counts what happened at the server. It is no event of the trace.
    fn count(&mut self, entry: Entry)
        ensures noted { Self.log self.new ≡ Self.log self.old }
        ensures told { Self.told self.new ≡ and_told entry (Self.told self.old) }
        ensures file { Self.file self.new ≡ Self.file self.old };

    /// Whether a report of the open transfers is due at this time of the watch, in milliseconds. It
    /// costs one comparison.
    fn is_report_due(&self, now: u64) -> bool;

    /// Adds an open transfer to the report that is due. It is no event of the trace.
    fn report_open(&mut self, transfer: OpenTransfer<'_>)
        ensures noted { Self.log self.new ≡ Self.log self.old }
        ensures told { Self.told self.new ≡ Self.told self.old }
        ensures file { Self.file self.new ≡ Self.file self.old };

    /// Ends the report that is due, at this time of the watch, in milliseconds: the transfers that
    /// were added are all that are open. It is no event of the trace.
    fn end_report(&mut self, now: u64)
        ensures noted { Self.log self.new ≡ Self.log self.old }
        ensures told { Self.told self.new ≡ Self.told self.old }
        ensures file { Self.file self.new ≡ Self.file self.old };
}
