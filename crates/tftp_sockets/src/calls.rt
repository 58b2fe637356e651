//! **Trusted by reading**: where a socket is bound, which ports a poll is to report, how long a wait
//! lasts, and what a poll reported.
//!
//! Review alone shows that each function passes on to std and `mio` what it is given, and returns what
//! they report: their sockets and polls have no model. What is recorded of it stands in the fields of
//! [`ServerSocket`], [`ClientSocket`] and [`Reports`], which no other file writes.

ghost use Rattle.std.specs.Prelude.{◌≡◌, ◌≢◌, [], true, false, IfOk};
ghost use Rattle.tftp_sockets.specs.Bound.{IsBoundTo};
ghost use Rattle.tftp_sockets.specs.declared.watch.TheConstants.{LONGEST_WAIT};

use crate::address::{address_of, endpoint_of};
use crate::bound::is_port_for;
use crate::port_poll::{PortPoll, Reports};
use crate::reader::has_lost_reader;
use crate::sockets::{ClientSocket, ServerSocket};
use crate::watch::LONGEST_WAIT;
use mio::net::UdpSocket as ReadySocket;
use mio::{Interest, Poll, Token};
use std::io::{self, ErrorKind};
use std::net::{Net, UdpSocket};
use std::time::Duration;
use tftp_ends::Endpoint;

// ---- where a socket is bound

/// Binds a socket of a client to the address and a port that the system chooses. Its read timeout is
/// the longest wait.
pub(crate) fn client_socket<N: Net>(net: &N, ip: [u8; 4]) -> io::Result<ClientSocket>
    ensures ip { IfOk result (λ socket. socket.ip ≡ ip) }
    ensures wait { IfOk result (λ socket. socket.wait ≡ LONGEST_WAIT) }
{
    let udp = UdpSocket::bind(net, address_of(Endpoint { ip, port: 0 }))?;
    let port = udp.local_addr()?.port();
    udp.set_read_timeout(Some(Duration::from_millis(LONGEST_WAIT)))?;
    Ok(ClientSocket {
        ip,
        port,
        udp,
        wait: LONGEST_WAIT,
    })
}

/// Binds a socket to the endpoint; the system chooses a port for 0.
pub(crate) fn bound_socket<N: Net>(net: &N, at: Endpoint) -> io::Result<ServerSocket>
    ensures { IfOk result (λ socket. IsBoundTo at socket.ip socket.port) }
{
    of_ready(ReadySocket::bind(net, address_of(at))?, at)
}

/// A socket that has the bound port of this one, which is bound to the endpoint.
pub(crate) fn same_socket(bound: &UdpSocket, at: Endpoint) -> io::Result<ServerSocket>
    ensures { IfOk result (λ socket. IsBoundTo at socket.ip socket.port) }
{
    let same = bound.try_clone()?;
    same.set_nonblocking(true)?;
    of_ready(ReadySocket::from_std(same), at)
}

/// The socket of a server that was to be bound to the endpoint. It fails with `AddrNotAvailable` if
/// the system reports another port, or the port 0.
fn of_ready(udp: ReadySocket, at: Endpoint) -> io::Result<ServerSocket>
    ensures { IfOk result (λ socket. IsBoundTo at socket.ip socket.port) }
{
    let port = udp.local_addr()?.port();
    if !is_port_for(at, port) {
        return Err(io::Error::from(ErrorKind::AddrNotAvailable));
    }
    Ok(ServerSocket {
        ip: at.ip,
        port,
        is_registered: false,
        udp,
    })
}

// ---- what a poll is to report, and how long a read waits

impl ServerSocket {
    /// The sender of the first datagram that has arrived, if one has that begins as RRQ or WRQ (RFC
    /// 1350, section 5). It stays there.
    pub(crate) fn first_sender(&self) -> Option<Endpoint> {
        let mut opcode = [0u8; 2];
        match self.udp.peek_from(&mut opcode) {
            Ok((2, address)) if opcode == [0, 1] || opcode == [0, 2] => endpoint_of(address),
            _ => None,
        }
    }

    /// Registers the socket, so that a wait reports its port when a datagram has arrived. If the
    /// system refuses, none does.
    pub fn register(&mut self, poll: &PortPoll) -> io::Result<()>
        ensures port { self.new.port ≡ self.old.port }
        ensures ip { self.new.ip ≡ self.old.ip }
        ensures registered { self.new.is_registered ≡ true }
    {
        let token = Token(usize::from(self.port));
        let registry = poll.poll.registry();
        self.is_registered = true;
        registry.register(&mut self.udp, token, Interest::READABLE)
    }
}

impl ClientSocket {
    /// Sets the read timeout of the socket, if it changes. False if the system refuses.
    pub(crate) fn set_wait(&mut self, wait: u64) -> bool
        ensures port { self.new.port ≡ self.old.port }
        ensures wait { result ≡ true → self.new.wait ≡ wait }
    {
        if wait == self.wait {
            return true;
        }
        let time = Some(Duration::from_millis(wait));
        if self.udp.set_read_timeout(time).is_err() {
            return false;
        }
        self.wait = wait;
        true
    }
}

// ---- polls

impl PortPoll {
    /// A poll of no socket yet.
    pub(crate) fn new<N: Net>(net: &N) -> io::Result<PortPoll> {
        Ok(PortPoll {
            poll: Poll::new(net)?,
        })
    }
}

impl Reports {
    /// Polls for at most `millis` milliseconds. An interrupted poll reports no port.
    pub(crate) fn poll(&mut self, poll: &mut PortPoll, millis: u64)
        ensures { self.new.is_unnoted ≡ false }
    {
        self.ports.clear();
        self.is_unnoted = false;
        let time = Some(Duration::from_millis(millis));
        if poll.poll.poll(&mut self.events, time).is_err() {
            return;
        }
        for event in self.events.iter() {
            match u16::try_from(event.token().0) {
                Ok(port) => {
                    // There is room for as many ports as events.
                    let _ = self.ports.push(port);
                }
                Err(_) => self.has_lost_reader |= has_lost_reader(event),
            }
        }
    }

    /// Polls without waiting. Returns whether a port is reported: then the poll is yet to be noted.
    pub(crate) fn poll_now(&mut self, poll: &mut PortPoll) -> bool
        ensures some { result ≡ true → self.new.ports.items ≢ [] }
        ensures unnoted { self.new.is_unnoted ≡ result }
    {
        self.poll(poll, 0);
        self.is_unnoted = self.has_port();
        self.is_unnoted
    }

    /// Polls up to so many times without a sleep, until a port is reported. Returns whether one is.
    pub(crate) fn poll_often(&mut self, poll: &mut PortPoll, polls: u32) -> bool
        ensures some { result ≡ true → self.new.ports.items ≢ [] }
        ensures once { result ≡ true → self.new.is_unnoted ≡ false }
    {
        for _ in 0..polls {
            self.poll(poll, 0);
            if self.has_port() {
                return true;
            }
        }
        false
    }
}
