//! **Trusted by reading**: what standard input is, and the questions to the system whether it is a
//! request port. Review alone shows that these are the right ones: descriptors have no model.

ghost use Rattle.std.specs.Prelude.{◌≢◌, IfOk};

use crate::handed_fault::HandedFault;
use crate::handed_socket::{HandedSocket, has_port};
use std::net::{TcpStream, UdpSocket};
use std::os::fd::{AsFd, OwnedFd};
use std::rt::Stdin;
use tftp_ends::Endpoint;
use tftp_sockets::endpoint_of;

/// What a process was started with as standard input, or why that is nothing. Only
/// [`standard_input`] makes one.
#[derive(Drop)]
pub struct Input {
    pub(crate) fd: Result<OwnedFd, HandedFault>,
}

/// Duplicates standard input. Called before anything is opened, it finds one that was closed: else
/// the next file could have got its number.
pub fn standard_input(stdin: &Stdin) -> Input {
    let fd = match stdin.as_fd().try_clone_to_owned() {
        Ok(fd) => Ok(fd),
        Err(error) => Err(HandedFault::of(&error)),
    };
    Input { fd }
}

impl HandedSocket {
    /// The descriptor of the socket, to be passed to other servers.
    pub fn into_descriptor(self) -> OwnedFd {
        OwnedFd::from(self.udp)
    }
}

/// The socket of a descriptor.
pub(crate) fn of_descriptor(fd: OwnedFd) -> Result<HandedSocket, HandedFault>
    ensures { IfOk result (λ socket. socket.endpoint.port ≢ 0) }
{
    let udp = UdpSocket::from(fd);
    match bound(&udp) {
        Ok(endpoint) => Ok(HandedSocket { udp, endpoint }),
        Err(fault) => Err(fault),
    }
}

/// Where a socket is bound that is for datagrams of every client.
fn bound(socket: &UdpSocket) -> Result<Endpoint, HandedFault>
    ensures { IfOk result (λ endpoint. endpoint.port ≢ 0) }
{
    let endpoint = address(socket)?;
    takes_datagrams(socket)?;
    takes_any_peer(socket)?;
    has_port(endpoint)?;
    Ok(endpoint)
}

/// The address of a socket.
fn address(socket: &UdpSocket) -> Result<Endpoint, HandedFault> {
    match socket.local_addr() {
        Ok(address) => match endpoint_of(address) {
            Some(endpoint) => Ok(endpoint),
            None => Err(HandedFault::Ipv6),
        },
        Err(error) => Err(HandedFault::of(&error)),
    }
}

/// Only TCP has the option that is asked for. The question changes nothing.
fn takes_datagrams(socket: &UdpSocket) -> Result<(), HandedFault> {
    let same = match socket.try_clone() {
        Ok(same) => TcpStream::from(OwnedFd::from(same)),
        Err(error) => return Err(HandedFault::of(&error)),
    };
    match same.nodelay() {
        Ok(_) => Err(HandedFault::Stream),
        Err(_) => Ok(()),
    }
}

/// A connected socket gets the datagrams of its one peer.
fn takes_any_peer(socket: &UdpSocket) -> Result<(), HandedFault> {
    match socket.peer_addr() {
        Ok(_) => Err(HandedFault::Connected),
        Err(_) => Ok(()),
    }
}
