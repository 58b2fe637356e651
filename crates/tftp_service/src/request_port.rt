//! The request port of a server: which socket it is, and when the server takes a request there.

ghost use Rattle.std.specs.Prelude.{◌≡◌, ◌≤◌, ◌∷◌, IfOk, IsSome, IsTrue, None, Some, length};
ghost use Rattle.tftp_sockets.specs.Bound.{IsBoundTo};
ghost use Rattle.tftp_sockets.specs.Receipt.{Fits, receive_event};
ghost use Rattle.tftp_sockets.specs.declared.address.TheConstants.{DATAGRAM_BUFFER};

use crate::handed_socket::HandedSocket;
use crate::share::Share;
use std::io;
use tftp_ends::Endpoint;
use tftp_sockets::{Load, Receipt, ServerSocket, ServerUdp};

/// The request port of a server.
#[derive(Drop)]
pub struct RequestPort {
    /// Where it is bound.
    at: Endpoint,
    /// The socket that was handed over, if one was.
    socket: Option<HandedSocket>,
    /// When a request is taken there, if the server is one of several that share the port.
    share: Option<Share>,
}

impl RequestPort {
    /// The port of a server alone, which binds it there.
    pub fn own(at: Endpoint) -> RequestPort
        ensures at { result.at ≡ at }
        ensures socket { result.socket ≡ None }
        ensures alone { result.share ≡ None }
    {
        RequestPort {
            at,
            socket: None,
            share: None,
        }
    }

    /// The port of a server alone, to which this socket was handed over.
    pub fn handed(socket: HandedSocket) -> RequestPort
        ensures at { result.at ≡ socket.endpoint }
        ensures socket { result.socket ≡ Some socket }
        ensures alone { result.share ≡ None }
    {
        RequestPort {
            at: socket.endpoint,
            socket: Some(socket),
            share: None,
        }
    }

    /// The port of one of several servers, to each of which this socket was handed over.
    pub fn shared(socket: HandedSocket) -> RequestPort
        ensures at { result.at ≡ socket.endpoint }
        ensures socket { result.socket ≡ Some socket }
        ensures shared { IsSome result.share }
    {
        RequestPort {
            share: Some(Share::new()),
            ..RequestPort::handed(socket)
        }
    }

    /// Where it is bound.
    pub fn endpoint(&self) -> Endpoint
        ensures { result ≡ self.now.at }
    {
        self.at
    }

    /// The socket of the port at this endpoint: the one that was handed over, if that is bound there.
    pub fn bind<N: ServerUdp>(&self, net: &N, at: Endpoint) -> io::Result<ServerSocket>
        ensures { IfOk result (λ socket. IsBoundTo at socket.ip socket.port) }
    {
        match &self.socket {
            Some(socket) if socket.endpoint == at => net.adopt(&socket.udp, at),
            _ => net.bind(at),
        }
    }

    /// Receives a datagram, if one has arrived. Of several servers one that owes the others no time
    /// takes a request, which all of them find.
    pub fn receive<N: ServerUdp>(
        &self,
        net: &mut N,
        requests: &ServerSocket,
        load: Load,
        buffer: &mut [u8],
    ) -> Receipt
        requires { DATAGRAM_BUFFER ≤ length buffer.old }
        ensures noted { N.log net.new ≡ receive_event requests.now.port buffer.new result
            ∷ N.log net.old }
        ensures fits { Fits buffer.new result }
    {
        if self.leaves(net, requests, load) {
            return net.leave(requests, load);
        }
        net.receive_request(requests, load, buffer)
    }

    /// The number of polls before a wait that may sleep. One of several servers makes none: the
    /// others, and the clients, need the processor.
    pub fn polls<N: ServerUdp>(&self, net: &N) -> u32
        ensures { IsSome self.now.share → result ≡ 0 }
    {
        match &self.share {
            Some(_) => 0,
            None => net.polls(),
        }
    }

    /// Whether what waits at the request port is left to other servers. One alone leaves nothing.
    fn leaves<N: ServerUdp>(&self, net: &N, requests: &ServerSocket, load: Load) -> bool
        ensures shared { IsTrue result → IsSome self.now.share }
        ensures open { IsTrue result → 1 ≤ load.open }
    {
        match &self.share {
            Some(share) => share.leaves(net, requests, load),
            None => false,
        }
    }
}
