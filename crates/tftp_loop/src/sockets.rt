//! The request port of a server, and the ports for its transfers.

ghost use Rattle.std.specs.Prelude.{◌≡◌, ◌||◌, true, false, IfOk, IfSome, OnOk};
ghost use Rattle.tftp_server.specs.Port.{asks_store};
ghost use Rattle.tftp_sockets.specs.Quiet.{is_among};
ghost use Rattle.tftp_loop.specs.PortPool.{IsOfPool, Tries, most_of};
ghost use Rattle.tftp_loop.specs.LoopStates.{AreBound};
ghost use Rattle.tftp_loop.specs.Steps.{round_end};

use crate::port_pool::PortPool;
use crate::serving::LoopConfig;
use std::alloc::Global;
use std::io;
use tftp_ends::Endpoint;
use tftp_lines::Reason;
use tftp_server::Admission;
use tftp_sockets::{LONGEST_WAIT, PortPoll, ServerSocket, ServerUdp, Watch};

/// The request port, the poll of all ports, and the time.
#[derive(Drop)]
pub(crate) struct Sockets {
    pub(crate) poll: PortPoll,
    pub(crate) requests: ServerSocket,
    /// The number of polls before a wait that may sleep, while several transfers are active.
    pub(crate) polls: u32,
    /// Whether a datagram may be at the request port.
    pub(crate) is_ready: bool,
    /// Whether a datagram was received at the request port since the last wait.
    pub(crate) has_received: bool,
    /// The ports of transfers.
    pool: PortPool,
    /// The time, read after each wait and before the next.
    pub(crate) watch: Watch,
    /// Up to which time of the watch this round lasts at most: a second after the one before began.
    pub(crate) limit: u64,
}

impl Sockets {
    /// Binds the request port, and orders the ports of transfers, which are at the same address.
    pub(crate) fn bind<N: ServerUdp>(
        net: &N,
        alloc: Global,
        config: &LoopConfig,
    ) -> io::Result<Sockets>
        ensures { IfOk result (AreBound config.now) }
    {
        let mut requests = net.bind(config.listen)?;
        let poll = poll_for(net, &mut requests)?;
        let pool = PortPool::new(net, alloc, config.listen.ip, config.ports)?;
        Ok(Sockets {
            poll,
            requests,
            polls: net.polls(),
            is_ready: true,
            has_received: false,
            pool,
            watch: net.start_watch(),
            limit: LONGEST_WAIT,
        })
    }

    /// Up to which time the clock may advance in this round: a second at most.
    pub(crate) fn round_end(&self) -> u64
        ensures { result ≡ round_end self.now.watch.now self.now.limit }
    {
        self.limit.min(self.watch.now.saturating_add(LONGEST_WAIT))
    }

    /// The endpoint of the request port.
    pub(crate) fn listening(&self) -> Endpoint
        ensures { result
            ≡ record { ip = self.now.requests.ip; port = self.now.requests.port } }
    {
        self.requests.endpoint()
    }

    /// Marks the request port if a wait reported it.
    pub(crate) fn mark(&mut self, reported: &[u16])
        ensures { self.new ≡ record self.old {
          is_ready = self.old.is_ready || is_among self.old.requests.port reported.now;
          has_received = false;
        } }
    {
        self.has_received = false;
        let port = self.requests.port();
        if reported.contains(&port) {
            self.is_ready = true;
        }
    }

    /// The most transfers that have a port each at once, of so many.
    pub(crate) fn most_open(&self, cap: u8) -> usize
        ensures { result ≡ most_of cap self.now.pool.range }
    {
        self.pool.most(cap)
    }

    /// Binds a port for a transfer that may open: the next of the order to which the system binds a
    /// socket, if there is an order. `None` if that fails: each port of the order was tried, and each
    /// failure is noted.
    pub(crate) fn port_for<N: ServerUdp>(
        &mut self,
        net: &mut N,
        _admission: &Admission<'_>,
    ) -> Option<ServerSocket>
        // Which port is bound, and how each try is noted.
        requires { asks_store _admission.now.ask ≡ true }
        ensures same { self.new ≡ self.old }
        ensures port { IfSome result (IsOfPool self.old.pool) }
        ensures tries { Tries self.old.pool.range (N.log net.old) (N.log net.new) result }
        // What stays.
        ensures told { N.told net.new ≡ N.told net.old }
        ensures file { N.file net.new ≡ N.file net.old }
    {
        self.pool.bind_port(net)
    }

    /// Why the newest bind of a transfer's port failed, if one did.
    pub(crate) fn bind_error(&self) -> Option<Reason> {
        self.pool.bind_error()
    }

    /// Adds the port of a transfer to the poll.
    pub(crate) fn register(&self, bound: &mut ServerSocket)
        ensures port { bound.new.port ≡ bound.old.port }
        ensures registered { bound.new.is_registered ≡ true }
    {
        // If this fails, the transfer's datagrams are received when its port is due.
        let _ = bound.register(&self.poll);
    }
}

/// A poll of the request port.
fn poll_for<N: ServerUdp>(net: &N, requests: &mut ServerSocket) -> io::Result<PortPoll>
    ensures port { requests.new.port ≡ requests.old.port }
    ensures ip { requests.new.ip ≡ requests.old.ip }
    ensures registered { OnOk result (requests.new.is_registered ≡ true) }
{
    let poll = net.poll()?;
    requests.register(&poll)?;
    Ok(poll)
}
