//! The ports that transfers are bound to, and the order in which they are used.

ghost use Rattle.std.specs.Prelude.{◌≡◌, IfOk, IfSome, IsSome, Some};
ghost use Rattle.tftp_sockets.specs.Bound.{IsBoundTo};
ghost use Rattle.tftp_loop.specs.PortOrder.{HasPorts, IsOneOf, Mixes, UsesNext};
ghost use Rattle.tftp_loop.specs.declared.port_order.PortOrder.{PortOrder};
ghost use Rattle.tftp_loop.specs.PortPool.{IsOfPool, Tries, after_bind, most_of};
ghost use Rattle.tftp_loop.specs.PortsInTurn.{TriesInTurn};

use crate::port_order::{PortOrder, PortRange};
use std::alloc::Global;
use std::io;
use std::marker::Model;
use tftp_ends::Endpoint;
use tftp_lines::{Reason, reason_of};
use tftp_sockets::{ServerSocket, ServerUdp};

/// The ports of transfers. Contracts see their address and their range.
#[derive(Drop)]
pub(crate) struct PortPool {
    /// The address of the ports.
    ip: [u8; 4],
    /// The order of the ports; `None` if the system chooses each.
    order: Option<PortOrder>,
    /// Why the newest bind failed, if one did.
    bind_error: Option<Reason>,
}

impl Model for PortPool {
    ghost use Rattle.tftp_loop.specs.PortPool.{IsPool, PoolState, pool_state};

    ghost Value = { PoolState };

    ghost view = { λ pool. pool_state pool.ip pool.order };

    ghost invariant = { λ pool. IsPool pool.order };
}

impl PortPool {
    /// The ports at this address: those of the range in a random order, or those that the system
    /// chooses. It fails if the system gives no random bytes, or when out of memory.
    #[tactic(auto, using(crate::proofs::PoolLemmas::order_within))]
    pub(crate) fn new<N: ServerUdp>(
        net: &N,
        alloc: Global,
        ip: [u8; 4],
        range: Option<PortRange>,
    ) -> io::Result<PortPool>
        ensures { IfOk result (λ pool. pool ≡ record { ip = ip; range = range }) }
    {
        match range {
            Some(range) => match PortOrder::new(net, alloc, range) {
                Ok(order) => Ok(PortPool {
                    ip,
                    order: Some(order),
                    bind_error: None,
                }),
                Err(error) => Err(error),
            },
            None => Ok(PortPool {
                ip,
                order: None,
                bind_error: None,
            }),
        }
    }

    /// The most transfers that have a port each at once, of so many.
    pub(crate) fn most(&self, cap: u8) -> usize
        ensures { result ≡ most_of cap self.now.range }
    {
        match &self.order {
            Some(order) => order.range().len().min(usize::from(cap)),
            None => usize::from(cap),
        }
    }

    /// Binds a port: the next of the order to which the system binds a socket, if there is an order.
    /// `None` if that fails: each port of the order was tried, and each failure is noted. If no transfer opens there the
    /// port counts as one that was used.
    pub(crate) fn bind_port<N: ServerUdp>(&mut self, net: &mut N) -> Option<ServerSocket>
        // Which port is bound, and how each try is noted.
        ensures same { self.new ≡ self.old }
        ensures port { IfSome result (IsOfPool self.old) }
        ensures tries { Tries self.old.range (N.log net.old) (N.log net.new) result }
        // What stays.
        ensures told { N.told net.new ≡ N.told net.old }
        ensures file { N.file net.new ≡ N.file net.old }
    {
        let ip = self.ip;
        match &mut self.order {
            Some(order) => bind_next(net, ip, order, &mut self.bind_error),
            None => bind_at(net, ip, 0, &mut self.bind_error),
        }
    }

    /// Why the newest bind failed, if one did.
    pub(crate) fn bind_error(&self) -> Option<Reason> {
        self.bind_error
    }
}

/// Binds the next port of the order to which the system binds a socket. `None` if it does to none.
fn bind_next<N: ServerUdp>(
    net: &mut N,
    ip: [u8; 4],
    order: &mut PortOrder,
    bind_error: &mut Option<Reason>,
) -> Option<ServerSocket>
    // The order has ports before and after, and is of the same range.
    requires { HasPorts order.old }
    ensures range { order.new.range ≡ order.old.range }
    ensures ports { HasPorts order.new }
    // Which port is bound, and how each try is noted.
    ensures bound { IfSome result (IsOfPool (record { ip = ip; range = Some order.old.range })) }
    ensures tries { Tries (Some order.old.range) (N.log net.old) (N.log net.new) result }
    ensures turns { TriesInTurn ip order.old order.new result }
    // What stays.
    ensures told { N.told net.new ≡ N.told net.old }
    ensures file { N.file net.new ≡ N.file net.old }
{
    let half = order.range().drawn_from();
    let mut left = order.len();
    loop {
        let port = draw_port(order, half.min(left))?;
        if let Some(socket) = bind_at(net, ip, port, bind_error) {
            return Some(socket);
        }
        if left <= 1 {
            return None;
        }
        left -= 1;
    }
}

/// The next port of the order, drawn from so many, which is then the last one. `None` if there are
/// none.
fn draw_port(order: &mut PortOrder, among: usize) -> Option<u16>
    // The order has ports before and after, and is of the same range.
    requires { HasPorts order.old }
    ensures range { order.new.range ≡ order.old.range }
    ensures ports { HasPorts order.new }
    // Which port is drawn, and that there is one.
    ensures port { IfSome result (IsOneOf (Some order.old.range)) }
    ensures draws { IfSome result (λ port. (mixed : PortOrder) × Mixes among order.old mixed
        × UsesNext mixed order.new port) }
    ensures some { IsSome result }
{
    order.mix(among);
    order.next()
}

/// Binds a socket to the port; the system chooses one for 0. `None` if the system refuses.
fn bind_at<N: ServerUdp>(
    net: &mut N,
    ip: [u8; 4],
    port: u16,
    bind_error: &mut Option<Reason>,
) -> Option<ServerSocket>
    ensures bound { IfSome result (λ socket.
        IsBoundTo (record { ip = ip; port = port }) socket.ip socket.port) }
    ensures noted { N.log net.new ≡ after_bind port result (N.log net.old) }
    ensures told { N.told net.new ≡ N.told net.old }
    ensures file { N.file net.new ≡ N.file net.old }
{
    match net.bind_noted(Endpoint { ip, port }) {
        Ok(socket) => Some(socket),
        Err(error) => {
            *bind_error = Some(reason_of(&error));
            None
        }
    }
}
