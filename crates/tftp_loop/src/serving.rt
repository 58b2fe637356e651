//! Serves over UDP, from the bind of the request port to the end.

ghost use Rattle.std.specs.Prelude.{◌≡◌};
ghost use Rattle.tftp_loop.specs.LoopStates.{IsAtStart};
ghost use Rattle.tftp_loop.specs.WholeRun.{RunsServer, RunsServerFrom, listening};

use crate::port_order::PortRange;
use crate::report::{log_listening, report_all};
use crate::server_loop::ServerLoop;
use crate::sockets::Sockets;
use std::alloc::Global;
use tftp_ends::{Backoff, Endpoint};
use tftp_lines::{Printed, Reason, reason_of};
use tftp_server::Server;
use tftp_sockets::{DrainSignal, ServerUdp};
use tftp_store::ServedStore;

/// The configuration of a server's loop.
#[derive(Clone, Copy)]
pub struct LoopConfig {
    /// The endpoint of the request port.
    pub listen: Endpoint,
    /// The ports that transfers use, each drawn at random; `None` if the system chooses.
    pub ports: Option<PortRange>,
    /// When the loop ends.
    pub ending: Ending,
    /// The age of a transfer, in seconds, behind which its datagrams are dropped, so that it times
    /// out once its retries are over; `None` for no limit.
    pub longest: Option<u32>,
    /// How long a transfer waits after timeouts without progress.
    pub backoff: Backoff,
    /// Whether what arrives at the request port and begins neither as RRQ nor as WRQ is dropped, as if
    /// the network had lost it.
    pub requests_only: bool,
    /// How many transfers one address has open at most: a further request of it is dropped, as if the
    /// network had lost it; `None` for no limit.
    pub per_client: Option<u8>,
    /// Whether a signal to drain is awaited.
    pub drains: bool,
    /// Whether the start, each request and each close is logged as a line on standard error.
    pub logs: bool,
    /// Whether a line of the log that is a warning begins with its priority, `<4>`: for a standard
    /// error that is systemd's journal.
    pub has_priority: bool,
}

/// When a server ends: once either count is reached.
#[derive(Clone, Copy)]
pub struct Ending {
    /// The number of closed transfers.
    pub transfers: u64,
    /// The number of waits.
    pub rounds: u64,
}

impl Ending {
    /// Never in practice: that many waits take thousands of years even if each returns at once.
    pub const NEVER: Ending = Ending {
        transfers: u64::MAX,
        rounds: u64::MAX,
    };
}

/// Why a server did not serve, or stopped.
#[derive(Clone, Copy)]
pub enum LoopFault {
    /// The request port could not be bound, or the ports of transfers not be ordered, for this
    /// reason.
    Socket(Reason),
    /// A line could not be printed.
    Output,
    /// Nobody reads what the server prints any more, as [`ServerUdp::has_no_reader`] has it.
    NoReader,
    /// Out of memory.
    Memory,
}

/// Serves until the end of `config`.
///
/// It returns `Ok` only at that end: so many transfers closed, or so many waits are over; or, if the
/// configuration has it drain, once the signal was given and what was open then has closed.
/// `Socket` is returned only if no port was bound and nothing done, `Output` only if the last event
/// is the line that could not be printed, `NoReader` and `Memory` only if it is that no reader was
/// found, or that memory was refused, before anything was received. If the
/// configuration has a range of ports, each transfer that opens has one of them.
pub fn serve<N: ServerUdp + Eprint, S: ServedStore<Reason> + Drop, D: DrainSignal>(
    net: &mut N,
    alloc: Global,
    server: Server<S>,
    config: &LoopConfig,
    signal: &D,
) -> Result<(), LoopFault>
    ensures runs { RunsServer S.meaning S.Source.meaning config.now server result (N.log net.old)
        (N.log net.new) }
    ensures file { N.file net.new ≡ N.file net.old }
{
    match Sockets::bind(&*net, alloc, config) {
        Ok(sockets) => {
            let mut running = ServerLoop::new(alloc, server, sockets, config);
            running.listen(net, config, signal)
        }
        Err(error) => Err(LoopFault::Socket(reason_of(&error))),
    }
}

impl<S: ServedStore<Reason> + Drop> ServerLoop<S> {
    /// Prints the endpoint of the request port, and serves it.
    fn listen<N: ServerUdp + Eprint, D: DrainSignal>(
        &mut self,
        net: &mut N,
        config: &LoopConfig,
        signal: &D,
    ) -> Result<(), LoopFault>
        requires { IsAtStart config.now self.old }
        ensures runs { RunsServerFrom S.meaning S.Source.meaning config.now
            self.old.sockets.requests.port self.old.server result
            (listening self.old.sockets.requests.ip self.old.sockets.requests.port (N.log net.old))
            (N.log net.new) }
        ensures file { N.file net.new ≡ N.file net.old }
    {
        let line = Printed::Listening(self.sockets.listening());
        if net.print_line(line).is_err() {
            return Err(LoopFault::Output);
        }
        log_listening(&*net, config, line);
        let Ok(mut buffers) = self.reserve() else {
            net.out_of_memory();
            return Err(LoopFault::Memory);
        };
        let served = self.take_rounds(
            net,
            signal,
            &mut buffers.reports,
            buffers.request.as_mut_slice(),
            buffers.datagram.as_mut_slice(),
        );
        report_all(net, self.ports.as_slice(), self.sockets.watch);
        served
    }
}
