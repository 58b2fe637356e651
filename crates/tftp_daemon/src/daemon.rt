//! `tftpd`: a server over UDP that serves the files of a folder.

ghost use Rattle.std.specs.Prelude.{◌≡◌, ◌≤◌, [], IfSome, IsFalse, IsTrue, None, OnOk, option_map};
ghost use Rattle.tftp_server.specs.Config.{IsConfig};
ghost use Rattle.tftp_daemon.specs.Configured.{IsOfSeveral, ListensAt, MayServe};
ghost use Rattle.tftp_daemon.specs.Configured.{daemon_status, servers_of, service_at, stamp_of};
ghost use Rattle.tftp_daemon.specs.Reports.{IsReportOf, ReportsAt};
ghost use Rattle.tftp_daemon.specs.Supervised.{MaySupervise, Supervised};

use crate::device::ServerDevice;
use crate::drain_file::DrainFile;
use crate::host::{Devices, Host};
use crate::listen::Listen;
use crate::opening::open_server;
use crate::servers::supervise;
use crate::setup::{DeviceSetup, setup_of};
use crate::status::check_status;
use std::alloc::{AllocError, Global};
use std::process::ExitStatus;
use std::time::Clock;
use tftp_disk::Disk;
use tftp_ends::{Backoff, Endpoint};
use tftp_file::Source;
use tftp_folder::{FolderSource, FolderStore};
use tftp_lines::Reason;
use tftp_loop::{Ending, LoopConfig, LoopFault, PortRange};
use tftp_server::{Config, Store};
use tftp_service::{HandedFault, Input, LineStamp};
use tftp_sockets::{ErrorLines, ServerUdp};
use tftp_status::{Reporting, UnusedDisk};
use tftp_supervisor::Supervise;

/// The configuration of `tftpd`.
#[derive(Drop)]
pub(crate) struct DaemonConfig<'a> {
    /// The path of the served folder.
    pub(crate) root: &'a str,
    /// The limits of transfers.
    pub(crate) config: Config,
    /// Every write is refused.
    pub(crate) read_only: bool,
    /// The folder below the root that takes all writes, if not every folder does.
    pub(crate) uploads: Option<&'a str>,
    /// Where requests arrive.
    pub(crate) listen: Listen,
    /// The other addresses at which requests arrive, each at servers of its own.
    pub(crate) others: Vec<Endpoint>,
    /// The ports that transfers use; `None` if the system chooses.
    pub(crate) ports: Option<PortRange>,
    /// Whether what does not begin as a request is dropped at the request port.
    pub(crate) requests_only: bool,
    /// How many transfers one address has open at most; `None` for no limit.
    pub(crate) per_client: Option<u8>,
    /// When the server ends.
    pub(crate) ending: Ending,
    /// The age of a transfer, in seconds, behind which its datagrams are dropped; `None` for no
    /// limit.
    pub(crate) longest: Option<u32>,
    /// How many bytes of memory the lengths of netascii files take at most.
    pub(crate) length_memory: u64,
    /// How long a transfer waits after timeouts without progress.
    pub(crate) backoff: Backoff,
    /// The file that has the server drain once it is there; `None` if none does.
    pub(crate) drain: Option<&'a str>,
    /// The file of the counts, with the server's number if it is one of several; `None` for none.
    pub(crate) status: Option<&'a str>,
    /// Whether there is a log.
    pub(crate) logs: bool,
    /// Whether each line of the log begins with its time.
    pub(crate) log_times: bool,
    /// How many servers there are, and which this is.
    pub(crate) instance: Instance,
    /// Whether a warning of the log begins with its priority.
    pub(crate) has_priority: bool,
}

/// How many servers a command line starts, and which of several it is.
#[derive(Clone, Copy)]
pub(crate) struct Instance {
    /// The number of servers that are to start at each address.
    pub(crate) servers: u8,
    /// Which of several servers this is, counted from 1, if it is one of several.
    pub(crate) server: Option<u8>,
}

impl DaemonConfig<'_> {
    /// Whether there are several servers, each a process of its own.
    fn is_of_several(&self) -> bool
        ensures several { IsTrue result → IsOfSeveral self.now }
        ensures alone { IsFalse result → self.now.instance.servers ≤ 1 }
        ensures at_one_address { IsFalse result → self.now.others.items ≡ [] }
    {
        if self.instance.servers > 1 {
            return true;
        }
        !self.others.is_empty()
    }

    /// How many servers there are, at all addresses, if they can be counted.
    pub(crate) fn servers(&self) -> Option<u8>
        ensures { IfSome result (λ count. count ≡ servers_of self.now) }
    {
        let addresses = self.others.len().checked_add(1)?;
        let count = usize::from(self.instance.servers).checked_mul(addresses)?;
        u8::try_from(count).ok()
    }

    /// What stands before the words of a line on standard error.
    pub(crate) fn stamp(&self) -> LineStamp
        ensures { result ≡ stamp_of self.now }
    {
        LineStamp {
            server: self.instance.server,
            has_time: self.log_times,
        }
    }

    /// The configuration of the loop, with the request port at this endpoint.
    fn service_at(&self, listen: Endpoint) -> LoopConfig
        ensures { result ≡ service_at self.now listen }
    {
        LoopConfig {
            listen,
            ports: self.ports,
            ending: self.ending,
            longest: self.longest,
            backoff: self.backoff,
            requests_only: self.requests_only,
            per_client: self.per_client,
            drains: self.drain.is_some(),
            logs: self.logs,
            has_priority: self.has_priority,
        }
    }
}

/// Why `tftpd` did not serve, or stopped.
#[derive(Clone, Copy)]
pub(crate) enum DaemonFault {
    /// The root is no folder that can be served, for this reason.
    Root(Reason),
    /// The folder of uploads cannot take writes, for this reason.
    Uploads(Reason),
    /// The status file cannot be where it is to be, for this reason.
    Status(StatusFault),
    /// Standard input is no request port, for this reason.
    Handed(HandedFault),
    /// Out of memory.
    Memory,
    /// Serving failed.
    Loop(LoopFault),
    /// The request port of several servers was not bound at this address, for this reason.
    Bind(Endpoint, Reason),
    /// The program's own file, which the system names below `/proc`, was not found, for this reason.
    Program(Reason),
    /// A server of several could not be started, for this reason.
    Start(Reason),
    /// This server of several ended so.
    Server(u8, ExitStatus),
    /// The words for a server do not name its configuration.
    Words,
}

/// Why a status file cannot be where it is to be.
#[derive(Clone, Copy)]
pub(crate) enum StatusFault {
    /// It would be in the root or below it.
    InRoot,
    /// It or its temporary file would be the file that has the server drain.
    Drain,
}

impl From<AllocError> for DaemonFault {
    fn from(_: AllocError) -> DaemonFault {
        DaemonFault::Memory
    }
}

/// Serves until the configured number of transfers has closed, or of waits is over, or until the
/// server has drained; of several servers it is the supervisor, and serves nothing itself.
pub(crate) fn serve<P: Print + ErrorLines + Clock + Supervise, N: ServerUdp + Eprint, D: Disk>(
    host: Host<'_, P, N, D>,
    config: &DaemonConfig<'_>,
    input: Input,
) -> (Result<(), DaemonFault>, Devices<N, D>)
    requires { IsConfig config.now.config }
    ensures status { daemon_status result.0 ≤ 2 }
    ensures runs { MayServe D.log (D.log host.entry.served) ⟦<FolderStore<D> as Store>⟧.meaning
        ⟦<FolderSource<D::View> as Source>⟧.meaning config.now (daemon_status result.0)
        (N.log host.entry.net) (N.log result.1.net) }
    ensures reports { IfSome result.1.reporting.report
        (λ report. IsReportOf config.now report.status) }
    ensures several { MaySupervise P.supervised config.now (daemon_status result.0) }
{
    if let Err(fault) = check_status(&host.served, host.alloc, config) {
        return (Err(fault), host.into_devices());
    }
    if config.is_of_several() {
        return supervise_checked(host, config, input);
    }
    serve_alone(host, config, input)
}

/// Supervises several servers, and is left with what their supervisor does not use.
fn supervise_checked<P: Print + Eprint + Clock + Supervise, N: ServerUdp, D: Disk>(
    host: Host<'_, P, N, D>,
    config: &DaemonConfig<'_>,
    input: Input,
) -> (Result<(), DaemonFault>, Devices<N, D>)
    requires { IsConfig config.now.config }
    ensures supervised { OnOk result.0 (Supervised P.supervised config.now) }
    ensures log { N.log result.1.net ≡ N.log host.entry.net }
    ensures none { result.1.reporting.report ≡ None }
{
    let Host {
        rt,
        alloc,
        net,
        served,
        counts,
    } = host;
    let supervised = supervise_folder(rt, alloc, served, config, input);
    let reporting = Reporting::new(alloc, counts, None);
    (supervised, Devices { net, reporting })
}

/// Supervises several servers, if the folder can be served: else each of them would say so.
fn supervise_folder<P: Print + Eprint + Clock + Supervise, D: Disk>(
    rt: &P,
    alloc: Global,
    served: D,
    config: &DaemonConfig<'_>,
    input: Input,
) -> Result<(), DaemonFault>
    requires { IsConfig config.now.config }
    ensures { OnOk result (Supervised P.supervised config.now) }
{
    match open_server(served, alloc, config) {
        Ok(_) => supervise(rt, alloc, config, input),
        Err(fault) => Err(fault),
    }
}

/// Serves alone.
fn serve_alone<P, N: ServerUdp + Eprint, D: Disk>(
    host: Host<'_, P, N, D>,
    config: &DaemonConfig<'_>,
    input: Input,
) -> (Result<(), DaemonFault>, Devices<N, D>)
    requires valid { IsConfig config.now.config }
    requires alone { config.now.instance.servers ≤ 1 }
    requires at_one_address { config.now.others.items ≡ [] }
    ensures status { daemon_status result.0 ≤ 2 }
    ensures runs { MayServe D.log (D.log host.entry.served) ⟦<FolderStore<D> as Store>⟧.meaning
        ⟦<FolderSource<D::View> as Source>⟧.meaning config.now (daemon_status result.0)
        (N.log host.entry.net) (N.log result.1.net) }
    ensures reports { IfSome result.1.reporting.report
        (λ report. IsReportOf config.now report.status) }
{
    let Host {
        alloc,
        mut net,
        served,
        counts,
        ..
    } = host;
    match setup_of(&mut net, alloc, config, input) {
        Ok(setup) => serve_with(alloc, net, served, counts, config, setup),
        Err(fault) => {
            let reporting = Reporting::new(alloc, counts, None);
            (Err(fault), Devices { net, reporting })
        }
    }
}

/// Serves with the device that is made of this.
fn serve_with<N: ServerUdp + Eprint, D: Disk>(
    alloc: Global,
    net: N,
    served: D,
    counts: UnusedDisk<D>,
    config: &DaemonConfig<'_>,
    setup: DeviceSetup,
) -> (Result<(), DaemonFault>, Devices<N, D>)
    requires valid { IsConfig config.now.config }
    requires alone { config.now.instance.servers ≤ 1 }
    requires at_one_address { config.now.others.items ≡ [] }
    requires listens { ListensAt config.now.listen setup.port.at }
    requires file { IfSome setup.reports (λ settings. ReportsAt config.now settings.paths) }
    ensures status { daemon_status result.0 ≤ 2 }
    ensures runs { MayServe D.log (D.log served) ⟦<FolderStore<D> as Store>⟧.meaning
        ⟦<FolderSource<D::View> as Source>⟧.meaning config.now (daemon_status result.0)
        (N.log net) (N.log result.1.net) }
    ensures reports { IfSome result.1.reporting.report
        (λ report. IsReportOf config.now report.status) }
{
    let at = setup.port.endpoint();
    let mut device = ServerDevice::new(net, alloc, counts, setup);
    let result = serve_folder(&mut device, alloc, served, config, at);
    device.keeps_counts();
    (result, device.into_devices())
}

/// Serves the folder from the request port at this endpoint.
fn serve_folder<N: ServerUdp + Eprint, D: Disk>(
    device: &mut ServerDevice<N, D>,
    alloc: Global,
    served: D,
    config: &DaemonConfig<'_>,
    at: Endpoint,
) -> Result<(), DaemonFault>
    requires valid { IsConfig config.now.config }
    requires alone { config.now.instance.servers ≤ 1 }
    requires at_one_address { config.now.others.items ≡ [] }
    requires listens { ListensAt config.now.listen at }
    ensures status { daemon_status result ≤ 2 }
    ensures runs { MayServe D.log (D.log served) ⟦<FolderStore<D> as Store>⟧.meaning
        ⟦<FolderSource<D::View> as Source>⟧.meaning config.now (daemon_status result)
        (N.log device.old.net) (N.log device.new.net) }
    ensures file { option_map (λ report. report.status.file) device.new.reporting.report
        ≡ option_map (λ report. report.status.file) device.old.reporting.report }
{
    let service = config.service_at(at);
    let signal = DrainFile::new(served.view(), config.drain);
    match open_server(served, alloc, config) {
        Ok(server) => ended(tftp_loop::serve(device, alloc, server, &service, &signal)),
        Err(fault) => Err(fault),
    }
}

/// How serving ended, by the result of the loop.
fn ended(served: Result<(), LoopFault>) -> Result<(), DaemonFault>
    ensures same { daemon_status result ≡ daemon_status served }
    ensures most { daemon_status result ≤ 2 }
{
    match served {
        Ok(()) => Ok(()),
        Err(fault) => Err(DaemonFault::Loop(fault)),
    }
}
