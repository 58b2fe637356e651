//! What the device of a server is made of, once its command line is read.

ghost use Rattle.std.specs.Prelude.{◌≡◌, IfOk, IfSome, is_some};
ghost use Rattle.tftp_daemon.specs.Configured.{ListensAt, stamp_of};
ghost use Rattle.tftp_daemon.specs.Reports.{AreFactsOf, ReportsAt};

use crate::daemon::{DaemonConfig, DaemonFault, Instance};
use crate::listen::Listen;
use crate::status::report_settings;
use std::alloc::Global;
use std::io;
use tftp_lines::reason_of;
use tftp_loop::LoopFault;
use tftp_service::{HandedSocket, Input, LineStamp, RequestPort};
use tftp_sockets::ServerUdp;
use tftp_status::ReportSettings;

/// What the device of a server is made of, beside what it wraps.
#[derive(Drop)]
pub(crate) struct DeviceSetup {
    pub(crate) port: RequestPort,
    pub(crate) stamp: LineStamp,
    /// The settings of the reports; `None` for none.
    pub(crate) reports: Option<ReportSettings>,
}

/// What the device of a server is made of, as its configuration says.
pub(crate) fn setup_of<N: ServerUdp>(
    net: &mut N,
    alloc: Global,
    config: &DaemonConfig<'_>,
    input: Input,
) -> Result<DeviceSetup, DaemonFault>
    ensures log { N.log net.new ≡ N.log net.old }
    ensures listens { IfOk result (λ setup. ListensAt config.now.listen setup.port.at) }
    ensures stamp { IfOk result (λ setup. setup.stamp ≡ stamp_of config.now) }
    ensures begun { IfOk result (λ setup. is_some setup.reports ≡ is_some config.now.status) }
    ensures file { IfOk result (λ setup. IfSome setup.reports
        (λ settings. ReportsAt config.now settings.paths)) }
    ensures server { IfOk result (λ setup. IfSome setup.reports
        (λ settings. AreFactsOf config.now setup.port.at settings.server)) }
{
    let port = request_port(input, config)?;
    if let Err(error) = watch_supervisor(net, alloc, config) {
        return Err(DaemonFault::Loop(LoopFault::Socket(reason_of(&error))));
    }
    let reports = report_settings(net, alloc, config, port.endpoint())?;
    Ok(DeviceSetup {
        port,
        stamp: config.stamp(),
        reports,
    })
}

/// Has one of several servers end once nobody reads its standard output: its supervisor does.
fn watch_supervisor<N: ServerUdp>(
    net: &mut N,
    alloc: Global,
    config: &DaemonConfig<'_>,
) -> io::Result<()>
    ensures { N.log net.new ≡ N.log net.old }
{
    match config.instance.server {
        Some(_) => net.watch_reader(alloc),
        None => Ok(()),
    }
}

/// The request port. Standard input is closed again, unless requests arrive there.
fn request_port(input: Input, config: &DaemonConfig<'_>) -> Result<RequestPort, DaemonFault>
    ensures { IfOk result (λ port. ListensAt config.now.listen port.at) }
{
    match config.listen {
        Listen::At(at) => {
            drop(input);
            Ok(RequestPort::own(at))
        }
        Listen::Handed => match HandedSocket::new(input) {
            Ok(socket) => Ok(handed_port(socket, config.instance)),
            Err(fault) => Err(DaemonFault::Handed(fault)),
        },
    }
}

/// The request port of a server, alone or one of several, to which this socket was handed over.
fn handed_port(socket: HandedSocket, instance: Instance) -> RequestPort
    ensures at { result.at ≡ socket.endpoint }
    ensures shared { is_some result.share ≡ is_some instance.server }
{
    match instance.server {
        Some(_) => RequestPort::shared(socket),
        None => RequestPort::handed(socket),
    }
}
