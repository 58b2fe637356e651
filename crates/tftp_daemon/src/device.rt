//! The device of a server: its sockets, its request port, its lines, and what it reports.

ghost use Rattle.std.specs.Prelude.{◌≡◌, IfSome, is_some};
ghost use Rattle.tftp_status.specs.Schedule.{at_start};
ghost use Rattle.tftp_status.specs.StatusFile.{IsNewAt, KeepsCounts};

use crate::host::Devices;
use crate::setup::DeviceSetup;
use rand::rngs::StdRng;
use std::alloc::Global;
use std::fmt::Display;
use std::io;
use std::net::UdpSocket;
use tftp_disk::Disk;
use tftp_ends::Endpoint;
use tftp_lines::{Printed, Reason};
use tftp_service::{LineStamp, RequestPort};
use tftp_sockets::{
    DrainSignal, Entry, Load, OpenTransfer, PortPoll, Receipt, Reports, ServerSocket, ServerUdp,
    Udp, Watch,
};
use tftp_status::{Reporting, UnusedDisk, Way};

/// The device of a server, as its configuration has it. Its trace is that of the device that it wraps.
#[derive(Drop)]
pub(crate) struct ServerDevice<N, D: Disk> {
    net: N,
    alloc: Global,
    port: RequestPort,
    stamp: LineStamp,
    reporting: Reporting<D>,
}

impl<N, D: Disk> ServerDevice<N, D> {
    /// The device over this one, with its reports on this disk.
    pub(crate) fn new(
        net: N,
        alloc: Global,
        counts: UnusedDisk<D>,
        setup: DeviceSetup,
    ) -> ServerDevice<N, D>
        ensures net { result.net ≡ net }
        ensures port { result.port ≡ setup.port }
        ensures stamp { result.stamp ≡ setup.stamp }
        ensures begun { is_some result.reporting.report ≡ is_some setup.reports }
        ensures file { IfSome setup.reports (λ settings. IfSome result.reporting.report
            (λ report. IsNewAt settings.paths report.status)) }
        ensures server { IfSome setup.reports (λ settings. IfSome result.reporting.report
            (λ report. report.server ≡ settings.server)) }
        ensures due { IfSome result.reporting.report (λ report. report.schedule ≡ at_start) }
    {
        ServerDevice {
            net,
            alloc,
            port: setup.port,
            stamp: setup.stamp,
            reporting: Reporting::new(alloc, counts, setup.reports),
        }
    }

    /// What is left of it.
    pub(crate) fn into_devices(self) -> Devices<N, D>
        ensures net { result.net ≡ self.net }
        ensures reporting { result.reporting ≡ self.reporting }
    {
        Devices {
            net: self.net,
            reporting: self.reporting,
        }
    }

    /// What is kept of its reports (`KeepsCounts`). It does nothing.
    pub(crate) fn keeps_counts(&self)
        ensures { IfSome self.now.reporting.report (λ report. KeepsCounts report.status) }
    {
        self.reporting.keeps_counts();
    }
}

impl<N: ServerUdp, D: Disk> Udp for ServerDevice<N, D> {
    ghost use Rattle.std.specs.Prelude.{option_map};

    ghost log = { λ device. N.log device.net };

    ghost file = { λ device. option_map (λ report. report.status.file) device.reporting.report };

    fn start_watch(&self) -> Watch {
        self.net.start_watch()
    }

    fn elapsed(&mut self, port: u16, time: u64) {
        self.net.elapsed(port, time)
    }
}

impl<N: ServerUdp + Eprint, D: Disk> ServerUdp for ServerDevice<N, D> {
    ghost use Rattle.std.specs.Prelude.{option_map};
    ghost use Rattle.tftp_status.specs.Told.{told_to};

    ghost told = { λ device.
        told_to (option_map (λ report. report.status) device.reporting.report) };

    /// The request port is the socket that was handed over, if that is bound to the endpoint.
    fn bind(&self, at: Endpoint) -> io::Result<ServerSocket> {
        self.port.bind(&self.net, at)
    }

    fn adopt(&self, handed: &UdpSocket, at: Endpoint) -> io::Result<ServerSocket> {
        self.net.adopt(handed, at)
    }

    fn bind_noted(&mut self, at: Endpoint) -> io::Result<ServerSocket> {
        self.net.bind_noted(at)
    }

    fn receive(&mut self, socket: &ServerSocket, buffer: &mut [u8]) -> Receipt {
        let receipt = self.net.receive(socket, buffer);
        self.reporting.count_receipt(receipt);
        receipt
    }

    fn receive_request(
        &mut self,
        requests: &ServerSocket,
        load: Load,
        buffer: &mut [u8],
    ) -> Receipt {
        let receipt = self.port.receive(&mut self.net, requests, load, buffer);
        self.reporting.count_receipt(receipt);
        receipt
    }

    fn first_sender(&self, socket: &ServerSocket) -> Option<Endpoint> {
        self.net.first_sender(socket)
    }

    fn leave(&mut self, requests: &ServerSocket, load: Load) -> Receipt {
        self.net.leave(requests, load)
    }

    fn send(&mut self, socket: &ServerSocket, peer: Endpoint, bytes: &[u8]) -> Result<(), Reason> {
        let sent = self.net.send(socket, peer, bytes);
        if sent.is_ok() {
            self.reporting.count_datagram(Way::Sent);
        }
        sent
    }

    fn poll(&self) -> io::Result<PortPoll> {
        self.net.poll()
    }

    fn polls(&self) -> u32 {
        self.port.polls(&self.net)
    }

    fn wait(&mut self, poll: &mut PortPoll, reports: &mut Reports, millis: u64, polls: u32) {
        self.net.wait(poll, reports, millis, polls)
    }

    fn poll_now(&self, poll: &mut PortPoll, reports: &mut Reports) -> bool {
        self.net.poll_now(poll, reports)
    }

    fn note_poll(&mut self, reports: &mut Reports) {
        self.net.note_poll(reports)
    }

    fn read_watch_within(&mut self, watch: &mut Watch, limit: u64) -> u64 {
        self.net.read_watch_within(watch, limit)
    }

    fn micros(&self) -> Option<u64> {
        self.net.micros()
    }

    fn utc_millis(&self) -> Option<u64> {
        self.net.utc_millis()
    }

    fn out_of_memory(&mut self) {
        self.net.out_of_memory()
    }

    fn print_line(&mut self, line: Printed) -> io::Result<()> {
        self.net.print_line(line)
    }

    fn watch_reader(&mut self, alloc: Global) -> io::Result<()> {
        self.net.watch_reader(alloc)
    }

    fn has_no_reader(&mut self) -> bool {
        self.net.has_no_reader()
    }

    fn is_signalled<G: DrainSignal>(&mut self, signal: &G) -> bool {
        self.net.is_signalled(signal)
    }

    fn rng(&self) -> io::Result<StdRng> {
        self.net.rng()
    }

    fn is_counted(&self) -> bool {
        self.reporting.is_on()
    }

    fn count(&mut self, entry: Entry) {
        self.reporting.count(entry)
    }

    fn is_report_due(&self, now: u64) -> bool {
        self.reporting.is_due(now)
    }

    fn report_open(&mut self, transfer: OpenTransfer<'_>) {
        self.reporting.add_open(transfer)
    }

    /// The first time that the file cannot be written is said.
    fn end_report(&mut self, now: u64) {
        let time = self.net.utc_millis().unwrap_or(0) / 1_000;
        if let Some(reason) = self.reporting.write(now, time) {
            let _ = eprintln!(self; "tftpd: --status: {reason}");
        }
    }
}

impl<N: ServerUdp + Eprint, D: Disk> Eprint for ServerDevice<N, D> {
    fn eprint<T: Display + Drop>(&self, value: T) -> io::Result<()> {
        self.net.eprint(value)
    }

    /// Writes a line with its time and with which server it is of, if lines have them.
    fn eprintln<T: Display + Drop>(&self, value: T) -> io::Result<()> {
        if self.stamp.is_empty() {
            return self.net.eprintln(value);
        }
        match format!(in self.alloc; "{value}") {
            Ok(words) => {
                let millis = self.net.utc_millis();
                self.net.eprintln(self.stamp.line(words.as_str(), millis))
            }
            Err(error) => Err(io::Error::from(error)),
        }
    }
}
