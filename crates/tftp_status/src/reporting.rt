//! What a server reports, if it does.

ghost use Rattle.std.specs.Prelude.{◌≡◌, ◌∷◌, false, None, IfNone, IfSome, is_some, option_map};
ghost use Rattle.tftp_sockets.specs.Told.{and_told};
ghost use Rattle.tftp_status.specs.Datagrams.{with_receipt};
ghost use Rattle.tftp_status.specs.Schedule.{at_start, changed, changed_by, is_due};
ghost use Rattle.tftp_status.specs.StatusEvent.StatusEvent.{Moved};
ghost use Rattle.tftp_status.specs.StatusFile.{IsNewAt, KeepsCounts};
ghost use Rattle.tftp_status.specs.Told.{told_to};
ghost use Rattle.tftp_status.specs.Writing.{HandsText, WritesAt};

use crate::datagrams::Way;
use crate::report::{Report, ReportSettings};
use crate::unused_disk::UnusedDisk;
use std::alloc::Global;
use tftp_disk::Disk;
use tftp_lines::Reason;
use tftp_sockets::{Entry, OpenTransfer, Receipt};

/// What a server reports in a file, if it does. Each call but [`write`](Reporting::write) asks nothing
/// of the disk, and none does anything where nothing is reported.
#[derive(Drop)]
pub struct Reporting<D: Disk> {
    report: Option<Report<D>>,
}

impl<D: Disk> Reporting<D> {
    /// The reports with these settings, on this disk; without settings nothing is reported.
    pub fn new(alloc: Global, disk: UnusedDisk<D>, settings: Option<ReportSettings>) -> Reporting<D>
        ensures begun { is_some result.report ≡ is_some settings }
        ensures none { IfNone settings (result.report ≡ None) }
        ensures file { IfSome settings (λ settings. IfSome result.report
            (λ report. IsNewAt settings.paths report.status)) }
        ensures server { IfSome settings (λ settings. IfSome result.report
            (λ report. report.server ≡ settings.server)) }
        ensures due { IfSome result.report (λ report. report.schedule ≡ at_start) }
    {
        match settings {
            Some(settings) => Reporting {
                report: Some(Report::new(alloc, disk, settings)),
            },
            None => Reporting { report: None },
        }
    }

    /// What is kept of the reports (`KeepsCounts`), whatever was noted and the system answered. It does
    /// nothing.
    pub fn keeps_counts(&self)
        ensures { IfSome self.now.report (λ report. KeepsCounts report.status) }
    {
        if let Some(report) = &self.report {
            report.keeps_counts();
        }
    }

    /// Whether something is reported.
    pub fn is_on(&self) -> bool
        ensures { result ≡ is_some self.now.report }
    {
        self.report.is_some()
    }

    /// Counts what happened at the server.
    pub fn count(&mut self, entry: Entry)
        ensures told { told_to (option_map (λ report. report.status) self.new.report)
            ≡ and_told entry (told_to (option_map (λ report. report.status) self.old.report)) }
        ensures file { option_map (λ report. report.status.file) self.new.report
            ≡ option_map (λ report. report.status.file) self.old.report }
        ensures server { option_map (λ report. report.server) self.new.report
            ≡ option_map (λ report. report.server) self.old.report }
        ensures due { option_map (λ report. report.schedule) self.new.report
            ≡ option_map (λ report. changed report.schedule) self.old.report }
    {
        if let Some(report) = &mut self.report {
            report.add(entry);
        }
    }

    /// Counts a datagram.
    pub fn count_datagram(&mut self, way: Way)
        ensures events { option_map (λ report. report.status.events) self.new.report
            ≡ option_map (λ report. Moved way ∷ report.status.events) self.old.report }
        ensures told { told_to (option_map (λ report. report.status) self.new.report)
            ≡ told_to (option_map (λ report. report.status) self.old.report) }
        ensures file { option_map (λ report. report.status.file) self.new.report
            ≡ option_map (λ report. report.status.file) self.old.report }
        ensures server { option_map (λ report. report.server) self.new.report
            ≡ option_map (λ report. report.server) self.old.report }
        ensures due { option_map (λ report. report.schedule) self.new.report
            ≡ option_map (λ report. changed report.schedule) self.old.report }
    {
        if let Some(report) = &mut self.report {
            report.add_datagram(way);
        }
    }

    /// Counts a datagram that was received, if one was.
    pub fn count_receipt(&mut self, receipt: Receipt)
        ensures events { option_map (λ report. report.status.events) self.new.report
            ≡ option_map (λ report. with_receipt receipt report.status.events) self.old.report }
        ensures told { told_to (option_map (λ report. report.status) self.new.report)
            ≡ told_to (option_map (λ report. report.status) self.old.report) }
        ensures file { option_map (λ report. report.status.file) self.new.report
            ≡ option_map (λ report. report.status.file) self.old.report }
        ensures server { option_map (λ report. report.server) self.new.report
            ≡ option_map (λ report. report.server) self.old.report }
        ensures due { option_map (λ report. report.schedule) self.new.report
            ≡ option_map (λ report. changed_by receipt report.schedule) self.old.report }
    {
        if let Receipt::Datagram(..) = receipt {
            self.count_datagram(Way::Received);
        }
    }

    /// Whether a report is due at this time of the watch, in milliseconds.
    pub fn is_due(&self, now: u64) -> bool
        ensures some { IfSome self.now.report (λ report. result ≡ is_due now report.schedule) }
        ensures none { IfNone self.now.report (result ≡ false) }
    {
        match &self.report {
            Some(report) => report.is_due(now),
            None => false,
        }
    }

    /// Adds an open transfer to the report that is due.
    pub fn add_open(&mut self, transfer: OpenTransfer<'_>)
        ensures told { told_to (option_map (λ report. report.status) self.new.report)
            ≡ told_to (option_map (λ report. report.status) self.old.report) }
        ensures file { option_map (λ report. report.status.file) self.new.report
            ≡ option_map (λ report. report.status.file) self.old.report }
        ensures server { option_map (λ report. report.server) self.new.report
            ≡ option_map (λ report. report.server) self.old.report }
        ensures due { option_map (λ report. report.schedule) self.new.report
            ≡ option_map (λ report. report.schedule) self.old.report }
    {
        if let Some(report) = &mut self.report {
            report.add_open(transfer);
        }
    }

    /// Writes the file, if something has changed or it is a minute old, at this time of the watch in
    /// milliseconds, which is this one in seconds since 1970 began in UTC. Returns the reason of the
    /// first time that it cannot be written.
    pub fn write(&mut self, now: u64, time: u64) -> Option<Reason>
        ensures told { told_to (option_map (λ report. report.status) self.new.report)
            ≡ told_to (option_map (λ report. report.status) self.old.report) }
        ensures file { option_map (λ report. report.status.file) self.new.report
            ≡ option_map (λ report. report.status.file) self.old.report }
        ensures server { option_map (λ report. report.server) self.new.report
            ≡ option_map (λ report. report.server) self.old.report }
        ensures due { IfSome self.old.report (λ old. IfSome self.new.report (λ new.
            WritesAt now old.schedule new.schedule (new.status ≡ old.status)
            (HandsText time old.server old.lines old.status new.status) result)) }
        ensures none { IfNone self.old.report (result ≡ None) }
    {
        match &mut self.report {
            Some(report) => report.write(now, time),
            None => None,
        }
    }
}
