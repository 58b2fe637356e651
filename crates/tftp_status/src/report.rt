//! When a server's status file is written, and with what.

ghost use Rattle.std.specs.Prelude.{◌≡◌, ◌∷◌, OnOk};
ghost use Rattle.tftp_status.specs.Schedule.{at_start, changed, is_due, waiting_at};
ghost use Rattle.tftp_status.specs.StatusEvent.{told_in};
ghost use Rattle.tftp_status.specs.StatusEvent.StatusEvent.{Moved, Told};
ghost use Rattle.tftp_status.specs.StatusFile.{IsNewAt, KeepsCounts};
ghost use Rattle.tftp_status.specs.Writing.{HandsText, WritesAt};

use crate::comments::Comments;
use crate::datagrams::Way;
use crate::schedule::Schedule;
use crate::server_facts::ServerFacts;
use crate::status_file::StatusFile;
use crate::status_paths::StatusPaths;
use crate::unused_disk::UnusedDisk;
use std::alloc::Global;
use tftp_disk::Disk;
use tftp_lines::Reason;
use tftp_sockets::{Entry, OpenTransfer};

/// The file of a server's reports, and what they say beside its counts.
#[derive(Drop)]
pub struct ReportSettings {
    /// The paths of the file and of its temporary file.
    pub paths: StatusPaths,
    /// What they say of the server.
    pub server: ServerFacts,
}

/// The reports of a server.
#[derive(Drop)]
pub(crate) struct Report<D: Disk> {
    status: StatusFile<D>,
    alloc: Global,
    server: ServerFacts,
    /// The lines of the open transfers, of the report that is being made.
    lines: Comments,
    schedule: Schedule,
}

impl<D: Disk> Report<D> {
    /// The reports of a server that has done nothing yet. The first is due at once.
    pub(crate) fn new(alloc: Global, disk: UnusedDisk<D>, settings: ReportSettings) -> Report<D>
        ensures file { IsNewAt settings.paths result.status }
        ensures server { result.server ≡ settings.server }
        ensures due { result.schedule ≡ at_start }
    {
        Report {
            status: StatusFile::new(disk.into_disk(), settings.paths),
            alloc,
            server: settings.server,
            lines: Comments::new(alloc),
            schedule: Schedule::new(),
        }
    }

    /// Counts an entry.
    pub(crate) fn add(&mut self, entry: Entry)
        ensures events { self.new.status.events ≡ Told entry ∷ self.old.status.events }
        ensures file { self.new.status.file ≡ self.old.status.file }
        ensures server { self.new.server ≡ self.old.server }
        ensures due { self.new.schedule ≡ changed self.old.schedule }
    {
        self.status.add(entry);
        self.schedule.change();
    }

    /// Counts a datagram.
    pub(crate) fn add_datagram(&mut self, way: Way)
        ensures events { self.new.status.events ≡ Moved way ∷ self.old.status.events }
        ensures file { self.new.status.file ≡ self.old.status.file }
        ensures server { self.new.server ≡ self.old.server }
        ensures due { self.new.schedule ≡ changed self.old.schedule }
    {
        self.status.add_datagram(way);
        self.schedule.change();
    }

    /// What its file keeps. It does nothing.
    pub(crate) fn keeps_counts(&self)
        ensures { KeepsCounts self.now.status }
    {
        let _ = self.status.counts();
    }

    /// Whether a text is to be written at this time.
    pub(crate) fn is_due(&self, now: u64) -> bool
        ensures { result ≡ is_due now self.now.schedule }
    {
        self.schedule.is_due(now)
    }

    /// Adds the line of an open transfer. Out of memory it is left out.
    pub(crate) fn add_open(&mut self, transfer: OpenTransfer<'_>)
        ensures status { self.new.status ≡ self.old.status }
        ensures server { self.new.server ≡ self.old.server }
        ensures due { self.new.schedule ≡ self.old.schedule }
    {
        self.lines.add(transfer);
    }

    /// Writes a text at this time of the watch in milliseconds, which is this one in seconds since 1970
    /// began in UTC, if the newest one lacks something or is too old, and begins the next. It returns
    /// the first failure alone: a later text is tried all the same.
    pub(crate) fn write(&mut self, now: u64, time: u64) -> Option<Reason>
        ensures told { told_in self.new.status.events ≡ told_in self.old.status.events }
        ensures file { self.new.status.file ≡ self.old.status.file }
        ensures server { self.new.server ≡ self.old.server }
        ensures due { WritesAt now self.old.schedule self.new.schedule
            (self.new.status ≡ self.old.status)
            (HandsText time self.old.server self.old.lines self.old.status self.new.status)
            result }
    {
        if !self.schedule.lacks(now) {
            self.begin_next(now);
            return None;
        }
        let written = self.write_text(time);
        let failure = self.schedule.first_failure(written);
        self.schedule.note_text(now, written);
        self.begin_next(now);
        failure
    }

    /// Writes a text.
    fn write_text(&mut self, time: u64) -> Result<(), Reason>
        ensures told { told_in self.new.status.events ≡ told_in self.old.status.events }
        ensures file { self.new.status.file ≡ self.old.status.file }
        ensures server { self.new.server ≡ self.old.server }
        ensures due { self.new.schedule ≡ self.old.schedule }
        ensures ok { OnOk result (HandsText time self.old.server self.old.lines
            self.old.status self.new.status) }
    {
        let facts = self.server.at(time);
        self.status.write(self.alloc, facts, &self.lines)
    }

    /// Begins the next text.
    fn begin_next(&mut self, now: u64)
        ensures status { self.new.status ≡ self.old.status }
        ensures server { self.new.server ≡ self.old.server }
        ensures due { self.new.schedule ≡ waiting_at now self.old.schedule }
    {
        self.lines.clear();
        self.schedule.wait(now);
    }
}
