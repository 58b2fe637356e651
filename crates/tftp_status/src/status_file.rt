//! A file that is written anew and renamed, with the counts of what was noted.

ghost use Rattle.std.specs.Prelude.{◌≡◌, ◌∷◌, ◌++◌, [], IfOk, OnErr, OnOk};
ghost use Rattle.tftp_disk.specs.DiskTrace.{written};
ghost use Rattle.tftp_disk.specs.DiskWriter.{calls_of};
ghost use Rattle.tftp_disk.specs.declared.found.Kind.TheVariants.{Regular};
ghost use Rattle.tftp_status.specs.StatusEvent.{told_in};
ghost use Rattle.tftp_status.specs.StatusEvent.StatusEvent.{Handed, Moved, Told};
ghost use Rattle.tftp_status.specs.StatusFile.{FoundReplaceable, IsNewAt, KeepsCounts, KeepsFiles};
ghost use Rattle.tftp_status.specs.StatusFile.{IsReplaceable, renamed_in};
ghost use Rattle.tftp_status.specs.StatusText.{status_text};

use crate::comments::Comments;
use crate::counts::Counts;
use crate::datagrams::{Datagrams, Way};
use crate::event_ref::EventRef;
use crate::status_paths::StatusPaths;
use crate::status_text::{Facts, StatusText};
use crate::trace::{StatusEvents, Trace};
use std::alloc::Global;
use std::io::{self, ErrorKind, Write};
use std::marker::Model;
use tftp_disk::{Disk, DiskFile, DiskWriter, Found, Kind};
use tftp_lines::{Reason, reason_of};
use tftp_sockets::Entry;

/// A file with the counts of what was noted. It is written to a temporary file beside it, which gets its
/// name: so nobody sees half of it. Only a regular file is replaced, or nothing.
///
/// Its model is what was noted and written, and what its disk was asked (`Status`).
#[derive(Drop)]
pub struct StatusFile<D: Disk> {
    disk: D,
    file: String,
    /// The path of the temporary file.
    draft: String,
    counts: Counts,
    datagrams: Datagrams,
    trace: Trace,
}

impl<D: Disk> Model for StatusFile<D> {
    ghost use Rattle.std.specs.String.{string_bytes};
    ghost use Rattle.tftp_status.specs.StatusFile.{KeepsCounts, Status};

    ghost Value = { Status };

    ghost view = { λ s. record {
      file = string_bytes s.file;
      draft = string_bytes s.draft;
      counts = s.counts;
      datagrams = s.datagrams;
      events = s.trace.events;
      log = D.log s.disk;
    } };

    ghost invariant = { λ s. KeepsCounts (record {
      file = string_bytes s.file;
      draft = string_bytes s.draft;
      counts = s.counts;
      datagrams = s.datagrams;
      events = s.trace.events;
      log = D.log s.disk;
    }) };
}

impl<D: Disk> StatusFile<D> {
    /// A status file at this path, of which nothing is written yet. Of the disk nothing was asked.
    pub fn new(disk: D, paths: StatusPaths) -> StatusFile<D>
        requires { D.log disk ≡ [] }
        ensures { IsNewAt paths result }
    {
        let StatusPaths { file, draft } = paths;
        StatusFile {
            disk,
            file,
            draft,
            counts: Counts::new(),
            datagrams: Datagrams::new(),
            trace: Trace::new(&StatusEvents),
        }
    }

    /// Counts an entry.
    pub fn add(&mut self, entry: Entry)
        ensures events { self.new.events ≡ Told entry ∷ self.old.events }
        ensures file { self.new.file ≡ self.old.file }
        ensures keeps { KeepsCounts self.new }
    {
        self.counts.add(entry);
        self.trace.note(&EventRef::Told(entry));
    }

    /// Counts a datagram.
    pub fn add_datagram(&mut self, way: Way)
        ensures events { self.new.events ≡ Moved way ∷ self.old.events }
        ensures file { self.new.file ≡ self.old.file }
        ensures keeps { KeepsCounts self.new }
    {
        self.datagrams.add(way);
        self.trace.note(&EventRef::Moved(way));
    }

    /// The counts by now.
    pub fn counts(&self) -> Counts
        ensures counts { result ≡ self.now.counts }
        ensures keeps { KeepsCounts self.now }
    {
        self.counts
    }

    /// Writes what was counted, these facts and these lines to the temporary file, and has it replace
    /// the file. It fails with the reason of the system, out of memory, or with `NotAFile` if what is
    /// there is neither a regular file nor nothing.
    pub fn write(&mut self, alloc: Global, facts: Facts<'_>, lines: &Comments) -> Result<(), Reason>
        ensures told { told_in self.new.events ≡ told_in self.old.events }
        ensures file { self.new.file ≡ self.old.file }
        ensures ok { OnOk result (self.new.events
            ≡ Handed (status_text self.old.counts self.old.datagrams facts.entry lines.now)
            ∷ self.old.events) }
        ensures err { OnErr result (self.new.events ≡ self.old.events) }
        ensures keeps { KeepsCounts self.new }
    {
        let status = StatusText {
            counts: self.counts,
            datagrams: self.datagrams,
            facts,
            lines: lines.as_str(),
        };
        let text = match format!(in alloc; "{status}") {
            Ok(text) => text,
            Err(_) => return Err(Reason::OutOfMemory),
        };
        let (file, draft) = (self.file.as_str(), self.draft.as_str());
        match hand(&mut self.disk, alloc, file, draft, text.as_str()) {
            Ok(()) => {
                self.trace.note(&EventRef::Handed(text.as_str()));
                Ok(())
            }
            Err(reason) => Err(reason),
        }
    }
}

/// Makes the temporary file anew with this text, and exchanges its name for that of the file. One
/// that was left there is removed.
fn hand<D: Disk>(
    disk: &mut D,
    alloc: Global,
    file: &str,
    draft: &str,
    text: &str,
) -> Result<(), Reason>
    ensures keeps { KeepsFiles file.now draft.now (D.log disk.old) (D.log disk.new) }
    ensures ok { OnOk result (renamed_in (D.log disk.new)
        ≡ text.now ∷ renamed_in (D.log disk.old)) }
    ensures err { OnErr result (renamed_in (D.log disk.new) ≡ renamed_in (D.log disk.old)) }
{
    match may_replace(disk.look(draft)) {
        Ok(()) => {
            let _ = disk.remove(draft);
            hand_anew(disk, alloc, file, draft, text)
        }
        Err(reason) => Err(reason),
    }
}

/// As [`hand`], where no temporary file is.
fn hand_anew<D: Disk>(
    disk: &mut D,
    alloc: Global,
    file: &str,
    draft: &str,
    text: &str,
) -> Result<(), Reason>
    ensures keeps { KeepsFiles file.now draft.now (D.log disk.old) (D.log disk.new) }
    ensures ok { OnOk result (renamed_in (D.log disk.new)
        ≡ text.now ∷ renamed_in (D.log disk.old)) }
    ensures err { OnErr result (renamed_in (D.log disk.new) ≡ renamed_in (D.log disk.old)) }
{
    match may_replace(disk.look(file)) {
        Ok(()) => match disk.make(draft) {
            Ok(made) => hand_made(disk, alloc, file, draft, text, made),
            Err(error) => Err(reason_of(&error)),
        },
        Err(reason) => Err(reason),
    }
}

/// Whether what a look at a path found may be replaced: a regular file, or nothing.
fn may_replace(answer: io::Result<Found>) -> Result<(), Reason>
    ensures { OnOk result (IsReplaceable answer) }
{
    match answer {
        Ok(found) => may_replace_found(found),
        Err(error) => {
            if error.kind() == ErrorKind::NotFound {
                return Ok(());
            }
            Err(reason_of(&error))
        }
    }
}

/// Whether what was found may be replaced: a regular file.
fn may_replace_found(found: Found) -> Result<(), Reason>
    ensures { OnOk result (found.kind ≡ Regular) }
{
    match found.kind {
        Kind::Regular => Ok(()),
        Kind::Folder | Kind::Link | Kind::Special => Err(Reason::NotAFile),
    }
}

/// Writes this text to the temporary file, which was made, and exchanges its name.
fn hand_made<D: Disk>(
    disk: &mut D,
    alloc: Global,
    file: &str,
    draft: &str,
    text: &str,
    made: DiskFile<D::File>,
) -> Result<(), Reason>
    requires found { FoundReplaceable file.now (D.log disk.old) }
    requires empty { written made.trace.events ≡ [] }
    ensures keeps { KeepsFiles file.now draft.now (D.log disk.old) (D.log disk.new) }
    ensures ok { OnOk result (renamed_in (D.log disk.new)
        ≡ text.now ∷ renamed_in (D.log disk.old)) }
    ensures err { OnErr result (renamed_in (D.log disk.new) ≡ renamed_in (D.log disk.old)) }
{
    match write_text(alloc, made, text) {
        Ok(writer) => match disk.rename(writer.file(), draft, file) {
            Ok(()) => Ok(()),
            Err(error) => Err(reason_of(&error)),
        },
        Err(error) => Err(reason_of(&error)),
    }
}

/// Writes a text to an open file.
fn write_text<F: Write + Drop>(
    alloc: Global,
    file: DiskFile<F>,
    text: &str,
) -> io::Result<DiskWriter<F>>
    ensures { IfOk result (λ writer. written (calls_of writer)
        ≡ written file.trace.events ++ text.now) }
{
    let mut writer = DiskWriter::new(file, Vec::new(alloc));
    if let Err(error) = writer.append(text.as_bytes()) {
        return Err(error);
    }
    match writer.flush() {
        Ok(()) => Ok(writer),
        Err(error) => Err(error),
    }
}
