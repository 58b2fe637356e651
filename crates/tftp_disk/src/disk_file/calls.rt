//! **Trusted by reading**: the calls on an open file, with notes in its own trace.
//!
//! Review alone shows that a note is true: the files of std have no model. Each call has one note,
//! behind it: what was passed to the system, and what it returned.

ghost use Rattle.std.specs.Prelude.{◌≡◌, ◌∷◌, None};
ghost use Rattle.std.specs.Io.{ReadsAtMost, WritesAtMost};
ghost use Rattle.std.specs.Io.KnownBytes.{Keeps, ReadConsumes};
ghost use Rattle.std.specs.Io.Seek.{SeekMoves};
ghost use Rattle.tftp_disk.specs.Calls.{read_event, write_event};
ghost use Rattle.tftp_disk.specs.DiskTrace.DiskEvent.{Examined, Mode_set, Sought, Synced};

use super::{DiskFile, DiskFolder};
use crate::disk_event_ref::DiskEventRef;
use crate::found::{Found, found_of};
use std::fs::{OpenFile, Permissions};
use std::io::{self, Read, Seek, SeekFrom, Write};
use std::os::unix::fs::PermissionsExt;

impl<F: OpenFile> DiskFile<F> {
    /// Looks at the file.
    pub fn examine(&mut self) -> io::Result<Found>
        ensures { self.new.trace.events ≡ Examined result ∷ self.old.trace.events }
    {
        let answer = found_of(self.file.metadata());
        self.trace.note(&DiskEventRef::Examined(answer));
        answer
    }

    /// Syncs the bytes of the file, and what is needed to read them.
    pub fn sync_data(&mut self) -> io::Result<()>
        ensures { self.new.trace.events ≡ Synced result ∷ self.old.trace.events }
    {
        let answer = self.file.sync_data();
        self.trace.note(&DiskEventRef::Synced(answer));
        answer
    }

    /// Syncs the file.
    pub fn sync_all(&mut self) -> io::Result<()>
        ensures { self.new.trace.events ≡ Synced result ∷ self.old.trace.events }
    {
        let answer = self.file.sync_all();
        self.trace.note(&DiskEventRef::Synced(answer));
        answer
    }

    /// Sets the permissions of the file.
    pub fn set_mode(&mut self, mode: u32) -> io::Result<()>
        ensures { self.new.trace.events ≡ Mode_set mode result ∷ self.old.trace.events }
    {
        let answer = self.file.set_permissions(Permissions::from_mode(mode));
        self.trace.note(&DiskEventRef::ModeSet(mode, answer));
        answer
    }
}

impl<F: Write> DiskFile<F> {
    /// Writes some bytes at the end of what was written, and returns how many.
    pub fn write(&mut self, bytes: &[u8]) -> io::Result<usize>
        ensures bound { WritesAtMost result bytes.now }
        ensures noted { self.new.trace.events ≡ write_event result bytes.now
            ∷ self.old.trace.events }
    {
        let answer = self.file.write(bytes);
        self.trace.note(&DiskEventRef::Wrote(bytes, answer));
        answer
    }
}

impl<F: Read> Read for DiskFile<F> {
    fn read(&mut self, buffer: &mut [u8]) -> io::Result<usize>
        ensures bound { ReadsAtMost result buffer.new }
        ensures bytes { ReadConsumes None None result buffer.new }
        ensures noted { self.new.trace.events ≡ read_event result buffer.new
            ∷ self.old.trace.events }
    {
        let answer = self.file.read(buffer);
        self.trace.note(&DiskEventRef::Read(buffer, answer));
        answer
    }
}

impl<F: Seek> Seek for DiskFile<F> {
    fn seek(&mut self, to: SeekFrom) -> io::Result<u64>
        ensures moves { SeekMoves None None None to result }
        ensures bytes { Keeps None None }
        ensures noted { self.new.trace.events ≡ Sought to result ∷ self.old.trace.events }
    {
        let answer = self.file.seek(to);
        self.trace.note(&DiskEventRef::Sought(to, answer));
        answer
    }
}

impl<F: OpenFile> DiskFolder<F> {
    /// Syncs the folder. Its disk notes it.
    pub(crate) fn sync(&self) -> io::Result<()> {
        self.file.sync_all()
    }
}
