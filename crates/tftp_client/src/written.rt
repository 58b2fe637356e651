//! The open file of a fetch.

ghost use Rattle.std.specs.Prelude.{◌≡◌, ◌++◌, [], None, true, false, OnOk, OnErr};
ghost use Rattle.tftp_disk.specs.DiskTrace.{made_at, made_when, written, is_synced, sync_failed};
ghost use Rattle.tftp_disk.specs.DiskTrace.{modes_asked, state_of};
ghost use Rattle.tftp_disk.specs.DiskWriter.{calls_of, handed, IsRefused};
ghost use Rattle.std.specs.List.{AllByRecursion};
ghost use Rattle.tftp_client.specs.Fetched.{ArePermissions};

use std::fs::OpenFile;
use std::io::{self, Write};
use tftp_disk::{DiskFile, DiskWriter, Found};

/// The number of unsynced bytes at which the file is synced.
const MOST_UNSYNCED: u64 = 4 << 20;

/// The permissions that a file gets from the one that it replaces. Bytes from a network get no
/// set-user-ID, set-group-ID or sticky bit.
const PERMISSIONS: u32 = 0o777;

/// The bits of a mode that are no kind of file.
const ALL_BITS: u32 = 0o7777;

/// The open file of a fetch. It buffers what is appended.
#[derive(Drop)]
pub(crate) struct Written<F> {
    writer: DiskWriter<F>,
    /// The number of bytes that were appended since the last sync.
    unsynced: u64,
    /// The error of a sync, after which no commit succeeds: the system reports it once.
    sync_error: Option<io::Error>,
    ghost sound: { sync_error ≡ None → sync_failed writer.file.trace.events ≡ false },
    ghost plain: { ∥ AllByRecursion ArePermissions (modes_asked writer.file.trace.events) ∥₁ },
}

impl<F: Write> Written<F> {
    ghost use Rattle.tftp_client.specs.Written.{IsWrittenOut, SameFile};

    /// A file with nothing written. The buffer's bytes are lost.
    pub(crate) fn new(file: DiskFile<F>, buffer: Vec<u8>) -> Written<F>
        requires sound { sync_failed file.trace.events ≡ false }
        requires plain { modes_asked file.trace.events ≡ [] }
        ensures file { result.writer.file ≡ file }
        ensures empty { result.writer.buffer.items ≡ [] }
    {
        Written {
            writer: DiskWriter::new(file, buffer),
            unsynced: 0,
            sync_error: None,
        }
    }

    /// Appends a block, which is buffered.
    pub(crate) fn append(&mut self, bytes: &[u8]) -> io::Result<()>
        ensures ok { OnOk result (handed self.new.writer ≡ handed self.old.writer ++ bytes.now) }
        ensures err { OnErr result (handed self.new.writer ≡ handed self.old.writer) }
        ensures place { made_at (calls_of self.new.writer) ≡ made_at (calls_of self.old.writer) }
        ensures making { made_when (calls_of self.new.writer)
            ≡ made_when (calls_of self.old.writer) }
    {
        match self.writer.append(bytes) {
            Ok(()) => {
                self.unsynced = self.unsynced.saturating_add(bytes.len() as u64);
                Ok(())
            }
            Err(error) => Err(error),
        }
    }

    /// Writes the buffer. After a failure the bytes that were not written stay in it.
    fn flush(&mut self) -> io::Result<()>
        ensures same { SameFile self.old self.new }
        ensures empty { OnOk result (self.new.writer.buffer.items ≡ []) }
        ensures refused { OnErr result (IsRefused (calls_of self.new.writer)) }
        ensures error { self.new.sync_error ≡ self.old.sync_error }
    {
        self.writer.flush()
    }

    /// Writes the buffer, and syncs nothing. A write that fails is not tried again.
    pub(crate) fn write_out(&mut self)
        ensures same { SameFile self.old self.new }
        ensures written { IsWrittenOut self.new }
    {
        let _ = self.flush();
    }
}

impl<F: Write + OpenFile> Written<F> {
    ghost use Rattle.tftp_client.specs.Written.{LeavesContent, SameFile, TakesMode};

    /// Writes the buffer if it is due, and syncs the file every few megabytes. After a failed write
    /// the bytes stay in the buffer, and a later call tries again.
    pub(crate) fn write_behind(&mut self)
        ensures same { SameFile self.old self.new }
    {
        if self.writer.is_due() && self.flush().is_ok() && self.unsynced >= MOST_UNSYNCED {
            self.sync();
        }
    }

    /// Syncs what is written.
    fn sync(&mut self)
        ensures same { SameFile self.old self.new }
    {
        self.unsynced = 0;
        if let Err(error) = self.writer.sync_data() {
            self.sync_error = Some(error);
        }
    }

    /// Writes and syncs all that was appended, unless a sync has failed.
    pub(crate) fn finish(&mut self) -> io::Result<()>
        ensures same { SameFile self.old self.new }
        ensures whole { OnOk result (written (calls_of self.new.writer)
            ≡ handed self.old.writer) }
        ensures synced { OnOk result (is_synced (calls_of self.new.writer) ≡ true) }
        ensures sound { OnOk result (sync_failed (calls_of self.new.writer) ≡ false) }
    {
        if let Err(error) = self.flush() {
            return Err(error);
        }
        if let Some(error) = self.sync_error {
            return Err(error);
        }
        match self.writer.sync_all() {
            Ok(()) => Ok(()),
            Err(error) => {
                self.sync_error = Some(error);
                Err(error)
            }
        }
    }

    /// Looks at the file.
    pub(crate) fn examine(&mut self) -> io::Result<Found>
        ensures state { state_of (calls_of self.new.writer) ≡ state_of (calls_of self.old.writer) }
        ensures buffer { self.new.writer.buffer ≡ self.old.writer.buffer }
    {
        self.writer.examine()
    }

    /// Gives the file the permissions of the one that it replaces, if it replaces one, unless it
    /// has these.
    pub(crate) fn keep_permissions(&mut self, replaced: Option<Found>) -> io::Result<()>
        ensures content { LeavesContent (state_of (calls_of self.old.writer))
            (state_of (calls_of self.new.writer)) }
        ensures modes { TakesMode replaced (modes_asked (calls_of self.old.writer))
            (modes_asked (calls_of self.new.writer)) }
        ensures buffer { self.new.writer.buffer ≡ self.old.writer.buffer }
    {
        let Some(replaced) = replaced else {
            return Ok(());
        };
        let wanted = replaced.mode & PERMISSIONS;
        match self.writer.examine() {
            Ok(found) => {
                if found.mode & ALL_BITS == wanted {
                    return Ok(());
                }
            }
            Err(error) => return Err(error),
        }
        self.writer.set_mode(wanted)
    }

    /// The open file.
    pub(crate) fn file(&self) -> &DiskFile<F>
        ensures { result.now ≡ self.now.writer.file }
    {
        self.writer.file()
    }
}
