//! A file that is being written to a folder.

ghost use Rattle.std.specs.Prelude.{ℕ, ◌≡◌, ◌≢◌, List, ◌++◌, [], Some, None, true, false, OnOk};
ghost use Rattle.std.specs.Prelude.{IfOk, OnErr};
ghost use Rattle.std.specs.String.{string_bytes};
ghost use Rattle.tftp_disk.specs.DiskTrace.{made_at, modes_asked, is_synced, sync_failed, state_of};
ghost use Rattle.tftp_disk.specs.DiskWriter.{calls_of, handed};
ghost use Rattle.tftp_folder.specs.Commit.{lock_of};
ghost use Rattle.tftp_folder.specs.Looked.{LooksFor, is_found};
ghost use Rattle.tftp_folder.specs.Inside.{IsInside, StaysInside};
ghost use Rattle.tftp_folder.specs.Leaves.{OnlyLooks};
ghost use Rattle.tftp_folder.specs.Modes.{are_permissions};

use crate::replacing::permissions_of;
use std::alloc::AllocError;
use std::fs::OpenFile;
use std::io::{self, Write};
use tftp_disk::{DiskFile, DiskWriter, FileId, Found, Looks};

/// The number of unsynced bytes from which on a draft is to be synced once no transfer waits: so
/// few that those that come meanwhile do not wait long.
const SYNC_AT: u64 = 1 << 20;

/// The number of unsynced bytes at which a draft is synced though others wait: its commit, for
/// which they wait too, would have more to sync.
const MOST_UNSYNCED: u64 = 16 << 20;

/// A file that is being written to a [`FolderStore`](crate::FolderStore).
///
/// It buffers appended bytes and writes them after a datagram. Each megabyte it may be synced, so
/// that the commit has little left to sync. After a failed write or sync, each append and commit
/// fails.
#[derive(Drop)]
pub struct FolderDraft<F> {
    writer: DiskWriter<F>,
    /// The port of the transfer.
    pub(crate) port: u16,
    /// The path of the draft.
    pub(crate) draft: String,
    /// The path of the file after the commit.
    pub(crate) target: String,
    /// The folder of that path, as the request found it.
    pub(crate) folder: FileId,
    /// The number of bytes appended since the last sync.
    unsynced: u64,
    /// The first failure, which each later call returns.
    failure: Option<io::Error>,
    ghost placed: { made_at writer.file.trace.events ≡ Some (string_bytes draft) },
    ghost sound: { failure ≡ None → sync_failed writer.file.trace.events ≡ false },
    ghost modes: { are_permissions (modes_asked writer.file.trace.events) ≡ true },
}

impl<F: Write> FolderDraft<F> {
    ghost use Rattle.tftp_folder.specs.Draft.{IsWrittenOut, SameNames};

    /// A draft with nothing written.
    pub(crate) fn new(
        writer: DiskWriter<F>,
        port: u16,
        draft: String,
        target: String,
        folder: FileId,
    ) -> FolderDraft<F>
        requires placed { made_at (calls_of writer) ≡ Some (string_bytes draft) }
        requires sound { sync_failed (calls_of writer) ≡ false }
        requires modes { modes_asked (calls_of writer) ≡ [] }
        ensures writer { result.writer ≡ writer }
        ensures draft { result.draft ≡ draft }
        ensures target { result.target ≡ target }
    {
        FolderDraft {
            writer,
            port,
            draft,
            target,
            folder,
            unsynced: 0,
            failure: None,
        }
    }

    /// Buffers bytes to be written.
    pub(crate) fn append(&mut self, bytes: &[u8]) -> io::Result<()>
        ensures ok { OnOk result (handed self.new.writer ≡ handed self.old.writer ++ bytes.now) }
        ensures err { OnErr result (handed self.new.writer ≡ handed self.old.writer) }
        ensures names { SameNames self.old self.new }
    {
        if let Some(error) = self.failure {
            return Err(error);
        }
        if let Err(error) = self.writer.append(bytes) {
            return Err(self.fail(error));
        }
        self.unsynced = self.unsynced.saturating_add(bytes.len() as u64);
        Ok(())
    }

    /// Keeps the failure.
    fn fail(&mut self, error: io::Error) -> io::Error
        ensures writer { self.new.writer ≡ self.old.writer }
        ensures failure { self.new.failure ≡ Some error }
        ensures names { SameNames self.old self.new }
    {
        self.failure = Some(error);
        error
    }

    /// Writes the buffered bytes.
    fn flush(&mut self) -> io::Result<()>
        ensures handed { handed self.new.writer ≡ handed self.old.writer }
        ensures empty { OnOk result (self.new.writer.buffer.items ≡ []) }
        ensures failure { OnOk result (self.new.failure ≡ None) }
        ensures failed { OnErr result (self.new.failure ≢ None) }
        ensures names { SameNames self.old self.new }
    {
        if let Some(error) = self.failure {
            return Err(error);
        }
        match self.writer.flush() {
            Ok(()) => Ok(()),
            Err(error) => Err(self.fail(error)),
        }
    }

    /// Writes the buffered bytes, unless an earlier call failed. It syncs nothing.
    pub(crate) fn write_out(&mut self)
        ensures handed { handed self.new.writer ≡ handed self.old.writer }
        ensures out { IsWrittenOut self.new }
        ensures names { SameNames self.old self.new }
    {
        let _ = self.flush();
    }

    /// The path of the lock of its name.
    pub(crate) fn lock(&self) -> Result<String, AllocError>
        ensures { IfOk result (λ lock. string_bytes lock
            ≡ lock_of (string_bytes self.now.target)) }
    {
        let mut lock = self.target.clone()?;
        lock.push_str("~tftp")?;
        Ok(lock)
    }

    /// The open file.
    pub(crate) fn file(&self) -> &DiskFile<F>
        ensures { result.now ≡ self.now.writer.file }
    {
        self.writer.file()
    }
}

impl<F: Write + OpenFile> FolderDraft<F> {
    ghost use Rattle.tftp_folder.specs.Draft.{SameNames, IsDone, KeepsFile, StaysDone, LooksForOwn, file_bytes};
    ghost use Rattle.tftp_folder.specs.Modes.{TakesMode};

    /// Writes the buffered bytes once they are due. It syncs them only if too many are unsynced.
    pub(crate) fn write_behind(&mut self)
        ensures handed { handed self.new.writer ≡ handed self.old.writer }
        ensures names { SameNames self.old self.new }
    {
        if self.writer.is_due() && self.flush().is_ok() && self.unsynced >= MOST_UNSYNCED {
            self.sync();
        }
    }

    /// Whether so many bytes are unsynced that the draft is to be synced once no transfer waits.
    pub(crate) fn is_to_sync(&self) -> bool {
        self.unsynced >= SYNC_AT
    }

    /// Writes and syncs the appended bytes, unless an earlier call failed.
    pub(crate) fn sync(&mut self)
        ensures handed { handed self.new.writer ≡ handed self.old.writer }
        ensures names { SameNames self.old self.new }
    {
        self.unsynced = 0;
        if self.flush().is_err() {
            return;
        }
        if let Err(error) = self.writer.sync_data() {
            self.failure = Some(error);
        }
    }

    /// Writes and syncs all appended bytes.
    pub(crate) fn finish(&mut self) -> io::Result<()>
        ensures handed { handed self.new.writer ≡ handed self.old.writer }
        ensures written { OnOk result (file_bytes self.new ≡ handed self.old.writer) }
        ensures done { OnOk result (IsDone self.new) }
        ensures names { SameNames self.old self.new }
    {
        match self.flush() {
            Ok(()) => self.sync_all(),
            Err(error) => Err(error),
        }
    }

    /// Syncs the file.
    pub(crate) fn sync_all(&mut self) -> io::Result<()>
        ensures written { file_bytes self.new ≡ file_bytes self.old }
        ensures buffer { self.new.writer.buffer ≡ self.old.writer.buffer }
        ensures ok { OnOk result (is_synced (calls_of self.new.writer) ≡ true) }
        ensures sound { OnOk result (sync_failed (calls_of self.new.writer)
            ≡ sync_failed (calls_of self.old.writer)) }
        ensures names { SameNames self.old self.new }
    {
        match self.writer.sync_all() {
            Ok(()) => Ok(()),
            Err(error) => {
                self.failure = Some(error);
                Err(error)
            }
        }
    }

    /// Gives the file the permissions of another. Returns whether it had others.
    pub(crate) fn take_permissions(&mut self, replaced: &Found) -> io::Result<bool>
        ensures stays { KeepsFile self.old self.new }
        ensures buffer { self.new.writer.buffer ≡ self.old.writer.buffer }
        ensures takes { TakesMode replaced.now (calls_of self.old.writer) result
            (calls_of self.new.writer) }
    {
        let wanted = permissions_of(replaced);
        match self.writer.examine() {
            Ok(found) => {
                if permissions_of(&found) == wanted {
                    return Ok(false);
                }
            }
            Err(error) => return Err(error),
        }
        match self.writer.set_mode(wanted) {
            Ok(()) => Ok(true),
            Err(error) => Err(error),
        }
    }

    /// Whether the path of the draft is that of the open file.
    pub(crate) fn is_at_draft<L: Looks>(&mut self, looks: &mut L) -> bool
        ensures stays { StaysDone self.old self.new }
        ensures looks { OnlyLooks (L.log looks.old) (L.log looks.new) }
        ensures inside { (root : List ℕ) → IsInside root (string_bytes self.old.draft)
            → StaysInside root (L.log looks.old) (L.log looks.new) }
    {
        is_at(&mut self.writer, looks, self.draft.as_str())
    }

    /// Whether the path of the file after the commit is that of the open file.
    pub(crate) fn is_at_target<L: Looks>(&mut self, looks: &mut L) -> bool
        ensures stays { StaysDone self.old self.new }
        ensures own { LooksForOwn self.old self.new (L.log looks.old) (L.log looks.new) result }
        ensures looks { OnlyLooks (L.log looks.old) (L.log looks.new) }
        ensures inside { (root : List ℕ) → IsInside root (string_bytes self.old.target)
            → StaysInside root (L.log looks.old) (L.log looks.new) }
    {
        is_at(&mut self.writer, looks, self.target.as_str())
    }
}

/// Whether the path is that of the file.
fn is_at<L: Looks, F: OpenFile>(writer: &mut DiskWriter<F>, looks: &mut L, path: &str) -> bool
    ensures state { state_of (calls_of writer.new) ≡ state_of (calls_of writer.old) }
    ensures buffer { writer.new.buffer ≡ writer.old.buffer }
    ensures own { LooksFor path.now (calls_of writer.old) (calls_of writer.new)
        (L.log looks.old) (L.log looks.new) result }
    ensures looks { OnlyLooks (L.log looks.old) (L.log looks.new) }
    ensures inside { (root : List ℕ) → IsInside root path.now
        → StaysInside root (L.log looks.old) (L.log looks.new) }
{
    let opened = writer.examine();
    let found = looks.look(path);
    is_found(opened, found)
}

/// Whether an open file and a path were looked at, and are one file.
pub(crate) fn is_found(opened: io::Result<Found>, found: io::Result<Found>) -> bool
    ensures { result ≡ is_found opened found }
{
    match opened {
        Ok(opened) => match found {
            Ok(found) => opened.id.is(found.id),
            Err(_) => false,
        },
        Err(_) => false,
    }
}
