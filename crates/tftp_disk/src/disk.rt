//! The calls of a disk, and the trace that they make.
//!
//! The trace is a ghost member of the disk's own trait. Code that is generic over [`Disk`] can make
//! no disk, no view and no open file, and can take none of them apart: it reaches the system by these
//! calls alone, and each puts what was asked and answered on the one trace of its disk or view. An
//! open file has the trace of its own calls (`DiskFile`).
//!
//! A trace has what was asked and answered, not what a disk then has: a path that another process
//! exchanges between two calls leads elsewhere, and no event says so.

ghost use Rattle.std.specs.Prelude.{◌≡◌, ◌∷◌, [], List, IfOk, length};
ghost use Rattle.tftp_disk.specs.Calls.{path_text};
ghost use Rattle.tftp_disk.specs.DiskTrace.{DiskEvent, done, folder_at, state_of};
ghost use Rattle.tftp_disk.specs.DiskTrace.DiskEvent.{Created, Followed, Looked, Opened, Resolved};
ghost use Rattle.tftp_disk.specs.DiskTrace.DiskEvent.{Folder_opened, Folder_synced, Tried};
ghost use Rattle.tftp_disk.specs.DiskTrace.DiskEvent.{Linked, Locked, Made, Removed, Renamed};

use crate::disk_file::{DiskFile, DiskFolder};
use crate::found::Found;
use std::alloc::Global;
use std::fs::OpenFile;
use std::io::{self, Read, Seek, Write};
use std::path::PathBuf;

/// Looks at the paths of a disk.
pub trait Looks {
    /// What was asked and answered, the newest first.
    ghost log: { Self → List DiskEvent };

    /// The seconds since 1970 by the clock of the system, or none if that cannot be read.
    fn seconds(&self) -> Option<i64>;

    /// Looks at a path itself: no link is followed.
    fn look(&mut self, path: &str) -> io::Result<Found>
        ensures { log self.new ≡ Looked path.now result ∷ log self.old };

    /// Looks at what a path leads to.
    fn follow(&mut self, path: &str) -> io::Result<Found>
        ensures { log self.new ≡ Followed path.now result ∷ log self.old };

    /// The path without links that a path leads to.
    fn resolve(&mut self, alloc: Global, path: &str) -> io::Result<PathBuf>
        ensures { log self.new ≡ Resolved path.now (path_text result) ∷ log self.old };
}

/// Looks at the paths of a disk, and opens files to be read. It has no call that changes the disk.
pub trait View: Looks + Drop {
    /// A file of the system that is read.
    type File: Read + Seek + OpenFile + Drop;

    /// Opens a file to be read.
    fn open(&mut self, path: &str) -> io::Result<DiskFile<Self::File>>
        ensures noted { Self.log self.new ≡ Opened path.now (done result) ∷ Self.log self.old }
        ensures file { IfOk result (λ file. file.trace.events
            ≡ Opened path.now (Ok tt) ∷ []) };
}

/// A disk. What changes it takes the disk by `&mut`.
pub trait Disk: Looks + Drop {
    /// A file of the system that is written, or a folder of it.
    type File: Write + OpenFile + Drop;

    /// A view of the disk.
    type View: View;

    /// A view of the disk as it is, with a trace of its own. Whoever has the disk by `&` alone has no
    /// other way to it.
    fn view(&self) -> Self::View
        ensures { Self.View.log result ≡ [] };

    /// Opens a file to be written, and closes it.
    fn try_to_write(&mut self, path: &str) -> io::Result<()>
        ensures { Self.log self.new ≡ Tried path.now result ∷ Self.log self.old };

    /// Makes a file, to be written, where none is.
    fn make(&mut self, path: &str) -> io::Result<DiskFile<Self::File>>
        ensures noted { Self.log self.new ≡ Made path.now (done result) ∷ Self.log self.old }
        ensures file { IfOk result (λ file. file.trace.events
            ≡ Created path.now (length (Self.log self.old)) ∷ []) };

    /// Makes a file, to be written, where none is, and locks it without waiting (`flock`): as long
    /// as it is open, no other open file of the folder's programs has its lock. `WouldBlock` if one
    /// took it first: the file is that one's.
    fn make_locked(&mut self, path: &str) -> io::Result<DiskFile<Self::File>>
        ensures noted { Self.log self.new ≡ Made path.now (done result) ∷ Self.log self.old }
        ensures file { IfOk result (λ file. file.trace.events ≡ Locked path.now (Ok tt)
            ∷ Created path.now (length (Self.log self.old)) ∷ []) };

    /// Opens a file to be written, and locks it without waiting. `WouldBlock` if another open file
    /// has its lock.
    fn lock(&mut self, path: &str) -> io::Result<DiskFile<Self::File>>
        ensures noted { Self.log self.new ≡ Locked path.now (done result) ∷ Self.log self.old }
        ensures file { IfOk result (λ file. file.trace.events
            ≡ Locked path.now (Ok tt) ∷ []) };

    /// Gives the file at a path a second name, if no file has that.
    fn link(&mut self, file: &DiskFile<Self::File>, from: &str, to: &str) -> io::Result<()>
        ensures { Self.log self.new
            ≡ Linked (state_of file.now.trace.events) from.now to.now result
            ∷ Self.log self.old };

    /// Exchanges the path of a file for another, over any file that has that.
    fn rename(&mut self, file: &DiskFile<Self::File>, from: &str, to: &str) -> io::Result<()>
        ensures { Self.log self.new
            ≡ Renamed (state_of file.now.trace.events) from.now to.now result
            ∷ Self.log self.old };

    /// Removes a name.
    fn remove(&mut self, path: &str) -> io::Result<()>
        ensures { Self.log self.new ≡ Removed path.now result ∷ Self.log self.old };

    /// Opens a folder, to be synced.
    fn open_folder(&mut self, path: &str) -> io::Result<DiskFolder<Self::File>>
        ensures noted { Self.log self.new ≡ Folder_opened path.now (done result)
            ∷ Self.log self.old }
        ensures folder { IfOk result (λ folder. folder.trace.events
            ≡ Folder_opened path.now (Ok tt) ∷ []) };

    /// Syncs a folder.
    fn sync_folder(&mut self, folder: &DiskFolder<Self::File>) -> io::Result<()>
        ensures { Self.log self.new ≡ Folder_synced (folder_at folder.now.trace.events) result
            ∷ Self.log self.old };
}
