//! **Trusted by reading**: the disk of the system. Each method makes the call that its name says, with
//! what it was passed, and notes what was asked and answered.
//!
//! Review alone shows that a note is true: the files of std have no model. No other file of the
//! programs calls the system for a file of a transfer, and `main` makes the one disk of a program.

ghost use Rattle.std.specs.Prelude.{◌≡◌, []};

use crate::disk::{Disk, Looks, View};
use crate::disk_event_ref::{DiskEventRef, done};
use crate::disk_file::{DiskFile, DiskFolder};
use crate::disk_trace::{DiskEvents, DiskTrace};
use crate::found::{Found, found_of};
use std::alloc::Global;
use std::fs::{self, File, OpenOptions};
use std::io;
use std::path::PathBuf;
use std::rt::Files;
use std::time::Clock;

/// Files of the system that can be locked.
pub trait LockFiles: Files {
    /// Locks an open file without waiting: `WouldBlock` if another open file has the lock.
    fn try_lock(&self, file: &Self::File) -> io::Result<()>;
}

impl LockFiles for HostRuntime {
    fn try_lock(&self, file: &File) -> io::Result<()> {
        match file.try_lock() {
            Ok(()) => Ok(()),
            Err(error) => Err(io::Error::from(error)),
        }
    }
}

/// The disk of the system. It is its own view: code that has a [`View`] has the calls of that alone.
#[derive(Drop)]
pub struct SystemDisk<'a, R: Files + Clock> {
    files: &'a R,
    trace: DiskTrace,
}

impl<'a, R: Files + Clock> SystemDisk<'a, R> {
    /// The disk, of which nothing was asked.
    pub fn new(files: &'a R) -> SystemDisk<'a, R>
        ensures { ⟦<SystemDisk<'a, R> as Looks>⟧.log result ≡ [] }
    {
        SystemDisk {
            files,
            trace: DiskTrace::new(&DiskEvents::NONE),
        }
    }
}

impl<'a, R: Files + Clock> Looks for SystemDisk<'a, R> {
    ghost log = { λ disk. disk.trace.events };

    fn seconds(&self) -> Option<i64> {
        match self.files.since_1970() {
            Ok(time) => i64::try_from(time.as_secs()).ok(),
            Err(_) => None,
        }
    }

    fn look(&mut self, path: &str) -> io::Result<Found> {
        let answer = found_of(fs::symlink_metadata(self.files, path));
        self.trace.note(&DiskEventRef::Looked(path, answer));
        answer
    }

    fn follow(&mut self, path: &str) -> io::Result<Found> {
        let answer = found_of(fs::metadata(self.files, path));
        self.trace.note(&DiskEventRef::Followed(path, answer));
        answer
    }

    fn resolve(&mut self, alloc: Global, path: &str) -> io::Result<PathBuf> {
        let answer = fs::canonicalize(&(self.files, alloc), path);
        self.trace.note(&DiskEventRef::Resolved(path, &answer));
        answer
    }
}

impl<'a, R: Files + Clock> View for SystemDisk<'a, R> {
    type File = R::File;

    fn open(&mut self, path: &str) -> io::Result<DiskFile<R::File>> {
        let opened = fs::open(self.files, path);
        self.trace.note(&DiskEventRef::Opened(path, done(&opened)));
        DiskFile::of(opened, &DiskEventRef::Opened(path, Ok(())))
    }
}

impl<'a, R: LockFiles + Clock> Disk for SystemDisk<'a, R> {
    type File = R::File;

    type View = SystemDisk<'a, R>;

    fn view(&self) -> SystemDisk<'a, R> {
        SystemDisk::new(self.files)
    }

    fn try_to_write(&mut self, path: &str) -> io::Result<()> {
        let opened = OpenOptions::new().write(true).open(self.files, path);
        let answer = done(&opened);
        self.trace.note(&DiskEventRef::Tried(path, answer));
        answer
    }

    fn make(&mut self, path: &str) -> io::Result<DiskFile<R::File>> {
        let made = OpenOptions::new()
            .write(true)
            .create_new(true)
            .open(self.files, path);
        let file = DiskFile::of(made, &DiskEventRef::Created(path, &self.trace));
        self.trace.note(&DiskEventRef::Made(path, done(&file)));
        file
    }

    fn make_locked(&mut self, path: &str) -> io::Result<DiskFile<R::File>> {
        let made = OpenOptions::new()
            .write(true)
            .create_new(true)
            .open(self.files, path);
        let locked = locked(self.files, made);
        let made = DiskFile::of(locked, &DiskEventRef::Created(path, &self.trace));
        self.trace.note(&DiskEventRef::Made(path, done(&made)));
        match made {
            Ok(mut file) => {
                file.note(&DiskEventRef::Locked(path, Ok(())));
                Ok(file)
            }
            Err(error) => Err(error),
        }
    }

    fn lock(&mut self, path: &str) -> io::Result<DiskFile<R::File>> {
        let opened = OpenOptions::new().write(true).open(self.files, path);
        let locked = locked(self.files, opened);
        self.trace.note(&DiskEventRef::Locked(path, done(&locked)));
        DiskFile::of(locked, &DiskEventRef::Locked(path, Ok(())))
    }

    fn link(&mut self, file: &DiskFile<R::File>, from: &str, to: &str) -> io::Result<()> {
        let answer = fs::hard_link(self.files, from, to);
        let event = DiskEventRef::Linked(file.trace(), from, to, answer);
        self.trace.note(&event);
        answer
    }

    fn rename(&mut self, file: &DiskFile<R::File>, from: &str, to: &str) -> io::Result<()> {
        let answer = fs::rename(self.files, from, to);
        let event = DiskEventRef::Renamed(file.trace(), from, to, answer);
        self.trace.note(&event);
        answer
    }

    fn remove(&mut self, path: &str) -> io::Result<()> {
        let answer = fs::remove_file(self.files, path);
        self.trace.note(&DiskEventRef::Removed(path, answer));
        answer
    }

    fn open_folder(&mut self, path: &str) -> io::Result<DiskFolder<R::File>> {
        let opened = fs::open(self.files, path);
        let event = DiskEventRef::FolderOpened(path, done(&opened));
        self.trace.note(&event);
        DiskFolder::of(opened, &DiskEventRef::FolderOpened(path, Ok(())))
    }

    fn sync_folder(&mut self, folder: &DiskFolder<R::File>) -> io::Result<()> {
        let answer = folder.sync();
        let event = DiskEventRef::FolderSynced(folder.trace(), answer);
        self.trace.note(&event);
        answer
    }
}

/// The file that was opened, if it can be locked; else it is closed.
fn locked<R: LockFiles>(files: &R, opened: io::Result<R::File>) -> io::Result<R::File> {
    match opened {
        Ok(file) => match files.try_lock(&file) {
            Ok(()) => Ok(file),
            Err(error) => Err(error),
        },
        Err(error) => Err(error),
    }
}
