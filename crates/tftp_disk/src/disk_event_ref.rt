//! The events of a disk trace, as values of the code.

ghost use Rattle.std.specs.Prelude.{◌≡◌};
ghost use Rattle.tftp_disk.specs.DiskTrace.{done};

use crate::disk_trace::{DiskEvents, DiskTrace};
use crate::found::Found;
use std::io::{self, SeekFrom};
use std::path::PathBuf;
use tftp_trace::Kind;

/// An event to be noted, with the paths and the bytes that it borrows. An open file is lent by its
/// own trace.
#[derive(Clone, Copy)]
pub(crate) enum DiskEventRef<'a> {
    /// A path itself was looked at.
    Looked(&'a str, io::Result<Found>),
    /// What a path leads to was looked at.
    Followed(&'a str, io::Result<Found>),
    /// A path was to be resolved.
    Resolved(&'a str, &'a io::Result<PathBuf>),
    /// A file was opened to be read.
    Opened(&'a str, io::Result<()>),
    /// A file was opened to be written, and closed.
    Tried(&'a str, io::Result<()>),
    /// The open file was made, by a disk with this trace.
    Created(&'a str, &'a DiskTrace),
    /// A file was made.
    Made(&'a str, io::Result<()>),
    /// A file was opened to be written, and locked.
    Locked(&'a str, io::Result<()>),
    /// The path of an open file got a second name.
    Linked(&'a DiskTrace, &'a str, &'a str, io::Result<()>),
    /// The path of an open file was exchanged.
    Renamed(&'a DiskTrace, &'a str, &'a str, io::Result<()>),
    /// A name was removed.
    Removed(&'a str, io::Result<()>),
    /// A folder was opened.
    FolderOpened(&'a str, io::Result<()>),
    /// An open folder was synced.
    FolderSynced(&'a DiskTrace, io::Result<()>),
    /// An open file was looked at.
    Examined(io::Result<Found>),
    /// Bytes were to be read into this buffer.
    Read(&'a [u8], io::Result<usize>),
    /// The place of the next read was set.
    Sought(SeekFrom, io::Result<u64>),
    /// Some of these bytes were to be written.
    Wrote(&'a [u8], io::Result<usize>),
    /// An open file was synced.
    Synced(io::Result<()>),
    /// The permissions of an open file were set.
    ModeSet(u32, io::Result<()>),
}

impl<'a> Kind<DiskEventRef<'a>> for DiskEvents {
    ghost use Rattle.std.specs.Prelude.{◌∷◌};
    ghost use Rattle.tftp_disk.specs.DiskEventRef.{disk_event};

    ghost after = { λ event events. disk_event event ∷ events };
}

/// The answer of a call without its value.
pub(crate) fn done<T>(answer: &io::Result<T>) -> io::Result<()>
    ensures { result ≡ done answer.now }
{
    match answer {
        Ok(_) => Ok(()),
        Err(error) => Err(*error),
    }
}
