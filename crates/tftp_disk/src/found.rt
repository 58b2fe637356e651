//! What the system says of a file.
//!
//! Its kind, its length and its mode are what std returned (`IsOf`). Its device, its number and the
//! time of its last change are so by reading: std has no clause on them.

ghost use Rattle.std.specs.Prelude.{◌≡◌, ◌↔◌, ◌==◌, ◌&&◌, IsTrue};
ghost use Rattle.std.specs.Fs.{file_type};
ghost use Rattle.tftp_disk.specs.Found.{is_same_file, FoundBy, IsKind, IsOf};

use std::fs::Metadata;
use std::io;
use std::os::unix::fs::{MetadataExt, PermissionsExt};

/// A file or a folder of the system, whatever its name.
#[derive(Clone, Copy, PartialEq, Eq, Hash)]
pub struct FileId {
    /// The device of its file system.
    pub device: u64,
    /// Its number there.
    pub inode: u64,
}

impl FileId {
    /// Whether the other is the same file.
    pub fn is(self, other: FileId) -> bool
        ensures { result ≡ is_same_file self other }
    {
        self.device == other.device && self.inode == other.inode
    }
}

/// The kind of a file.
#[derive(Clone, Copy, PartialEq, Eq)]
pub enum Kind {
    /// A regular file.
    Regular,
    /// A folder.
    Folder,
    /// A symbolic link.
    Link,
    /// A device, a FIFO or a socket.
    Special,
}

/// What the system says of a file.
#[derive(Clone, Copy)]
pub struct Found {
    /// Its kind.
    pub kind: Kind,
    /// Which file it is.
    pub id: FileId,
    /// Its length in bytes.
    pub bytes: u64,
    /// Its mode: its kind and its permissions.
    pub mode: u32,
    /// The seconds of the time of its last change.
    pub changed: i64,
    /// The nanoseconds of that time.
    pub changed_nanos: i64,
}

impl Found {
    /// What the system says of a file, as std returns it.
    fn of(metadata: &Metadata) -> Found
        ensures { IsOf metadata.now result }
    {
        Found {
            kind: kind_of(metadata),
            id: FileId {
                device: metadata.dev(),
                inode: metadata.ino(),
            },
            bytes: metadata.len(),
            mode: metadata.permissions().mode(),
            changed: metadata.ctime(),
            changed_nanos: metadata.ctime_nsec(),
        }
    }
}

/// What the system says of a file, if it answers.
pub(crate) fn found_of(answer: io::Result<Metadata>) -> io::Result<Found>
    ensures { FoundBy answer result }
{
    match answer {
        Ok(metadata) => Ok(Found::of(&metadata)),
        Err(error) => Err(error),
    }
}

/// The kind of the file with this metadata.
fn kind_of(metadata: &Metadata) -> Kind
    ensures { IsKind result (file_type metadata.now) }
{
    if metadata.is_file() {
        Kind::Regular
    } else if metadata.is_dir() {
        Kind::Folder
    } else if metadata.is_symlink() {
        Kind::Link
    } else {
        Kind::Special
    }
}
