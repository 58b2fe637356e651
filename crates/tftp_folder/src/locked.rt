//! Gives a draft a new name where the system has no hard links: under a lock of the name, since
//! other servers may give it too.

ghost use Rattle.std.specs.Prelude.{ℕ, ◌≡◌, ◌≢◌, List, ◌∷◌, false, Ok, Err, OnOk, OnErr};
ghost use Rattle.std.specs.IoError.{error_kind};
ghost use Rattle.std.specs.String.{string_bytes};
ghost use Rattle.std.specs.declared.io.Error.{Error};
ghost use Rattle.tftp_disk.specs.Changes.{changes};
ghost use Rattle.tftp_disk.specs.DiskTrace.{DiskEvent};
ghost use Rattle.tftp_disk.specs.DiskTrace.DiskEvent.{Looked, Made};
ghost use Rattle.tftp_folder.specs.Commit.{LooksThenRenames, lock_of};
ghost use Rattle.tftp_folder.specs.Draft.{RefusesDraftLocked, RenamesDraft};
ghost use Rattle.tftp_folder.specs.Draft.{RenamesDraftLocked, RenamesNoDraft};
ghost use Rattle.tftp_folder.specs.Inside.{IsInside, StaysInside};
ghost use Rattle.tftp_folder.specs.Leaves.{OnlyLooks};
ghost use Rattle.tftp_folder.specs.Naming.{NamesWithin};

use crate::folder_draft::FolderDraft;
use crate::naming::NameFault;
use crate::replacing::unless_missing;
use std::io::{self, ErrorKind};
use tftp_disk::{Disk, Looks};
use tftp_lines::Reason;

/// Renames a draft to a name that no file has, under the lock of the name: a file beside it that is
/// made by a call that fails if it is there. So of several servers one looks and renames at a time.
///
/// `Rule` if the lock is there. It is removed by the server that made it; one that is killed
/// meanwhile leaves it.
pub(crate) fn rename_locked<D: Disk>(
    disk: &mut D,
    draft: &FolderDraft<D::File>,
) -> Result<(), NameFault>
    ensures ok { OnOk result (RenamesDraftLocked draft.now (changes (D.log disk.old))
        (changes (D.log disk.new))) }
    ensures err { OnErr result (RefusesDraftLocked draft.now (changes (D.log disk.old))
        (changes (D.log disk.new))) }
    ensures over { LooksThenRenames false (string_bytes draft.now.target) (D.log disk.old)
        (D.log disk.new) }
    ensures within { NamesWithin draft.now (D.log disk.old) (D.log disk.new) }
{
    let lock = match draft.lock() {
        Ok(lock) => lock,
        Err(_) => return Err(NameFault::System(io::Error::from(ErrorKind::OutOfMemory))),
    };
    let path = lock.as_str();
    match disk.make(path) {
        Ok(_) => {}
        Err(error) => return Err(lock_fault(error)),
    }
    let renamed = rename_new(disk, draft);
    let _ = disk.remove(path);
    renamed
}

/// Why a lock was not made.
fn lock_fault(error: io::Error) -> NameFault
    ensures locked { error_kind error ≡ ErrorKind.AlreadyExists
        → result ≡ NameFault.Rule Reason.NameLocked }
    ensures system { error_kind error ≢ ErrorKind.AlreadyExists
        → result ≡ NameFault.System error }
{
    if error.kind() == ErrorKind::AlreadyExists {
        NameFault::Rule(Reason::NameLocked)
    } else {
        NameFault::System(error)
    }
}

/// Renames a draft if no file has the name, whose lock was made just before.
fn rename_new<D: Disk>(disk: &mut D, draft: &FolderDraft<D::File>) -> Result<(), NameFault>
    requires locked { (before : List DiskEvent) × (D.log disk.old
        ≡ Made (lock_of (string_bytes draft.now.target)) (Ok tt) ∷ before) }
    ensures ok { OnOk result (RenamesDraft draft.now (changes (D.log disk.old)) (Ok tt)
        (changes (D.log disk.new))) }
    ensures err { OnErr result (RenamesNoDraft draft.now (changes (D.log disk.old))
        (changes (D.log disk.new))) }
    ensures over { LooksThenRenames false (string_bytes draft.now.target) (D.log disk.old)
        (D.log disk.new) }
    ensures within { NamesWithin draft.now (D.log disk.old) (D.log disk.new) }
{
    let (path, target) = (draft.draft.as_str(), draft.target.as_str());
    match check_free(disk, target) {
        Ok(()) => {}
        Err(fault) => return Err(fault),
    }
    match disk.rename(draft.file(), path, target) {
        Ok(()) => Ok(()),
        Err(error) => Err(NameFault::System(error)),
    }
}

/// Looks whether no file has the name.
fn check_free<L: Looks>(looks: &mut L, name: &str) -> Result<(), NameFault>
    ensures looks { OnlyLooks (L.log looks.old) (L.log looks.new) }
    ensures free { OnOk result ((error : Error) × (error_kind error ≡ ErrorKind.NotFound)
        × (L.log looks.new ≡ Looked name.now (Err error) ∷ L.log looks.old)) }
    ensures inside { (root : List ℕ) → IsInside root name.now
        → StaysInside root (L.log looks.old) (L.log looks.new) }
{
    match looks.look(name) {
        Ok(_) => Err(NameFault::System(io::Error::from(ErrorKind::AlreadyExists))),
        Err(error) => unless_missing(error),
    }
}
