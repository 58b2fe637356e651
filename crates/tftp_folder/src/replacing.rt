//! Which files a draft may replace, and what it has of them.

ghost use Rattle.std.specs.Prelude.{ℕ, ◌≡◌, ◌≤◌, List, ◌∷◌, true, Ok, OnOk, OnErr};
ghost use Rattle.std.specs.IoError.{error_kind};
ghost use Rattle.std.specs.String.{string_bytes};
ghost use Rattle.tftp_disk.specs.Changes.{changes};
ghost use Rattle.tftp_disk.specs.DiskTrace.DiskEvent.{Tried};
ghost use Rattle.tftp_folder.specs.Commit.{MayBeReplaced, LooksThenRenames};
ghost use Rattle.tftp_folder.specs.Draft.{IsDone, KeepsDone, NamesDraft, RefusesDraft, SameNames};
ghost use Rattle.tftp_folder.specs.Inside.{IsInside, StaysInside};
ghost use Rattle.tftp_folder.specs.Leaves.{OnlyLooks};
ghost use Rattle.tftp_folder.specs.Naming.{NamesWithin};
ghost use Rattle.tftp_folder.specs.Modes.{permissions};
ghost use Rattle.tftp_folder.specs.Reached.{IsReached};
ghost use Rattle.tftp_folder.specs.Uploads.{IsBelow};

use crate::folder_draft::FolderDraft;
use crate::naming::NameFault;
use std::fs::OpenFile;
use std::io::{self, ErrorKind, Write};
use tftp_disk::{Disk, Found, Kind};
use tftp_lines::Reason;

/// The bits of a file's mode that say who may read, write and run it.
const PERMISSIONS: u32 = 0o777;

/// The bits of the permissions in a file's mode.
pub(crate) fn permissions_of(found: &Found) -> u32
    ensures bits { result ≡ permissions found.now.mode }
    ensures most { result ≤ 511 }
{
    found.mode & PERMISSIONS
}

/// Refuses to replace what is no regular file, or what the server's user may not write. `found` is
/// what was found at the path itself.
pub(crate) fn check_replaced<D: Disk>(
    disk: &mut D,
    path: &str,
    found: &Found,
) -> Result<(), NameFault>
    ensures looks { OnlyLooks (D.log disk.old) (D.log disk.new) }
    ensures regular { OnOk result (found.now.kind ≡ Kind.Regular) }
    ensures tried { OnOk result (D.log disk.new ≡ Tried path.now (Ok tt)
        ∷ D.log disk.old) }
    ensures inside { (root : List ℕ) → IsInside root path.now
        → StaysInside root (D.log disk.old) (D.log disk.new) }
{
    match found.kind {
        Kind::Regular => match disk.try_to_write(path) {
            Ok(()) => Ok(()),
            Err(error) => Err(NameFault::System(error)),
        },
        Kind::Link => Err(NameFault::Rule(Reason::ThroughLink)),
        Kind::Folder | Kind::Special => Err(NameFault::Rule(Reason::NotAFile)),
    }
}

/// Renames a draft over the file that has its name by now, if there is one. That is looked at once
/// more, since the request may be long ago: it may be replaced as at the request, and the draft
/// gets its permissions.
pub(crate) fn rename_over<D: Disk>(
    disk: &mut D,
    draft: &mut FolderDraft<D::File>,
) -> Result<(), NameFault>
    requires { IsDone draft.old }
    ensures stays { OnOk result (KeepsDone draft.old draft.new) }
    ensures names { SameNames draft.old draft.new }
    ensures ok { OnOk result (NamesDraft draft.new (changes (D.log disk.old)) true
        (changes (D.log disk.new))) }
    ensures err { OnErr result (RefusesDraft draft.new (changes (D.log disk.old)) true
        (changes (D.log disk.new))) }
    ensures over { LooksThenRenames true (string_bytes draft.old.target) (D.log disk.old)
        (D.log disk.new) }
    ensures within { NamesWithin draft.old (D.log disk.old) (D.log disk.new) }
{
    match check_named(disk, draft) {
        Ok(()) => {}
        Err(fault) => return Err(fault),
    }
    let (path, target) = (draft.draft.as_str(), draft.target.as_str());
    match disk.rename(draft.file(), path, target) {
        Ok(()) => Ok(()),
        Err(error) => Err(NameFault::System(error)),
    }
}

/// Looks at what has the name of a draft by now. If there is a file, it may be replaced as at the
/// request, and the draft gets its permissions.
fn check_named<D: Disk>(disk: &mut D, draft: &mut FolderDraft<D::File>) -> Result<(), NameFault>
    requires { IsDone draft.old }
    ensures stays { OnOk result (KeepsDone draft.old draft.new) }
    ensures names { SameNames draft.old draft.new }
    ensures looks { OnlyLooks (D.log disk.old) (D.log disk.new) }
    ensures over { OnOk result (MayBeReplaced (string_bytes draft.old.target) (D.log disk.new)) }
    ensures reached { (root : List ℕ) → IsReached root (string_bytes draft.old.target) (D.log disk.old)
        → OnOk result (IsReached root (string_bytes draft.old.target) (D.log disk.new)) }
    ensures inside { (root : List ℕ) → IsBelow root (string_bytes draft.old.target)
        → StaysInside root (D.log disk.old) (D.log disk.new) }
{
    let found = match disk.look(draft.target.as_str()) {
        Ok(found) => found,
        Err(error) => return unless_missing(error),
    };
    match check_replaced(disk, draft.target.as_str(), &found) {
        Ok(()) => take_permissions(draft, &found),
        Err(fault) => Err(fault),
    }
}

/// Gives a draft the permissions of a file, and syncs it again if it had others.
fn take_permissions<F: Write + OpenFile>(
    draft: &mut FolderDraft<F>,
    found: &Found,
) -> Result<(), NameFault>
    ensures stays { IsDone draft.old → OnOk result (KeepsDone draft.old draft.new) }
    ensures names { SameNames draft.old draft.new }
{
    if draft.take_permissions(found)? {
        draft.sync_all()?;
    }
    Ok(())
}

/// Nothing if a look failed because there is no file, and else its error.
pub(crate) fn unless_missing(error: io::Error) -> Result<(), NameFault>
    ensures { OnOk result (error_kind error ≡ ErrorKind.NotFound) }
{
    if error.kind() == ErrorKind::NotFound {
        Ok(())
    } else {
        Err(NameFault::System(error))
    }
}
