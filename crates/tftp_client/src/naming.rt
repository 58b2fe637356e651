//! Gives a fetched file its name.

ghost use Rattle.std.specs.Prelude.{◌≡◌, ◌∷◌, Err, List, IfErr, OnOk, OnErr};
ghost use Rattle.std.specs.String.{string_bytes};
ghost use Rattle.tftp_disk.specs.declared.existing.Existing.TheVariants.{Refused, Replaced};
ghost use Rattle.tftp_disk.specs.DiskTrace.{DiskEvent, made_when, state_of};
ghost use Rattle.tftp_disk.specs.DiskTrace.DiskEvent.{Folder_synced, Linked, Renamed};
ghost use Rattle.tftp_disk.specs.DiskWriter.{calls_of, handed};
ghost use Rattle.tftp_disk.specs.NamedFolder.{SyncsFolder, path_in};
ghost use Rattle.tftp_disk.specs.Still.{IsStillAt};
ghost use Rattle.tftp_client.specs.Fetched.{FindsNothing, IsAbsent, Keeps, KeepsOne, LosesName};
ghost use Rattle.tftp_client.specs.Fetched.{MayRename, NamesBytes, Renames, WasNamed, WasUnlinked};
ghost use Rattle.tftp_client.specs.Place.{IsReplacedBy, ReplacesAt};
ghost use Rattle.tftp_client.specs.Written.{IsDone, IsFolderIn, IsLeftAs, SameFile, paths_of};

use crate::local_error::LocalError;
use crate::local_names::LocalNames;
use crate::written::Written;
use std::io::{self, ErrorKind};
use tftp_disk::{Disk, Existing, Found, Kind, Looks, NamedFolder};

/// Gives the file its name, and syncs the folder.
///
/// `PartReplaced` if another file has its first name. `Exists` if a file has the name and none is
/// to be replaced, `NotAFile` if what has it is no regular file.
pub(crate) fn give_name<D: Disk>(
    disk: &mut D,
    names: &LocalNames,
    existing: Existing,
    folder: &NamedFolder<D::File>,
    written: &mut Written<D::File>,
) -> Result<(), LocalError>
    requires whole { IsDone (string_bytes names.now.part) (handed written.old.writer) written.old }
    requires folder { ∥ IsFolderIn (string_bytes names.now.local) folder.now.folder
        (D.log disk.old) ∥₁ }
    requires still { ∥ IsStillAt (string_bytes names.now.part)
        (made_when (calls_of written.old.writer)) (D.log disk.old) ∥₁ }
    ensures same { SameFile written.old written.new }
    ensures keeps { Keeps (paths_of names.now existing) (D.log disk.old) (D.log disk.new) }
    ensures ok { OnOk result ∥ WasNamed (paths_of names.now existing)
        (handed written.old.writer) (D.log disk.new) ∥₁ }
    ensures err { OnErr result ∥ IsLeftAs (paths_of names.now existing)
        written.new (D.log disk.new) ∥₁ }
{
    let opened = written.examine()?;
    let found = disk.look(names.part.as_str())?;
    if !opened.id.is(found.id) {
        return Err(LocalError::PartReplaced);
    }
    put_name(disk, names, existing, folder, written)
}

/// Gives the file its name, and syncs this folder.
fn put_name<D: Disk>(
    disk: &mut D,
    names: &LocalNames,
    existing: Existing,
    folder: &NamedFolder<D::File>,
    written: &mut Written<D::File>,
) -> Result<(), LocalError>
    requires whole { IsDone (string_bytes names.now.part) (handed written.old.writer) written.old }
    requires still { ∥ IsStillAt (string_bytes names.now.part)
        (made_when (calls_of written.old.writer)) (D.log disk.old) ∥₁ }
    ensures same { SameFile written.old written.new }
    ensures keeps { Keeps (paths_of names.now existing) (D.log disk.old) (D.log disk.new) }
    ensures ok { OnOk result (NamesBytes (SyncsFolder folder.now.folder)
        (paths_of names.now existing) (handed written.old.writer) (D.log disk.new)) }
    ensures err { OnErr result ∥ IsLeftAs (paths_of names.now existing)
        written.new (D.log disk.new) ∥₁ }
{
    match existing {
        Existing::Refused => name_new(disk, names, folder, written),
        Existing::Replaced => replace(disk, names, folder, written),
    }
}

/// Gives the file its name, if no file has that name. A hard link never replaces a file. If the
/// system makes no link, the file is renamed.
fn name_new<D: Disk>(
    disk: &mut D,
    names: &LocalNames,
    folder: &NamedFolder<D::File>,
    written: &Written<D::File>,
) -> Result<(), LocalError>
    requires whole { IsDone (string_bytes names.now.part) (handed written.now.writer) written.now }
    requires still { ∥ IsStillAt (string_bytes names.now.part)
        (made_when (calls_of written.now.writer)) (D.log disk.old) ∥₁ }
    ensures keeps { Keeps (paths_of names.now Refused) (D.log disk.old) (D.log disk.new) }
    ensures ok { OnOk result (NamesBytes (SyncsFolder folder.now.folder)
        (paths_of names.now Refused) (handed written.now.writer) (D.log disk.new)) }
    ensures err { OnErr result ∥ IsLeftAs (paths_of names.now Refused)
        written.now (D.log disk.new) ∥₁ }
{
    match link(disk, names, written) {
        Ok(()) => keep_one(disk, names, folder),
        Err(error) => {
            if error.kind() == ErrorKind::AlreadyExists {
                return Err(LocalError::Exists);
            }
            rename_new(disk, names, folder, written)
        }
    }
}

/// Gives the file its name beside the first, if no file has it.
fn link<D: Disk>(disk: &mut D, names: &LocalNames, written: &Written<D::File>) -> io::Result<()>
    ensures { D.log disk.new ≡ Linked (state_of (calls_of written.now.writer))
        (string_bytes names.now.part) (string_bytes names.now.local) result
        ∷ D.log disk.old }
{
    let (part, local) = (names.part.as_str(), names.local.as_str());
    disk.link(written.file(), part, local)
}

/// Syncs the folder of a file with both names. The file keeps its name, or the first one if the
/// sync fails.
fn keep_one<D: Disk>(
    disk: &mut D,
    names: &LocalNames,
    folder: &NamedFolder<D::File>,
) -> Result<(), LocalError>
    ensures ok { OnOk result (KeepsOne (SyncsFolder folder.now.folder)
        (paths_of names.now Refused) (D.log disk.old) (D.log disk.new)) }
    ensures err { OnErr result (LosesName (paths_of names.now Refused)
        (D.log disk.old) (D.log disk.new)) }
{
    match sync_folder(disk, folder) {
        Ok(()) => {
            let _ = disk.remove(names.part.as_str());
            Ok(())
        }
        Err(error) => {
            let _ = disk.remove(names.local.as_str());
            Err(LocalError::System(error))
        }
    }
}

/// Syncs the folder, if its file system supports that.
fn sync_folder<D: Disk>(disk: &mut D, folder: &NamedFolder<D::File>) -> io::Result<()>
    ensures ok { OnOk result (SyncsFolder folder.now.folder (D.log disk.old) (D.log disk.new)) }
    ensures err { IfErr result (λ error. D.log disk.new
        ≡ Folder_synced (path_in folder.now.folder) (Err error) ∷ D.log disk.old) }
{
    folder.sync(disk)
}

/// Renames the file once no file was found at its name.
fn rename_new<D: Disk>(
    disk: &mut D,
    names: &LocalNames,
    folder: &NamedFolder<D::File>,
    written: &Written<D::File>,
) -> Result<(), LocalError>
    requires whole { IsDone (string_bytes names.now.part) (handed written.now.writer) written.now }
    requires still { ∥ IsStillAt (string_bytes names.now.part)
        (made_when (calls_of written.now.writer)) (D.log disk.old) ∥₁ }
    ensures keeps { WasUnlinked (paths_of names.now Refused) (D.log disk.old)
        → Keeps (paths_of names.now Refused) (D.log disk.old) (D.log disk.new) }
    ensures ok { OnOk result ((found : List DiskEvent)
        × FindsNothing (string_bytes names.now.local) (D.log disk.old) found
        × Renames (SyncsFolder folder.now.folder) (paths_of names.now Refused)
        (state_of (calls_of written.now.writer)) found (D.log disk.new)) }
    ensures err { OnErr result ∥ IsLeftAs (paths_of names.now Refused)
        written.now (D.log disk.new) ∥₁ }
{
    let found = disk.look(names.local.as_str());
    match replaced_of(found, Existing::Refused) {
        Ok(_) => rename(disk, names, Existing::Refused, folder, written),
        Err(error) => Err(error),
    }
}

/// Replaces the file that has the name, if it is a regular one still, and takes the permissions
/// that it has by now.
fn replace<D: Disk>(
    disk: &mut D,
    names: &LocalNames,
    folder: &NamedFolder<D::File>,
    written: &mut Written<D::File>,
) -> Result<(), LocalError>
    requires whole { IsDone (string_bytes names.now.part) (handed written.old.writer) written.old }
    requires still { ∥ IsStillAt (string_bytes names.now.part)
        (made_when (calls_of written.old.writer)) (D.log disk.old) ∥₁ }
    ensures same { SameFile written.old written.new }
    ensures keeps { Keeps (paths_of names.now Replaced) (D.log disk.old) (D.log disk.new) }
    ensures ok { OnOk result (NamesBytes (SyncsFolder folder.now.folder)
        (paths_of names.now Replaced) (handed written.old.writer) (D.log disk.new)) }
    ensures err { OnErr result ∥ IsLeftAs (paths_of names.now Replaced)
        written.new (D.log disk.new) ∥₁ }
{
    let found = disk.look(names.local.as_str());
    let replaced = replaced_of(found, Existing::Replaced)?;
    written.keep_permissions(replaced)?;
    rename(disk, names, Existing::Replaced, folder, written)
}

/// Renames the file, and syncs the folder. If the sync fails, the file has the name.
fn rename<D: Disk>(
    disk: &mut D,
    names: &LocalNames,
    existing: Existing,
    folder: &NamedFolder<D::File>,
    written: &Written<D::File>,
) -> Result<(), LocalError>
    requires whole { IsDone (string_bytes names.now.part) (handed written.now.writer) written.now }
    requires still { ∥ IsStillAt (string_bytes names.now.part)
        (made_when (calls_of written.now.writer)) (D.log disk.old) ∥₁ }
    ensures keeps { MayRename (paths_of names.now existing) (D.log disk.old)
        → Keeps (paths_of names.now existing) (D.log disk.old) (D.log disk.new) }
    ensures ok { OnOk result (Renames (SyncsFolder folder.now.folder)
        (paths_of names.now existing) (state_of (calls_of written.now.writer))
        (D.log disk.old) (D.log disk.new)) }
    ensures err { OnErr result ∥ IsLeftAs (paths_of names.now existing)
        written.now (D.log disk.new) ∥₁ }
{
    match exchange(disk, names, written) {
        Ok(()) => match sync_folder(disk, folder) {
            Ok(()) => Ok(()),
            Err(error) => Err(LocalError::System(error)),
        },
        Err(error) => Err(LocalError::System(error)),
    }
}

/// Exchanges the first name of the file for its own, over any file that has that.
fn exchange<D: Disk>(disk: &mut D, names: &LocalNames, written: &Written<D::File>) -> io::Result<()>
    ensures { D.log disk.new ≡ Renamed (state_of (calls_of written.now.writer))
        (string_bytes names.now.part) (string_bytes names.now.local) result
        ∷ D.log disk.old }
{
    let (part, local) = (names.part.as_str(), names.local.as_str());
    disk.rename(written.file(), part, local)
}

/// The regular file that was found at the name and is to be replaced, or `None` if nothing was. It
/// fails if no file is to be replaced, or it is no regular file.
pub(crate) fn replaced_of(
    found: io::Result<Found>,
    existing: Existing,
) -> Result<Option<Found>, LocalError>
    ensures looks { ReplacesAt existing found result }
    ensures absent { existing ≡ Refused → OnOk result (IsAbsent found) }
{
    match found {
        Ok(found) => replaced_if(existing, found),
        Err(error) => {
            if error.kind() == ErrorKind::NotFound {
                Ok(None)
            } else {
                Err(LocalError::System(error))
            }
        }
    }
}

/// What was found at the name, if it is a regular file and to be replaced.
fn replaced_if(existing: Existing, found: Found) -> Result<Option<Found>, LocalError>
    ensures looks { IsReplacedBy existing found result }
    ensures replaces { OnOk result (existing ≡ Replaced) }
{
    if found.kind != Kind::Regular {
        return Err(LocalError::NotAFile);
    }
    match existing {
        Existing::Replaced => Ok(Some(found)),
        Existing::Refused => Err(LocalError::Exists),
    }
}
