//! Gives a draft its name on the disk, in the folder that its request named.

ghost use Rattle.std.specs.Prelude.{ℕ, ◌≡◌, List, ◌∷◌, true, false, Ok, IfOk, OnOk, OnErr, IfSome};
ghost use Rattle.tftp_disk.specs.Changes.{changes};
ghost use Rattle.tftp_disk.specs.DiskTrace.{DiskEvent};
ghost use Rattle.tftp_disk.specs.DiskTrace.DiskEvent.{Looked};
ghost use Rattle.tftp_disk.specs.declared.found.Found.{Found};
ghost use Rattle.tftp_folder.specs.Opened.{AreFolders, follows};
ghost use Rattle.tftp_folder.specs.Leaves.{GivesNoName, OnlyLooks};
ghost use Rattle.tftp_folder.specs.Naming.{NamesWithin};
ghost use Rattle.tftp_folder.specs.Placed.{StaysThere};
ghost use Rattle.tftp_folder.specs.Reached.{IsReached, ReachesNames};
ghost use Rattle.tftp_disk.specs.DiskFault.{is_replaced};
ghost use Rattle.tftp_disk.specs.NamedFolder.{path_in};
ghost use Rattle.tftp_folder.specs.Draft.{IsDone, StaysDone, KeepsDone, NamesDraft, TakesBack};
ghost use Rattle.std.specs.String.{string_bytes};
ghost use Rattle.tftp_folder.specs.Commit.{ClearsDraft, MayRemove, MayRemoveNew, LooksThenRenames};
ghost use Rattle.tftp_folder.specs.Commit.{is_linked};
ghost use Rattle.tftp_folder.specs.Way.{is_link};
ghost use Rattle.tftp_folder.specs.Draft.{NamesIn, GivesName, NamesNothing, NamesNothingIn, SameNames};
ghost use Rattle.tftp_folder.specs.Draft.{IsDraftBelow, IsThere, RefusesDraft};
ghost use Rattle.tftp_folder.specs.Inside.{IsInside, StaysInside};

use crate::folder_draft::FolderDraft;
use crate::locked::rename_locked;
use crate::replacing::rename_over;
use std::io::{self, ErrorKind};
use tftp_disk::{Disk, Existing, FileId, Kind, Looks, NamedFolder, folder_of};
use tftp_lines::Reason;

/// The most folders on a path below the root.
const MOST_FOLDERS: u32 = 8;

/// Why a draft got no name.
#[derive(Clone, Copy)]
pub(crate) enum NameFault {
    /// The system refused a call.
    System(io::Error),
    /// A rule of the folder: the draft, its folder or the file at its name is not as it must be.
    Rule(Reason),
}

impl From<io::Error> for NameFault {
    ghost use Rattle.tftp_folder.specs.declared.naming.NameFault.TheVariants.{System};

    ghost from_gives = { λ error fault. fault ≡ System error };

    fn from(error: io::Error) -> NameFault {
        NameFault::System(error)
    }
}

/// How a draft got its name.
#[derive(Clone, Copy)]
enum Way {
    /// By a hard link: its own path is still there.
    Linked,
    /// By a rename.
    Renamed,
}

/// Gives a draft its name, looks at the name again, and syncs the folder. The draft's own path goes
/// last: until the name is synced the file has both.
///
/// `Rule` if another file has the path of the draft, or another folder that of its folder, or if the
/// file that has the name by now may not be replaced. A name that was given is removed again if it
/// leads out of the root, or if the sync fails and the draft still has its own path; and only if it is
/// still that of the draft's file, since it may be another server's by then.
pub(crate) fn give_name<D: Disk>(
    disk: &mut D,
    root: &str,
    draft: &mut FolderDraft<D::File>,
    existing: Existing,
) -> Result<(), NameFault>
    requires { IsDone draft.old }
    ensures stays { OnOk result (KeepsDone draft.old draft.new) }
    ensures names { SameNames draft.old draft.new }
    ensures ok { OnOk result (GivesName draft.new (changes (D.log disk.old))
        (is_replaced existing) (changes (D.log disk.new))) }
    ensures err { OnErr result (NamesNothing draft.new (changes (D.log disk.old))
        (is_replaced existing) (changes (D.log disk.new))) }
    ensures over { LooksThenRenames (is_replaced existing) (string_bytes draft.old.target)
        (D.log disk.old) (D.log disk.new) }
    ensures there { IsThere draft.old (D.log disk.old)
        → StaysThere (D.log disk.old) (D.log disk.new) }
    ensures reaches { ReachesNames root.now (D.log disk.old) (D.log disk.new) }
    ensures follows { follows (D.log disk.new) ≡ follows (D.log disk.old) }
    ensures inside { IsDraftBelow root.now draft.old
        → StaysInside root.now (D.log disk.old) (D.log disk.new) }
{
    if !draft.is_at_draft(disk) {
        return Err(NameFault::Rule(Reason::DraftReplaced));
    }
    let folder = folder_of(draft.target.as_str());
    if !leads_to(disk, root, folder, draft.folder) {
        return Err(NameFault::Rule(Reason::FolderReplaced));
    }
    // The folder is opened first: if that fails, no name is given.
    let folder = match NamedFolder::of(disk, draft.target.as_str()) {
        Ok(folder) => folder,
        Err(error) => return Err(NameFault::System(error)),
    };
    name_in(disk, &folder, root, draft, existing)
}

/// Gives a draft its name, looks at the name again, syncs the open folder, and removes the draft's own
/// path, if it has that still.
fn name_in<D: Disk>(
    disk: &mut D,
    folder: &NamedFolder<D::File>,
    root: &str,
    draft: &mut FolderDraft<D::File>,
    existing: Existing,
) -> Result<(), NameFault>
    requires { IsDone draft.old }
    ensures stays { OnOk result (KeepsDone draft.old draft.new) }
    ensures names { SameNames draft.old draft.new }
    ensures ok { OnOk result (NamesIn draft.new folder.now.folder (changes (D.log disk.old))
        (is_replaced existing) (changes (D.log disk.new))) }
    ensures err { OnErr result (NamesNothingIn draft.new folder.now.folder
        (changes (D.log disk.old)) (is_replaced existing) (changes (D.log disk.new))) }
    ensures over { LooksThenRenames (is_replaced existing) (string_bytes draft.old.target)
        (D.log disk.old) (D.log disk.new) }
    ensures there { IsThere draft.old (D.log disk.old)
        → StaysThere (D.log disk.old) (D.log disk.new) }
    ensures reaches { IsReached root.now (string_bytes draft.old.target) (D.log disk.old)
        → ReachesNames root.now (D.log disk.old) (D.log disk.new) }
    ensures follows { follows (D.log disk.new) ≡ follows (D.log disk.old) }
    ensures inside { IfSome (path_in folder.now.folder) (IsInside root.now)
        → IsDraftBelow root.now draft.old
        → StaysInside root.now (D.log disk.old) (D.log disk.new) }
{
    let way = match put_name(disk, draft, existing) {
        Ok(way) => way,
        Err(fault) => return Err(fault),
    };
    match look_again(disk, root, draft) {
        Ok(()) => {}
        Err(reason) => return Err(NameFault::Rule(reason)),
    }
    match folder.sync(disk) {
        Ok(()) => {
            remove_draft(disk, draft, way);
            Ok(())
        }
        Err(error) => {
            take_back_new(disk, draft, existing, way);
            Err(NameFault::System(error))
        }
    }
}

/// Removes the own path of a draft that got its name by a link.
fn remove_draft<D: Disk>(disk: &mut D, draft: &FolderDraft<D::File>, way: Way)
    ensures goes { ClearsDraft (is_link way) (string_bytes draft.now.draft)
        (changes (D.log disk.old)) (changes (D.log disk.new)) }
    ensures unnamed { GivesNoName (D.log disk.old) (D.log disk.new) }
    ensures inside { (root : List ℕ) → IsDraftBelow root draft.now
        → StaysInside root (D.log disk.old) (D.log disk.new) }
{
    match way {
        Way::Linked => {
            let _ = disk.remove(draft.draft.as_str());
        }
        Way::Renamed => {}
    }
}

/// Removes the name of a draft again, if it has its own path still, and unless it replaced a file or is
/// another file's by now.
fn take_back_new<D: Disk>(
    disk: &mut D,
    draft: &mut FolderDraft<D::File>,
    existing: Existing,
    way: Way,
)
    ensures stays { StaysDone draft.old draft.new }
    ensures removed { MayRemoveNew (string_bytes draft.new.target) (changes (D.log disk.old))
        (is_replaced existing) (changes (D.log disk.new)) }
    ensures own { is_replaced existing ≡ false → is_link way ≡ true
        → TakesBack draft.old draft.new (D.log disk.old) (D.log disk.new) }
    ensures unnamed { GivesNoName (D.log disk.old) (D.log disk.new) }
    ensures inside { (root : List ℕ) → IsDraftBelow root draft.old
        → StaysInside root (D.log disk.old) (D.log disk.new) }
{
    match existing {
        Existing::Refused => match way {
            Way::Linked => take_back(disk, draft),
            Way::Renamed => {}
        },
        Existing::Replaced => {}
    }
}

/// Removes the name of a draft again, unless it is another file's by now.
fn take_back<D: Disk>(disk: &mut D, draft: &mut FolderDraft<D::File>)
    ensures stays { StaysDone draft.old draft.new }
    ensures removed { MayRemove (string_bytes draft.new.target) (changes (D.log disk.old))
        (changes (D.log disk.new)) }
    ensures own { TakesBack draft.old draft.new (D.log disk.old) (D.log disk.new) }
    ensures unnamed { GivesNoName (D.log disk.old) (D.log disk.new) }
    ensures inside { (root : List ℕ) → IsDraftBelow root draft.old
        → StaysInside root (D.log disk.old) (D.log disk.new) }
{
    if !draft.is_at_target(disk) {
        return;
    }
    let _ = disk.remove(draft.target.as_str());
}

/// Names the file of a draft, by a rename if it may replace one.
fn put_name<D: Disk>(
    disk: &mut D,
    draft: &mut FolderDraft<D::File>,
    existing: Existing,
) -> Result<Way, NameFault>
    requires { IsDone draft.old }
    ensures stays { OnOk result (KeepsDone draft.old draft.new) }
    ensures names { SameNames draft.old draft.new }
    ensures ok { OnOk result (NamesDraft draft.new (changes (D.log disk.old))
        (is_replaced existing) (changes (D.log disk.new))) }
    ensures way { IfOk result (λ way. is_link way ≡ is_linked (changes (D.log disk.new))) }
    ensures err { OnErr result (RefusesDraft draft.new (changes (D.log disk.old))
        (is_replaced existing) (changes (D.log disk.new))) }
    ensures over { LooksThenRenames (is_replaced existing) (string_bytes draft.old.target)
        (D.log disk.old) (D.log disk.new) }
    ensures within { NamesWithin draft.old (D.log disk.old) (D.log disk.new) }
{
    match existing {
        Existing::Refused => match name_new(disk, draft) {
            Ok(way) => Ok(way),
            Err(fault) => Err(fault),
        },
        Existing::Replaced => match rename_over(disk, draft) {
            Ok(()) => Ok(Way::Renamed),
            Err(fault) => Err(fault),
        },
    }
}

/// Looks at the name that a draft was given. One that leads out of its folder is removed. What has
/// the name in the folder by now stays: if it is not the draft's file, it may be another server's.
fn look_again<D: Disk>(
    disk: &mut D,
    root: &str,
    draft: &mut FolderDraft<D::File>,
) -> Result<(), Reason>
    ensures stays { StaysDone draft.old draft.new }
    ensures unnamed { GivesNoName (D.log disk.old) (D.log disk.new) }
    ensures ok { OnOk result (changes (D.log disk.new) ≡ changes (D.log disk.old)) }
    ensures err { OnErr result (MayRemove (string_bytes draft.new.target)
        (changes (D.log disk.old)) (changes (D.log disk.new))) }
    ensures own { OnErr result (TakesBack draft.old draft.new (D.log disk.old)
        (D.log disk.new)) }
    ensures inside { IsDraftBelow root.now draft.old
        → StaysInside root.now (D.log disk.old) (D.log disk.new) }
{
    let folder = folder_of(draft.target.as_str());
    if !leads_to(disk, root, folder, draft.folder) {
        take_back(disk, draft);
        return Err(Reason::FolderReplaced);
    }
    if draft.is_at_target(disk) {
        Ok(())
    } else {
        Err(Reason::DraftReplaced)
    }
}

/// Whether a path leads to this folder, through no link below the root.
fn leads_to<L: Looks>(looks: &mut L, root: &str, folder: &str, id: FileId) -> bool
    ensures folders { result ≡ true → (before : List DiskEvent)
        × AreFolders root.now folder.now before (L.log looks.new) }
    ensures looks { OnlyLooks (L.log looks.old) (L.log looks.new) }
    ensures inside { IsInside root.now folder.now
        → StaysInside root.now (L.log looks.old) (L.log looks.new) }
{
    match looks.look(folder) {
        Ok(found) => {
            if found.kind != Kind::Folder || !id.is(found.id) {
                return false;
            }
            has_no_link(looks, root, folder)
        }
        Err(_) => false,
    }
}

/// Whether this path and each above it, up to the root, is that of a folder and no link.
pub(crate) fn has_no_link<L: Looks>(looks: &mut L, root: &str, folder: &str) -> bool
    ensures looks { OnlyLooks (L.log looks.old) (L.log looks.new) }
    ensures folders { result ≡ true → AreFolders root.now folder.now (L.log looks.old)
        (L.log looks.new) }
    ensures inside { IsInside root.now folder.now
        → StaysInside root.now (L.log looks.old) (L.log looks.new) }
{
    let mut folder = folder;
    for _ in 0..MOST_FOLDERS {
        if folder.len() <= root.len().max(1) {
            return true;
        }
        if !is_folder(looks, folder) {
            return false;
        }
        folder = folder_of(folder);
    }
    false
}

/// Whether the path is that of a folder, and no link.
fn is_folder<L: Looks>(looks: &mut L, path: &str) -> bool
    ensures looks { OnlyLooks (L.log looks.old) (L.log looks.new) }
    ensures folder { result ≡ true → (found : Found)
        × (L.log looks.new ≡ Looked path.now (Ok found) ∷ L.log looks.old)
        × (found.kind ≡ Kind.Folder) }
    ensures inside { (root : List ℕ) → IsInside root path.now
        → StaysInside root (L.log looks.old) (L.log looks.new) }
{
    match looks.look(path) {
        Ok(found) => found.kind == Kind::Folder,
        Err(_) => false,
    }
}

/// Gives a draft a new name. A hard link never replaces a file. If the system refuses the link, the
/// draft is renamed under a lock of the name.
fn name_new<D: Disk>(disk: &mut D, draft: &FolderDraft<D::File>) -> Result<Way, NameFault>
    ensures ok { OnOk result (NamesDraft draft.now (changes (D.log disk.old)) false
        (changes (D.log disk.new))) }
    ensures way { IfOk result (λ way. is_link way ≡ is_linked (changes (D.log disk.new))) }
    ensures err { OnErr result (RefusesDraft draft.now (changes (D.log disk.old)) false
        (changes (D.log disk.new))) }
    ensures over { LooksThenRenames false (string_bytes draft.now.target) (D.log disk.old)
        (D.log disk.new) }
    ensures within { NamesWithin draft.now (D.log disk.old) (D.log disk.new) }
{
    let (path, target) = (draft.draft.as_str(), draft.target.as_str());
    match disk.link(draft.file(), path, target) {
        Ok(()) => Ok(Way::Linked),
        Err(error) => {
            if error.kind() == ErrorKind::AlreadyExists {
                return Err(NameFault::System(error));
            }
            match rename_locked(disk, draft) {
                Ok(()) => Ok(Way::Renamed),
                Err(fault) => Err(fault),
            }
        }
    }
}
