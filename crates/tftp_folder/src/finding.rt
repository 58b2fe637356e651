//! Finds the files of a folder on the system.

ghost use Rattle.std.specs.Prelude.{ℕ, List};
ghost use Rattle.std.specs.Prelude.{◌≡◌, ◌⊎◌, ◌∷◌, [], true, Ok, Err, IfErr, IfOk, OnErr, IfSome};
ghost use Rattle.std.specs.String.{string_bytes};
ghost use Rattle.tftp_file.specs.Path.{IsPath};
ghost use Rattle.tftp_disk.specs.Changes.{changes};
ghost use Rattle.tftp_disk.specs.DiskTrace.DiskEvent.{Looked, Opened, Examined};
ghost use Rattle.tftp_disk.specs.Found.{is_same_file};
ghost use Rattle.tftp_disk.specs.declared.found.Found.{Found};
ghost use Rattle.tftp_folder.specs.Leaves.{OnlyLooks};
ghost use Rattle.tftp_folder.specs.Opened.{FindsAt, FollowsTo, LooksLast, IsStill, OpensAt};
ghost use Rattle.tftp_disk.specs.Given.{is_at_start};
ghost use Rattle.tftp_folder.specs.Opened.{OpensSeen};
ghost use Rattle.tftp_folder.specs.Inside.{IsInside, StaysInside};
ghost use Rattle.tftp_folder.specs.Uploads.{IsBelow, path_below};
ghost use Rattle.tftp_disk.specs.DiskFault.{MayNotOpen, MayNotStore, MayNotName, is_replaced};

use crate::below::is_below;
use crate::naming::{NameFault, has_no_link};
use crate::replacing::check_replaced;
use crate::served_folder::ServedFolder;
use std::alloc::Global;
use std::io::ErrorKind;
use tftp_disk::{
    Disk, DiskFile, Existing, FileId, Found, Kind, Looks, View, folder_of, folder_or_root,
};
use tftp_file::{Path, StoreFault};
use tftp_lines::Reason;

/// How often a path is looked up for a read whose file is replaced between the look and the opening,
/// as by a rename over it.
const MOST_LOOKS: u32 = 4;

/// A path of the store, resolved on the system.
#[derive(Drop)]
struct Location {
    /// The path on the system, which has no links.
    path: String,
    /// What was found there.
    found: Option<Found>,
}

/// What was found at a path and above it.
#[derive(Clone, Copy)]
struct Seen {
    /// A component of the path is a link.
    has_link: bool,
    /// The parent folder, if that is not the root.
    folder: Option<FileId>,
    /// What was found at the path itself; links are not followed.
    found: Option<Found>,
}

/// What was found above a path.
#[derive(Clone, Copy)]
struct Above {
    /// A folder of the path is a link.
    has_link: bool,
    /// The parent folder, if that is not the root.
    folder: Option<FileId>,
}

/// A file that was opened to be read.
#[derive(Drop)]
pub(crate) struct OpenedFile<F> {
    pub(crate) file: DiskFile<F>,
    /// What the system said of it.
    pub(crate) found: Found,
}

/// A place for a new file, in a folder without links on its path.
#[derive(Clone, Copy)]
pub(crate) struct DraftPlace {
    /// The folder of the path.
    pub(crate) folder: FileId,
    /// What was found of the file that is to be replaced, if there is one.
    pub(crate) replaced: Option<Found>,
}

impl ServedFolder {
    /// The path on the system of a path of the store. `Missing` never comes: the path is text.
    pub(crate) fn path_of(&self, alloc: Global, path: &Path) -> Result<String, StoreFault>
        ensures below { IfOk result (λ target. string_bytes target
            ≡ path_below (string_bytes self.now.root) path.now) }
        ensures path { IfOk result (λ _. IsPath path.now) }
        ensures fault { IfErr result (λ fault. (fault ≡ StoreFault.Missing)
            ⊎ (fault ≡ StoreFault.Memory)) }
    {
        let Ok(name) = str::from_utf8(path.as_bytes()) else {
            return Err(StoreFault::Missing);
        };
        let root = self.root.as_str();
        match format!(in alloc; "{root}/{name}") {
            Ok(target) => Ok(target),
            Err(_) => Err(StoreFault::Memory),
        }
    }

    /// Looks at a path of the store, after each folder above it, from the root down. `Missing` if a
    /// folder is. `target` is the path on the system.
    fn walk<L: Looks>(&self, looks: &mut L, path: &Path, target: &str) -> Result<Seen, StoreFault>
        ensures fault { IfErr result MayNotOpen }
        ensures found { IfOk result (λ seen. LooksLast target.now seen.found (L.log looks.new)) }
        ensures looks { OnlyLooks (L.log looks.old) (L.log looks.new) }
        ensures inside { IsInside (string_bytes self.now.root) target.now
            → StaysInside (string_bytes self.now.root) (L.log looks.old) (L.log looks.new) }
    {
        let above = self.walk_folders(looks, path, target)?;
        match looks.look(target) {
            Ok(found) => Ok(Seen {
                has_link: above.has_link || found.kind == Kind::Link,
                folder: above.folder,
                found: Some(found),
            }),
            Err(error) => {
                if error.kind() == ErrorKind::NotFound {
                    Ok(Seen {
                        has_link: above.has_link,
                        folder: above.folder,
                        found: None,
                    })
                } else {
                    Err(self.open_refused(&error))
                }
            }
        }
    }

    /// Looks at each folder above a path of the store, from the root down. `Missing` if one is.
    fn walk_folders<L: Looks>(
        &self,
        looks: &mut L,
        path: &Path,
        target: &str,
    ) -> Result<Above, StoreFault>
        ensures fault { IfErr result MayNotOpen }
        ensures looks { OnlyLooks (L.log looks.old) (L.log looks.new) }
        ensures inside { IsInside (string_bytes self.now.root) target.now
            → StaysInside (string_bytes self.now.root) (L.log looks.old) (L.log looks.new) }
    {
        let mut above = Above {
            has_link: false,
            folder: None,
        };
        let Ok(name) = str::from_utf8(path.as_bytes()) else {
            return Err(StoreFault::Missing);
        };
        let Some((folders, _)) = name.rsplit_once('/') else {
            return Ok(above);
        };
        let mut end = self.root.len();
        for segment in folders.split('/') {
            end = end.saturating_add(1).saturating_add(segment.len());
            let Some(at) = target.get(..end) else {
                return Err(StoreFault::Missing);
            };
            match looks.look(at) {
                Ok(seen) => {
                    above.has_link |= seen.kind == Kind::Link;
                    above.folder = Some(seen.id);
                }
                Err(error) => return Err(self.open_refused(&error)),
            }
        }
        Ok(above)
    }

    /// The target of a path with links. `Io` if it is outside the folder.
    fn follow<L: Looks>(
        &self,
        looks: &mut L,
        alloc: Global,
        path: &str,
    ) -> Result<Location, StoreFault>
        ensures fault { IfErr result MayNotOpen }
        ensures ok { IfOk result (λ location. FollowsTo (string_bytes self.now.root) path.now
            (string_bytes location.path) location.found (L.log looks.new)) }
        ensures below { IfOk result (λ location. IsBelow (string_bytes self.now.root)
            (string_bytes location.path)) }
        ensures looks { changes (L.log looks.new) ≡ changes (L.log looks.old) }
        ensures inside { IsInside (string_bytes self.now.root) path.now
            → StaysInside (string_bytes self.now.root) (L.log looks.old) (L.log looks.new) }
    {
        let canonical = match looks.resolve(alloc, path) {
            Ok(canonical) => canonical,
            Err(error) => return Err(self.open_refused(&error)),
        };
        let text = canonical.as_str();
        if !is_below(self.root.as_bytes(), text.as_bytes()) {
            return Err(self.refused(Reason::LeadsOut));
        }
        match looks.look(text) {
            Ok(found) => Ok(Location {
                path: String::from_str(alloc, text)?,
                found: Some(found),
            }),
            Err(error) => Err(self.open_refused(&error)),
        }
    }

    /// Finds the file of a path of the store, through links within the folder.
    fn locate<L: Looks>(
        &self,
        looks: &mut L,
        alloc: Global,
        path: &Path,
    ) -> Result<Location, StoreFault>
        ensures fault { IfErr result MayNotOpen }
        ensures ok { IfOk result (λ location. FindsAt (string_bytes self.now.root) path.now
            (string_bytes location.path) location.found (L.log looks.new)) }
        ensures below { IfOk result (λ location. IsBelow (string_bytes self.now.root)
            (string_bytes location.path)) }
        ensures looks { changes (L.log looks.new) ≡ changes (L.log looks.old) }
        ensures inside { StaysInside (string_bytes self.now.root) (L.log looks.old)
            (L.log looks.new) }
    {
        let target = self.path_of(alloc, path)?;
        let seen = self.walk(looks, path, target.as_str())?;
        if seen.has_link {
            self.follow(looks, alloc, target.as_str())
        } else {
            Ok(Location {
                path: target,
                found: seen.found,
            })
        }
    }

    /// Opens the regular file at the path, and returns it with what was found of it. A folder is
    /// `Missing`, and any other file that is not regular is `Io`, as is one that is replaced again
    /// and again.
    pub(crate) fn open_file<V: View>(
        &self,
        view: &mut V,
        alloc: Global,
        path: &Path,
    ) -> Result<OpenedFile<V::File>, StoreFault>
        ensures fault { IfErr result MayNotOpen }
        ensures opens { IfOk result (λ opened. OpensAt (string_bytes self.now.root) path.now
            opened.found (V.log view.new) opened.file.trace.events) }
        ensures start { IfOk result (λ opened. is_at_start opened.file.trace.events
            ≡ true) }
        ensures looks { changes (V.log view.new) ≡ changes (V.log view.old) }
        ensures inside { StaysInside (string_bytes self.now.root) (V.log view.old)
            (V.log view.new) }
    {
        for _ in 0..MOST_LOOKS {
            match self.open_found(view, alloc, path) {
                Ok(Some(opened)) => return Ok(opened),
                Ok(None) => {}
                Err(fault) => return Err(fault),
            }
        }
        Err(self.refused(Reason::FileReplaced))
    }

    /// Looks the path up once, and opens its file; `None` if that was replaced meanwhile. The type
    /// is checked before the open, because opening a FIFO blocks.
    fn open_found<V: View>(
        &self,
        view: &mut V,
        alloc: Global,
        path: &Path,
    ) -> Result<Option<OpenedFile<V::File>>, StoreFault>
        ensures fault { IfErr result MayNotOpen }
        ensures opens { IfOk result (λ opened. IfSome opened (λ file. OpensAt
            (string_bytes self.now.root) path.now file.found (V.log view.new)
            file.file.trace.events)) }
        ensures start { IfOk result (λ opened. IfSome opened (λ file.
            is_at_start file.file.trace.events ≡ true)) }
        ensures looks { changes (V.log view.new) ≡ changes (V.log view.old) }
        ensures inside { StaysInside (string_bytes self.now.root) (V.log view.old)
            (V.log view.new) }
    {
        let location = self.locate(view, alloc, path)?;
        let Some(found) = location.found else {
            return Err(StoreFault::Missing);
        };
        match found.kind {
            Kind::Regular => self.open_seen(view, location.path.as_str(), found.id),
            Kind::Folder => Err(StoreFault::Missing),
            Kind::Link | Kind::Special => Err(self.refused(Reason::NotAFile)),
        }
    }

    /// Opens the file that was seen at the path; `None` if that was replaced meanwhile.
    fn open_seen<V: View>(
        &self,
        view: &mut V,
        path: &str,
        seen: FileId,
    ) -> Result<Option<OpenedFile<V::File>>, StoreFault>
        ensures fault { IfErr result MayNotOpen }
        ensures opens { IfOk result (λ opened. IfSome opened (λ file. OpensSeen
            (string_bytes self.now.root) path.now seen file.found (V.log view.old)
            (V.log view.new))) }
        ensures file { IfOk result (λ opened. IfSome opened (λ file. file.file.trace.events
            ≡ Examined (Ok file.found) ∷ Opened path.now (Ok tt) ∷ [])) }
        ensures looks { changes (V.log view.new) ≡ changes (V.log view.old) }
        ensures inside { IsBelow (string_bytes self.now.root) path.now
            → StaysInside (string_bytes self.now.root) (V.log view.old) (V.log view.new) }
    {
        let mut file = match view.open(path) {
            Ok(file) => file,
            Err(error) => return Err(self.open_refused(&error)),
        };
        let found = match file.examine() {
            Ok(found) => found,
            Err(error) => return Err(self.open_refused(&error)),
        };
        if found.id.is(seen) && self.is_still(view, path, seen) {
            Ok(Some(OpenedFile { file, found }))
        } else {
            Ok(None)
        }
    }

    /// Whether the file still is at the path, below folders alone.
    fn is_still<L: Looks>(&self, looks: &mut L, path: &str, id: FileId) -> bool
        ensures still { result ≡ true → IsStill (string_bytes self.now.root) path.now id
            (L.log looks.old) (L.log looks.new) }
        ensures looks { changes (L.log looks.new) ≡ changes (L.log looks.old) }
        ensures inside { IsBelow (string_bytes self.now.root) path.now
            → StaysInside (string_bytes self.now.root) (L.log looks.old) (L.log looks.new) }
    {
        has_no_link(looks, self.root.as_str(), folder_of(path)) && self.is_at(looks, path, id)
    }

    /// Whether the file is at the path.
    fn is_at<L: Looks>(&self, looks: &mut L, path: &str, id: FileId) -> bool
        ensures again { result ≡ true → (again : Found)
            × (L.log looks.new ≡ Looked path.now (Ok again) ∷ L.log looks.old)
            × (is_same_file id again.id ≡ true) }
        ensures looks { changes (L.log looks.new) ≡ changes (L.log looks.old) }
        ensures inside { IsInside (string_bytes self.now.root) path.now
            → StaysInside (string_bytes self.now.root) (L.log looks.old) (L.log looks.new) }
    {
        match looks.look(path) {
            Ok(found) => id.is(found.id),
            Err(_) => false,
        }
    }

    /// The place to write a file at. Its path has no link and is on the device of the drafts. A
    /// regular file may be there only if it is to be replaced, and then the server's user may write
    /// it. `target` is the path on the system.
    pub(crate) fn place_to_write<D: Disk>(
        &self,
        disk: &mut D,
        path: &Path,
        target: &str,
        existing: Existing,
    ) -> Result<DraftPlace, StoreFault>
        ensures fault { IfErr result (MayNotName (is_replaced existing)) }
        ensures looks { OnlyLooks (D.log disk.old) (D.log disk.new) }
        ensures inside { IsInside (string_bytes self.now.root) (string_bytes self.now.drafts)
            → IsInside (string_bytes self.now.root) target.now
            → StaysInside (string_bytes self.now.root) (D.log disk.old) (D.log disk.new) }
    {
        let seen = match self.walk(disk, path, target) {
            Ok(seen) => seen,
            Err(fault) => return Err(self.place_refused(fault)),
        };
        self.check_place(disk, target, &seen, existing)?;
        let folder = self.folder_to_write(disk, seen.folder)?;
        Ok(DraftPlace {
            folder,
            replaced: seen.found,
        })
    }

    /// The fault of a place that was not found.
    fn place_refused(&self, fault: StoreFault) -> StoreFault
        ensures { MayNotStore result }
    {
        match fault {
            // The path is there: this is the system's memory.
            StoreFault::Memory => StoreFault::Full,
            // A missing folder is not created.
            StoreFault::Missing => self.refused(Reason::NoFolder),
            _ => StoreFault::Io,
        }
    }

    /// Refuses a place with a link on its path, or with a file that is not to be replaced: any, or one
    /// that is not regular or that the server's user may not write.
    fn check_place<D: Disk>(
        &self,
        disk: &mut D,
        target: &str,
        seen: &Seen,
        existing: Existing,
    ) -> Result<(), StoreFault>
        ensures fault { IfErr result (MayNotName (is_replaced existing)) }
        ensures looks { OnlyLooks (D.log disk.old) (D.log disk.new) }
        ensures inside { IsInside (string_bytes self.now.root) target.now
            → StaysInside (string_bytes self.now.root) (D.log disk.old) (D.log disk.new) }
    {
        if seen.found.is_some() && existing == Existing::Refused {
            return Err(StoreFault::Exists);
        }
        if seen.has_link {
            return Err(self.refused(Reason::ThroughLink));
        }
        match &seen.found {
            Some(found) => match check_replaced(disk, target, found) {
                Ok(()) => Ok(()),
                Err(NameFault::System(error)) => Err(self.write_refused(&error)),
                Err(NameFault::Rule(reason)) => Err(self.refused(reason)),
            },
            None => Ok(()),
        }
    }

    /// The folder of a new file, which is the root if no other was found. `Io` if the drafts are
    /// not on its device.
    fn folder_to_write<L: Looks>(
        &self,
        looks: &mut L,
        found: Option<FileId>,
    ) -> Result<FileId, StoreFault>
        ensures fault { IfErr result MayNotStore }
        ensures looks { OnlyLooks (L.log looks.old) (L.log looks.new) }
        ensures inside { IsInside (string_bytes self.now.root) (string_bytes self.now.drafts)
            → StaysInside (string_bytes self.now.root) (L.log looks.old) (L.log looks.new) }
    {
        let folder = self.found_or_root(looks, found)?;
        let drafts = self.id_of(looks, self.drafts.as_str())?;
        if folder.device == drafts.device {
            Ok(folder)
        } else {
            Err(self.refused(Reason::AnotherDevice))
        }
    }

    /// The folder that was found, or else the root.
    fn found_or_root<L: Looks>(
        &self,
        looks: &mut L,
        found: Option<FileId>,
    ) -> Result<FileId, StoreFault>
        ensures fault { IfErr result MayNotStore }
        ensures looks { OnlyLooks (L.log looks.old) (L.log looks.new) }
        ensures inside { StaysInside (string_bytes self.now.root) (L.log looks.old)
            (L.log looks.new) }
    {
        match found {
            Some(folder) => Ok(folder),
            None => self.id_of(looks, self.root.as_str()),
        }
    }

    /// The folder at a path, without a trailing slash.
    fn id_of<L: Looks>(&self, looks: &mut L, path: &str) -> Result<FileId, StoreFault>
        ensures fault { IfErr result MayNotStore }
        ensures looks { OnlyLooks (L.log looks.old) (L.log looks.new) }
        ensures inside { IsInside (string_bytes self.now.root) path.now
            → StaysInside (string_bytes self.now.root) (L.log looks.old) (L.log looks.new) }
    {
        match looks.look(folder_or_root(path)) {
            Ok(found) => Ok(found.id),
            Err(error) => Err(self.write_refused(&error)),
        }
    }
}
