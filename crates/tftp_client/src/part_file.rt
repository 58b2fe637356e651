//! `LOCAL.part`, the file that a fetch writes until it gets the name `LOCAL`.

ghost use Rattle.std.specs.Prelude.{◌≡◌, ◌≢◌, ◌++◌, [], false, true, Some, IsSome};
ghost use Rattle.std.specs.Prelude.{codes, IfErr, IfOk, OnErr, OnOk};
ghost use Rattle.std.specs.String.{string_bytes};
ghost use Rattle.tftp_disk.specs.DiskTrace.{made_at, made_when};
ghost use Rattle.tftp_disk.specs.DiskWriter.{calls_of, handed};
ghost use Rattle.tftp_disk.specs.Still.{IsStillAt};
ghost use Rattle.tftp_client.specs.Fetched.{Keeps, KeepsPlace, WasNamed};
ghost use Rattle.tftp_client.specs.Place.{FindsNone, FindsPlace, IsPartFault, IsPartFree};
ghost use Rattle.tftp_client.specs.Written.{bytes_in, place_in, paths_for, paths_of, HasNoRest};
ghost use Rattle.tftp_client.specs.Written.{IsFolderIn, IsLeftIn, IsStillIn, SameIn};

use crate::local_error::LocalError;
use crate::local_names::LocalNames;
use crate::naming::{give_name, replaced_of};
use crate::written::Written;
use std::alloc::Global;
use std::io::{self, ErrorKind};
use tftp_disk::{Disk, Existing, Found, Kind, Looks, NamedFolder, write_buffer};

/// The names of a file that is to be fetched, and their folder.
#[derive(Drop)]
pub(crate) struct Place<F> {
    names: LocalNames,
    existing: Existing,
    /// The folder of both names.
    folder: NamedFolder<F>,
}

impl<F> Place<F> {
    /// The place of a file that is to get the name `LOCAL`. Nothing is changed on the disk.
    ///
    /// It fails if `LOCAL` is empty or exists, unless it is a regular file that is to be replaced,
    /// if `LOCAL.part` is a folder, and if their folder cannot be opened.
    pub(crate) fn of<D: Disk<File = F>>(
        disk: &mut D,
        alloc: Global,
        local: &str,
        existing: Existing,
    ) -> Result<Place<F>, LocalError>
        ensures named { OnOk result (local.now ≢ []) }
        ensures paths { IfOk result (λ place. paths_of place.names place.existing
            ≡ paths_for local.now existing) }
        ensures folder { IfOk result (λ place. ∥ IsFolderIn (string_bytes place.names.local)
            place.folder.folder (D.log disk.new) ∥₁) }
        ensures free { OnOk result (FindsPlace (paths_for local.now existing) existing
            (D.log disk.old) (D.log disk.new)) }
        ensures refused { IfErr result (λ error. FindsNone (paths_for local.now existing) existing
            (D.log disk.old) error (D.log disk.new)) }
        ensures keeps { Keeps (paths_for local.now existing) (D.log disk.old) (D.log disk.new) }
    {
        if local.is_empty() {
            return Err(LocalError::EmptyPath);
        }
        match LocalNames::of(alloc, local) {
            Ok(names) => Place::at(disk, names, existing),
            Err(error) => Err(LocalError::from(error)),
        }
    }

    /// The place of a file with these names, if both are free.
    fn at<D: Disk<File = F>>(
        disk: &mut D,
        names: LocalNames,
        existing: Existing,
    ) -> Result<Place<F>, LocalError>
        ensures names { IfOk result (λ place. place.names ≡ names) }
        ensures existing { IfOk result (λ place. place.existing ≡ existing) }
        ensures folder { IfOk result (λ place. ∥ IsFolderIn (string_bytes names.local)
            place.folder.folder (D.log disk.new) ∥₁) }
        ensures free { OnOk result (FindsPlace (paths_of names existing) existing
            (D.log disk.old) (D.log disk.new)) }
        ensures refused { IfErr result (λ error. FindsNone (paths_of names existing) existing
            (D.log disk.old) error (D.log disk.new)) }
        ensures keeps { Keeps (paths_of names existing) (D.log disk.old) (D.log disk.new) }
    {
        match replaced_of(disk.look(names.local.as_str()), existing) {
            Ok(_) => match check_part(disk.look(names.part.as_str())) {
                Ok(()) => match NamedFolder::of(disk, names.local.as_str()) {
                    Ok(folder) => Ok(Place {
                        names,
                        existing,
                        folder,
                    }),
                    Err(error) => Err(LocalError::System(error)),
                },
                Err(error) => Err(error),
            },
            Err(error) => Err(error),
        }
    }
}

/// A file that is fetched, on the disk. `LOCAL.part` is created by the first append, or by the
/// commit of an empty file, and replaces an old one only then. It gets the name `LOCAL` at the
/// commit. Without a commit `LOCAL.part` remains, with the bytes that were appended once
/// [`PartFile::write_out`] has written them.
#[derive(Drop)]
pub(crate) struct PartFile<D: Disk> {
    disk: D,
    alloc: Global,
    names: LocalNames,
    existing: Existing,
    /// The folder of both names.
    folder: NamedFolder<D::File>,
    /// `LOCAL.part`, once it is created.
    written: Option<Written<D::File>>,
    /// Whether it was to get its name: that is tried once.
    is_tried: bool,
    ghost placed: { place_in (string_bytes names.part) written ≡ Some (string_bytes names.part) },
    ghost folder_fits: { ∥ IsFolderIn (string_bytes names.local) folder.folder (D.log disk) ∥₁ },
    ghost still: { is_tried ≡ false
        → ∥ IsStillIn (string_bytes names.part) written (D.log disk) ∥₁ },
}

impl<D: Disk> PartFile<D> {
    /// A file at its place. Nothing is changed on the disk.
    pub(crate) fn new(disk: D, alloc: Global, place: Place<D::File>) -> PartFile<D>
        requires { ∥ IsFolderIn (string_bytes place.names.local) place.folder.folder
            (D.log disk) ∥₁ }
        ensures disk { result.disk ≡ disk }
        ensures names { result.names ≡ place.names }
        ensures existing { result.existing ≡ place.existing }
        ensures empty { bytes_in result.written ≡ [] }
        ensures untried { result.is_tried ≡ false }
    {
        let Place {
            names,
            existing,
            folder,
        } = place;
        PartFile {
            disk,
            alloc,
            names,
            existing,
            folder,
            written: None,
            is_tried: false,
        }
    }

    /// Its disk.
    pub(crate) fn into_disk(self) -> D
        ensures { result ≡ self.disk }
    {
        let PartFile { disk, .. } = self;
        disk
    }

    /// Creates `LOCAL.part`, unless this was done.
    fn create_once(&mut self) -> Result<(), LocalError>
        ensures names { self.new.names ≡ self.old.names }
        ensures existing { self.new.existing ≡ self.old.existing }
        ensures bytes { bytes_in self.new.written ≡ bytes_in self.old.written }
        ensures keeps { Keeps (paths_of self.old.names self.old.existing)
            (D.log self.old.disk) (D.log self.new.disk) }
        ensures some { OnOk result (IsSome self.new.written) }
        ensures tried { self.new.is_tried ≡ self.old.is_tried }
    {
        if self.written.is_some() {
            return Ok(());
        }
        match make_part(&mut self.disk, self.alloc, &self.names, self.existing) {
            Ok(written) => {
                self.written = Some(written);
                Ok(())
            }
            Err(error) => Err(error),
        }
    }

    /// Appends a block, which is buffered. Once its name was tried, the file takes nothing more.
    pub(crate) fn append(&mut self, bytes: &[u8]) -> Result<(), LocalError>
        ensures ok { OnOk result (bytes_in self.new.written
            ≡ bytes_in self.old.written ++ bytes.now) }
        ensures err { OnErr result (bytes_in self.new.written ≡ bytes_in self.old.written) }
        ensures place { KeepsPlace (paths_of self.old.names self.old.existing)
            (paths_of self.new.names self.new.existing) self.old.is_tried self.new.is_tried
            (D.log self.old.disk) (D.log self.new.disk) }
        ensures tried { self.new.is_tried ≡ self.old.is_tried }
        ensures untried { OnOk result (self.old.is_tried ≡ false) }
        ensures same { self.old.is_tried ≡ true → self.new ≡ self.old }
    {
        if self.is_tried {
            return Err(LocalError::PartReplaced);
        }
        self.create_once()?;
        match &mut self.written {
            Some(written) => Ok(written.append(bytes)?),
            None => Ok(()),
        }
    }

    /// Writes the buffer if it is due, and syncs the file every few megabytes.
    pub(crate) fn write_behind(&mut self)
        ensures names { self.new.names ≡ self.old.names }
        ensures existing { self.new.existing ≡ self.old.existing }
        ensures bytes { bytes_in self.new.written ≡ bytes_in self.old.written }
        ensures disk { self.new.disk ≡ self.old.disk }
        ensures tried { self.new.is_tried ≡ self.old.is_tried }
        ensures same { SameIn self.old.written self.new.written }
    {
        if let Some(written) = &mut self.written {
            written.write_behind();
        }
    }

    /// Writes what is buffered, and syncs nothing. A write that fails is not tried again.
    pub(crate) fn write_out(&mut self)
        ensures names { self.new.names ≡ self.old.names }
        ensures existing { self.new.existing ≡ self.old.existing }
        ensures bytes { bytes_in self.new.written ≡ bytes_in self.old.written }
        ensures disk { self.new.disk ≡ self.old.disk }
        ensures tried { self.new.is_tried ≡ self.old.is_tried }
        ensures same { SameIn self.old.written self.new.written }
        ensures written { HasNoRest self.new.written }
    {
        if let Some(written) = &mut self.written {
            written.write_out();
        }
    }

    /// Writes and syncs the file, gives it its name, and syncs the folder. Its name is tried once.
    pub(crate) fn commit(&mut self) -> Result<(), LocalError>
        ensures bytes { bytes_in self.new.written ≡ bytes_in self.old.written }
        ensures place { KeepsPlace (paths_of self.old.names self.old.existing)
            (paths_of self.new.names self.new.existing) self.old.is_tried self.new.is_tried
            (D.log self.old.disk) (D.log self.new.disk) }
        ensures named { OnOk result ∥ WasNamed (paths_of self.old.names self.old.existing)
            (bytes_in self.old.written) (D.log self.new.disk) ∥₁ }
        ensures tried { OnOk result (self.new.is_tried ≡ true) }
        ensures left { OnErr result (self.old.is_tried ≡ false
            → ∥ IsLeftIn (paths_of self.new.names self.new.existing) self.new.written
            (D.log self.new.disk) ∥₁) }
        ensures same { self.old.is_tried ≡ true → self.new ≡ self.old }
    {
        if self.is_tried {
            return Err(LocalError::PartReplaced);
        }
        self.create_once()?;
        let Some(written) = &mut self.written else {
            return Err(LocalError::PartReplaced);
        };
        written.finish()?;
        self.is_tried = true;
        give_name(
            &mut self.disk,
            &self.names,
            self.existing,
            &self.folder,
            written,
        )
    }
}

/// Creates `LOCAL.part`. An old one is removed first; a link there is not followed. It has the
/// permissions of a file that it is to replace.
fn make_part<D: Disk>(
    disk: &mut D,
    alloc: Global,
    names: &LocalNames,
    existing: Existing,
) -> Result<Written<D::File>, LocalError>
    ensures made { IfOk result (λ written. (handed written.writer ≡ [])
        × (made_at (calls_of written.writer) ≡ Some (string_bytes names.now.part))) }
    ensures still { IfOk result (λ written. ∥ IsStillAt (string_bytes names.now.part)
        (made_when (calls_of written.writer)) (D.log disk.new) ∥₁) }
    ensures keeps { Keeps (paths_of names.now existing) (D.log disk.old) (D.log disk.new) }
{
    let replaced = replaced_of(disk.look(names.local.as_str()), existing)?;
    let _ = disk.remove(names.part.as_str());
    let file = disk.make(names.part.as_str())?;
    let mut written = Written::new(file, write_buffer(alloc)?);
    written.keep_permissions(replaced)?;
    Ok(written)
}

/// Fails if `LOCAL.part` was found to be a folder, which cannot be removed, or cannot be a name.
fn check_part(found: io::Result<Found>) -> Result<(), LocalError>
    ensures free { OnOk result (IsPartFree found) }
    ensures taken { IfErr result (IsPartFault found) }
{
    match found {
        Ok(found) => {
            if found.kind == Kind::Folder {
                Err(LocalError::PartIsAFolder)
            } else {
                Ok(())
            }
        }
        Err(error) => {
            if error.kind() == ErrorKind::NotFound {
                Ok(())
            } else {
                Err(LocalError::System(error))
            }
        }
    }
}
