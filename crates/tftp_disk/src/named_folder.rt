//! The folder in which a file gets its name: it is synced after that.

ghost use Rattle.std.specs.Prelude.{◌∷◌, Err, ◌≡◌, ◌⊎◌, ◌↔◌, IsTrue, IfOk, IfErr, OnOk, OnErr};
ghost use Rattle.tftp_disk.specs.Changes.{changes, renames};
ghost use Rattle.tftp_disk.specs.NamedFolder.{OpensFolder, OpensNoFolder, IsFolderFor, SyncsFolder};
ghost use Rattle.tftp_disk.specs.NamedFolder.{SyncsNoFolder, path_in, OpensAlone, SyncsAlone};
ghost use Rattle.tftp_disk.specs.DiskTrace.DiskEvent.{Folder_synced};

use crate::disk::Disk;
use crate::disk_file::DiskFolder;
use crate::folder::folder_of;
use std::io::{self, ErrorKind};

/// The open folder of a path. It is opened before a name is given there, so that no name is given
/// in a folder that cannot be synced.
#[derive(Drop)]
pub struct NamedFolder<F> {
    /// `None` if the user may not read it: a folder without that permission is not synced.
    folder: Option<DiskFolder<F>>,
}

impl<F> NamedFolder<F> {
    /// Opens the folder of a path.
    pub fn of<D: Disk<File = F>>(disk: &mut D, path: &str) -> io::Result<NamedFolder<F>>
        ensures ok { IfOk result (λ folder. OpensFolder path.now folder.folder
            (changes (D.log disk.old)) (changes (D.log disk.new))) }
        ensures err { OnErr result (OpensNoFolder path.now
            (changes (D.log disk.old)) (changes (D.log disk.new))) }
        ensures fits { IfOk result (λ folder. IsFolderFor path.now folder.folder
            (changes (D.log disk.new))) }
        ensures renames { renames (D.log disk.new) ≡ renames (D.log disk.old) }
        ensures calls { OpensAlone path.now (D.log disk.old) (D.log disk.new) }
    {
        match disk.open_folder(folder_of(path)) {
            Ok(folder) => Ok(NamedFolder {
                folder: Some(folder),
            }),
            Err(error) => {
                if error.kind() == ErrorKind::PermissionDenied {
                    Ok(NamedFolder { folder: None })
                } else {
                    Err(error)
                }
            }
        }
    }

    /// Syncs the folder, if its file system supports that.
    pub fn sync<D: Disk<File = F>>(&self, disk: &mut D) -> io::Result<()>
        ensures ok { OnOk result (SyncsFolder self.now.folder
            (changes (D.log disk.old)) (changes (D.log disk.new))) }
        ensures err { IfErr result (λ error. SyncsNoFolder self.now.folder
            (changes (D.log disk.old)) error (changes (D.log disk.new))) }
        ensures unsynced { IfErr result (λ error. changes (D.log disk.new)
            ≡ Folder_synced (path_in self.now.folder) (Err error) ∷ changes (D.log disk.old)) }
        ensures renames { renames (D.log disk.new) ≡ renames (D.log disk.old) }
        ensures calls { SyncsAlone self.now.folder (D.log disk.old) (D.log disk.new) }
    {
        let Some(folder) = &self.folder else {
            return Ok(());
        };
        match disk.sync_folder(folder) {
            Ok(()) => Ok(()),
            Err(error) => {
                if is_unsupported(error.kind()) {
                    Ok(())
                } else {
                    Err(error)
                }
            }
        }
    }
}

/// Whether the error means that the file system cannot sync a folder.
fn is_unsupported(kind: ErrorKind) -> bool
    ensures { IsTrue result ↔ (kind ≡ ErrorKind.InvalidInput) ⊎ (kind ≡ ErrorKind.Unsupported) }
{
    kind == ErrorKind::InvalidInput || kind == ErrorKind::Unsupported
}
