//! Begins the draft of a new file.

ghost use Rattle.std.specs.Prelude.{ℕ, ◌≡◌, ◌⊎◌, List, IfOk, IfErr, OnErr};
ghost use Rattle.std.specs.String.{string_bytes};
ghost use Rattle.tftp_file.specs.Path.{IsPath};
ghost use Rattle.tftp_disk.specs.Changes.{changes};
ghost use Rattle.tftp_disk.specs.DiskFault.{MayNotName, is_replaced};
ghost use Rattle.tftp_folder.specs.Begin.{draft_name, TriesDraft};
ghost use Rattle.tftp_folder.specs.Draft.{BeginsAt, IsThere};
ghost use Rattle.tftp_folder.specs.Inside.{IsInside, StaysInside};
ghost use Rattle.tftp_folder.specs.Opened.{follows};
ghost use Rattle.tftp_folder.specs.Placed.{LeavesOthers};
ghost use Rattle.tftp_folder.specs.Reached.{ReachesNames};
ghost use Rattle.tftp_folder.specs.Uploads.{path_below};

use crate::folder_draft::FolderDraft;
use crate::making::MadeDraft;
use crate::served_folder::ServedFolder;
use std::alloc::Global;
use tftp_disk::{Disk, DiskWriter, Existing, write_buffer};
use tftp_file::{Path, StoreFault};
use tftp_lines::Reason;

/// The memory of a draft, which it has before the disk is asked.
#[derive(Drop)]
pub(crate) struct DraftMemory {
    /// The path of the file after the commit.
    target: String,
    /// The first path of the draft.
    draft: String,
    buffer: Vec<u8>,
}

impl DraftMemory {
    /// The memory of a draft of this path, of the transfer at the port.
    pub(crate) fn new(
        served: &ServedFolder,
        alloc: Global,
        path: &Path,
        port: u16,
    ) -> Result<DraftMemory, StoreFault>
        ensures draft { IfOk result (λ memory. string_bytes memory.draft
            ≡ draft_name (string_bytes served.now.drafts) port) }
        ensures target { IfOk result (λ memory. string_bytes memory.target
            ≡ path_below (string_bytes served.now.root) path.now) }
        ensures path { IfOk result (λ _. IsPath path.now) }
        ensures fault { IfErr result (λ fault. (fault ≡ StoreFault.Io)
            ⊎ (fault ≡ StoreFault.Memory)) }
    {
        let target = match served.path_of(alloc, path) {
            Ok(target) => target,
            Err(StoreFault::Memory) => return Err(StoreFault::Memory),
            Err(_) => return Err(served.refused(Reason::NoFolder)),
        };
        Ok(DraftMemory {
            target,
            draft: served.draft_path(alloc, port)?,
            buffer: write_buffer(alloc)?,
        })
    }
}

/// Finds the place of the path, and makes its draft. It has the permissions of a file that it is to
/// replace.
pub(crate) fn begin_draft<D: Disk>(
    served: &ServedFolder,
    disk: &mut D,
    alloc: Global,
    path: &Path,
    port: u16,
    memory: DraftMemory,
    existing: Existing,
) -> Result<FolderDraft<D::File>, StoreFault>
    requires { string_bytes memory.draft ≡ draft_name (string_bytes served.now.drafts) port }
    ensures fault { IfErr result (MayNotName (is_replaced existing)) }
    ensures ok { IfOk result (λ draft. BeginsAt (string_bytes served.now.drafts) port
        (string_bytes memory.target) draft (changes (D.log disk.old)) (changes (D.log disk.new))) }
    ensures err { OnErr result (TriesDraft (string_bytes served.now.drafts) port
        (changes (D.log disk.old)) (changes (D.log disk.new))) }
    ensures there { IfOk result (λ draft. IsThere draft (D.log disk.new)) }
    ensures others { LeavesOthers (string_bytes served.now.drafts) port (D.log disk.old)
        (D.log disk.new) }
    ensures reaches { (root : List ℕ) → ReachesNames root (D.log disk.old) (D.log disk.new) }
    ensures follows { follows (D.log disk.new) ≡ follows (D.log disk.old) }
    ensures inside { IsInside (string_bytes served.now.root) (string_bytes served.now.drafts)
        → IsInside (string_bytes served.now.root) (string_bytes memory.target)
        → StaysInside (string_bytes served.now.root) (D.log disk.old) (D.log disk.new) }
{
    let DraftMemory {
        target,
        draft,
        buffer,
    } = memory;
    let place = served.place_to_write(disk, path, target.as_str(), existing)?;
    let made = served.make_draft(disk, alloc, port, draft)?;
    let MadeDraft { path, file } = made;
    let writer = DiskWriter::new(file, buffer);
    let mut draft = FolderDraft::new(writer, port, path, target, place.folder);
    match place.replaced {
        Some(found) => match draft.take_permissions(&found) {
            Ok(_) => Ok(draft),
            Err(error) => Err(served.write_refused(&error)),
        },
        None => Ok(draft),
    }
}
