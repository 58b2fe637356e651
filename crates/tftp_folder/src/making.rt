//! Makes the file of a draft, under a name that no other server's draft has.
//!
//! A server has the lock of each draft that it writes. So an old file is removed only by who locked
//! it, and a draft that another server writes is left, whoever that is: the next name is tried.

ghost use Rattle.std.specs.Prelude.{◌≡◌, ◌↔◌, ◌⊎◌, IfOk, IfErr, IfSome, OnErr, IsTrue};
ghost use Rattle.std.specs.String.{string_bytes};
ghost use Rattle.tftp_disk.specs.DiskFault.{MayNotStore};
ghost use Rattle.tftp_folder.specs.Begin.{draft_name, later_name, DraftCalls, IsMade, IsMadeFor};
ghost use Rattle.tftp_folder.specs.Begin.{TriesAt};
ghost use Rattle.tftp_folder.specs.Looked.{LooksFor, RemovesOwn};

use crate::folder_draft::is_found;
use crate::served_folder::ServedFolder;
use std::alloc::{AllocError, Global};
use std::fs::OpenFile;
use std::io::{self, ErrorKind};
use tftp_disk::{Disk, DiskFile, Kind, Looks};
use tftp_file::StoreFault;
use tftp_lines::Reason;

/// How many names the draft of a transfer may have: as many servers may have one open at a port of
/// the same number.
const MOST_NAMES: u32 = 64;

/// The file of a draft, and its path.
#[derive(Drop)]
pub(crate) struct MadeDraft<F> {
    pub(crate) path: String,
    pub(crate) file: DiskFile<F>,
}

impl ServedFolder {
    /// The first path of the draft of the transfer at the port.
    pub(crate) fn draft_path(&self, alloc: Global, port: u16) -> Result<String, AllocError>
        ensures { IfOk result (λ path. string_bytes path
            ≡ draft_name (string_bytes self.now.drafts) port) }
    {
        let folder = self.drafts.as_str();
        format!(in alloc; "{folder}/.tftp-{port}")
    }

    /// A later path of that draft.
    fn later_path(&self, alloc: Global, port: u16, turn: u32) -> Result<String, AllocError>
        ensures { IfOk result (λ path. string_bytes path
            ≡ later_name (string_bytes self.now.drafts) port turn) }
    {
        let drafts = self.drafts.as_str();
        format!(in alloc; "{drafts}/.tftp-{port}-{turn}")
    }

    /// Makes the file of the draft of the transfer at the port, after removing an old one of that
    /// name: at this first path, or at the first of the later ones that is no other server's.
    pub(crate) fn make_draft<D: Disk>(
        &self,
        disk: &mut D,
        alloc: Global,
        port: u16,
        first: String,
    ) -> Result<MadeDraft<D::File>, StoreFault>
        requires { string_bytes first ≡ draft_name (string_bytes self.now.drafts) port }
        ensures fault { IfErr result MayNotStore }
        ensures ok { IfOk result (λ made. IsMadeFor (string_bytes self.now.drafts) port
            (string_bytes made.path) made.file.trace.events (D.log disk.old) (D.log disk.new)) }
        ensures err { OnErr result (DraftCalls (string_bytes self.now.drafts) port
            (D.log disk.old) (D.log disk.new)) }
    {
        match make_own(disk, first.as_str()) {
            Ok(Some(file)) => Ok(MadeDraft { path: first, file }),
            Ok(None) => self.make_later(disk, alloc, port),
            Err(error) => Err(self.draft_refused(&error)),
        }
    }

    /// Makes the file at one of the later paths.
    fn make_later<D: Disk>(
        &self,
        disk: &mut D,
        alloc: Global,
        port: u16,
    ) -> Result<MadeDraft<D::File>, StoreFault>
        ensures fault { IfErr result MayNotStore }
        ensures ok { IfOk result (λ made. IsMadeFor (string_bytes self.now.drafts) port
            (string_bytes made.path) made.file.trace.events (D.log disk.old) (D.log disk.new)) }
        ensures err { OnErr result (DraftCalls (string_bytes self.now.drafts) port
            (D.log disk.old) (D.log disk.new)) }
    {
        for turn in 1..MOST_NAMES {
            let Ok(path) = self.later_path(alloc, port, turn) else {
                return Err(StoreFault::Full);
            };
            match make_own(disk, path.as_str()) {
                Ok(Some(file)) => return Ok(MadeDraft { path, file }),
                Ok(None) => {}
                Err(error) => return Err(self.draft_refused(&error)),
            }
        }
        Err(self.refused(Reason::DraftReplaced))
    }
}

/// Makes and locks the file of a draft at this path, after removing an old one; `None` if the path is
/// another server's.
fn make_own<D: Disk>(disk: &mut D, path: &str) -> io::Result<Option<DiskFile<D::File>>>
    ensures made { IfOk result (λ made. IfSome made (λ file. IsMade path.now file.trace.events
        (D.log disk.old) (D.log disk.new))) }
    ensures tries { TriesAt path.now (D.log disk.old) (D.log disk.new) }
{
    if !clear(disk, path) {
        return Ok(None);
    }
    let mut file = match disk.make_locked(path) {
        Ok(file) => file,
        Err(error) => {
            if is_taken(error.kind()) {
                return Ok(None);
            }
            return Err(error);
        }
    };
    // It is the draft's own only if it is at the path by now: who found it there before may have
    // removed it.
    if is_own(&mut file, disk, path) {
        Ok(Some(file))
    } else {
        Ok(None)
    }
}

/// Whether the error means that another server made or locked the file.
fn is_taken(kind: ErrorKind) -> bool
    ensures { IsTrue result ↔ (kind ≡ ErrorKind.AlreadyExists) ⊎ (kind ≡ ErrorKind.WouldBlock) }
{
    kind == ErrorKind::AlreadyExists || kind == ErrorKind::WouldBlock
}

/// Removes an old draft of this path, unless another server writes it. Whether a draft can be made
/// there now.
fn clear<D: Disk>(disk: &mut D, path: &str) -> bool
    ensures { TriesAt path.now (D.log disk.old) (D.log disk.new) }
{
    match disk.look(path) {
        Ok(found) => {
            // Opening a FIFO would wait.
            if found.kind != Kind::Regular {
                return false;
            }
            match disk.lock(path) {
                Ok(mut old) => remove_own(disk, &mut old, path),
                Err(_) => false,
            }
        }
        Err(error) => error.kind() == ErrorKind::NotFound,
    }
}

/// Removes the file at the path, if it is the one that was just locked: as long as that is open, no
/// other server removes it.
fn remove_own<D: Disk>(disk: &mut D, old: &mut DiskFile<D::File>, path: &str) -> bool
    ensures { RemovesOwn path.now old.old.trace.events old.new.trace.events (D.log disk.old)
        (D.log disk.new) }
{
    if !is_own(old, disk, path) {
        return false;
    }
    disk.remove(path).is_ok()
}

/// Whether the path is that of the open file, by device and inode.
fn is_own<F: OpenFile, L: Looks>(file: &mut DiskFile<F>, looks: &mut L, path: &str) -> bool
    ensures { LooksFor path.now file.old.trace.events file.new.trace.events (L.log looks.old)
        (L.log looks.new) result }
{
    let opened = file.examine();
    let found = looks.look(path);
    is_found(opened, found)
}
