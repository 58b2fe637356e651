//! A store over the files in a folder and its subfolders.

ghost use Rattle.std.specs.IoError.{error_kind};
ghost use Rattle.std.specs.Prelude.{◌≡◌, ◌≢◌, ℕ, List, true, false, None, Some, Ok, Err, IfOk};
ghost use Rattle.std.specs.Prelude.{IfErr, ◌↔◌};
ghost use Rattle.std.specs.Prelude.{[], ◌++◌, ◌⊎◌, codes, IfSome, OnOk, OnErr};
ghost use Rattle.std.specs.String.{string_bytes};
ghost use Rattle.tftp_disk.specs.Changes.{changes};
ghost use Rattle.tftp_disk.specs.DiskFault.{IsNotThere, MayNotOpen, MayNotStore, MayNotName};
ghost use Rattle.tftp_disk.specs.DiskFault.{is_replaced};
ghost use Rattle.tftp_disk.specs.Given.{examined, is_at_start};
ghost use Rattle.tftp_disk.specs.Measuring.{calls_on, StaysOpen};
ghost use Rattle.tftp_folder.specs.Inside.{StaysInside};
ghost use Rattle.tftp_folder.specs.Opened.{IsRootOf, follows};
ghost use Rattle.tftp_folder.specs.Placed.{StaysThere};
ghost use Rattle.tftp_folder.specs.Reached.{ReachesNames};
ghost use Rattle.tftp_folder.specs.Commit.{LooksThenRenames};
ghost use Rattle.tftp_folder.specs.Counted.{lengths_in};
ghost use Rattle.tftp_folder.specs.Draft.{bytes_of, GivesName, IsDraftBelow, IsWhole};
ghost use Rattle.tftp_folder.specs.Draft.{IsThere, IsWrittenOut, NamesNothing, SameNames};
ghost use Rattle.tftp_folder.specs.Settings.{AsksNothing, SameSettings};
ghost use Rattle.tftp_folder.specs.Source.{StatesLength, counted_by};
ghost use Rattle.tftp_folder.specs.Uploads.{IsBelow, path_below, path_of_folder, without_last_slash};

use crate::beginning::{DraftMemory, begin_draft};
use crate::below::is_below;
use crate::folder_draft::FolderDraft;
use crate::folder_source::{FolderSource, SharedReason};
use crate::measured::StatedLength;
use crate::naming::{NameFault, give_name, has_no_link};
use crate::served_folder::ServedFolder;
use crate::wire_lengths::{WireLengths, check_empty};
use std::alloc::Global;
use std::cell::Cell;
use std::io::{self, ErrorKind};
use tftp_disk::{Disk, DiskFile, Existing, Found, Kind, Looks, View};
use tftp_file::{Path, PathFault, StoreFault, path_of};
use tftp_lines::{Reason, reason_of};
use tftp_store::{Opening, ServedStore, Store};
use tftp_wire::Mode;

/// The system's number of an error for a file that is missing.
const ENOENT: i32 = 2;

/// The system's number of an error for a file where a folder is wanted.
const ENOTDIR: i32 = 20;

/// The files in a folder and its subfolders. It has no model: the contents of a disk can change
/// between calls.
///
/// A name opens only a regular file within the folder. Links are followed if their target is within
/// the folder. A new file is written as a draft, `.tftp-PORT` in the folder or in the one that
/// takes all uploads. At the commit it gets its name by a hard link, or by a rename if it replaces
/// a file.
#[derive(Drop)]
pub struct FolderStore<D: Disk> {
    /// The disk, of whose calls those of an opening are the source's.
    disk: D,
    folder: ServedFolder,
    /// Every write is refused.
    is_read_only: bool,
    /// The folder below the root that takes all writes, if not every folder does.
    uploads: Option<Path>,
    port: u16,
    lengths: WireLengths,
    /// The port of a transfer whose draft is to be synced.
    unsynced: Cell<Option<u16>>,
    /// Whether the next `write_behind` may sync.
    may_sync: Cell<bool>,
}

impl<D: Disk> FolderStore<D> {
    /// The store over a folder, which remembers the lengths of netascii files in at most so many bytes
    /// of memory. It fails with `NotADirectory` if `root` is no folder, with the system's error if
    /// `root` cannot be resolved, or when out of memory.
    pub fn new(
        mut disk: D,
        alloc: Global,
        root: &str,
        length_memory: u64,
    ) -> io::Result<FolderStore<D>>
        ensures lengths { IfOk result (λ store. store.lengths.most ≡ lengths_in length_memory) }
        ensures settings { IfOk result (λ store. (store.is_read_only ≡ false)
            × (store.uploads ≡ None)) }
        ensures root { IfOk result (λ store. IsRootOf root.now (string_bytes store.folder.root)
            (D.log disk) (D.log store.disk)) }
        ensures drafts { IfOk result (λ store. string_bytes store.folder.drafts
            ≡ string_bytes store.folder.root) }
        ensures looks { IfOk result (λ store. changes (D.log store.disk)
            ≡ changes (D.log disk)) }
        ensures inside { IfOk result (λ store. StaysInside (string_bytes store.folder.root)
            (D.log disk) (D.log store.disk)) }
    {
        let folder = served_root(&mut disk, alloc, root)?;
        let lengths = WireLengths::new(alloc, length_memory)?;
        Ok(FolderStore {
            disk,
            folder,
            is_read_only: false,
            uploads: None,
            port: 0,
            lengths,
            unsynced: Cell::new(None),
            may_sync: Cell::new(false),
        })
    }

    /// Refuses every later write; the client receives an access violation.
    pub fn refuse_writes(&mut self)
        ensures { self.new ≡ record self.old { is_read_only = true } }
    {
        self.is_read_only = true;
    }

    /// Refuses every later write but those below this folder of the root, which is named as a
    /// client names a file, perhaps with a slash behind it. Drafts are made there.
    ///
    /// It fails with `NotFound` also if no client can name the folder, with `NotADirectory` if it
    /// is no folder or a link, with the system's error, or when out of memory.
    pub fn admit_uploads(&mut self, alloc: Global, folder: &str) -> io::Result<()>
        ensures ok { IfOk result (λ _. (path : List ℕ) × (path_of_folder folder.now ≡ Ok path)
            × (self.new.uploads ≡ Some path)
            × (string_bytes self.new.folder.drafts
            ≡ path_below (string_bytes self.old.folder.root) path)) }
        ensures rest { self.new ≡ record self.old {
          uploads = self.new.uploads;
          folder = record self.old.folder { drafts = self.new.folder.drafts };
          disk = self.new.disk;
        } }
        ensures err { OnErr result (self.new ≡ record self.old {
          disk = self.new.disk;
        }) }
        ensures looks { changes (D.log self.new.disk) ≡ changes (D.log self.old.disk) }
        ensures follows { follows (D.log self.new.disk) ≡ follows (D.log self.old.disk) }
        ensures inside { StaysInside (string_bytes self.old.folder.root) (D.log self.old.disk)
            (D.log self.new.disk) }
    {
        let path = match path_of(alloc, without_last_slash(folder.as_bytes())) {
            Ok(path) => path,
            Err(PathFault::Memory) => return Err(io::Error::from(ErrorKind::OutOfMemory)),
            Err(_) => return Err(io::Error::from_raw_os_error(ENOENT)),
        };
        match folder_below(&self.folder, &mut self.disk, alloc, path.as_bytes()) {
            Ok(drafts) => {
                self.folder.drafts = drafts;
                self.uploads = Some(path);
                Ok(())
            }
            Err(error) => Err(error),
        }
    }

    /// The length of an opened file on the wire. `Io` if the file cannot be read, or has a byte
    /// though its length is 0.
    fn measure(
        &self,
        file: &mut DiskFile<<D::View as View>::File>,
        found: &Found,
        mode: Mode,
    ) -> Result<StatedLength, StoreFault>
        requires start { is_at_start (calls_on file.old) ≡ true }
        requires told { examined (calls_on file.old) ≡ Some found.now }
        ensures fault { IfErr result MayNotOpen }
        ensures stated { IfOk result (λ stated. StatesLength self.now.lengths.longest mode found.now
            (counted_by stated) stated.bytes) }
        ensures start { OnOk result (is_at_start (calls_on file.new) ≡ true) }
        ensures stays { StaysOpen file.old file.new }
    {
        if let Err(error) = check_empty(file, found) {
            return Err(self.not_empty(&error));
        }
        match self
            .lengths
            .length_of(file, found, mode, self.disk.seconds())
        {
            Ok(stated) => Ok(stated),
            Err(error) => Err(self.folder.refused(reason_of(&error))),
        }
    }

    /// The fault of a file that states a length of 0 and is not known to be empty; keeps the reason.
    fn not_empty(&self, error: &io::Error) -> StoreFault
        ensures opened { MayNotOpen result }
        ensures missing { result ≡ StoreFault.Missing ↔ IsNotThere (error_kind error.now) }
        ensures memory { result ≡ StoreFault.Memory
            ↔ (error_kind error.now ≡ ErrorKind.OutOfMemory) }
    {
        if error.kind() == ErrorKind::InvalidData {
            self.folder.refused(Reason::LengthUnknown)
        } else {
            self.folder.open_refused(error)
        }
    }

    /// Whether a file may be written at the path.
    fn check_admitted(&self, path: &Path) -> Result<(), StoreFault>
        ensures io { IfErr result (λ fault. fault ≡ StoreFault.Io) }
        ensures writes { IfOk result (λ _. self.now.is_read_only ≡ false) }
        ensures below { IfOk result (λ _. IfSome self.now.uploads (λ folder.
            IsBelow folder path.now)) }
    {
        if self.is_read_only {
            return Err(self.folder.refused(Reason::ReadOnlyServer));
        }
        match &self.uploads {
            Some(folder) if !is_below(folder.as_bytes(), path.as_bytes()) => {
                Err(self.folder.refused(Reason::NotInUploads))
            }
            _ => Ok(()),
        }
    }

    /// Writes and syncs a draft, and gives it its name.
    fn name_draft(
        &mut self,
        draft: &mut FolderDraft<D::File>,
        replace: bool,
    ) -> Result<(), StoreFault>
        ensures refused { IfErr result (MayNotName replace) }
        ensures settings { SameSettings self.old self.new }
        ensures not_memory { result ≢ Err StoreFault.Memory }
        ensures named { OnOk result (GivesName draft.new (changes (D.log self.old.disk)) replace
            (changes (D.log self.new.disk))) }
        ensures whole { OnOk result (IsWhole draft.new (bytes_of draft.old)) }
        ensures names { SameNames draft.old draft.new }
        ensures not_named { OnErr result (NamesNothing draft.new (changes (D.log self.old.disk))
            replace (changes (D.log self.new.disk))) }
        ensures over { LooksThenRenames replace (string_bytes draft.old.target)
            (D.log self.old.disk) (D.log self.new.disk) }
        ensures there { IsThere draft.old (D.log self.old.disk)
            → StaysThere (D.log self.old.disk) (D.log self.new.disk) }
        ensures reaches { ReachesNames (string_bytes self.old.folder.root)
            (D.log self.old.disk) (D.log self.new.disk) }
        ensures follows { follows (D.log self.new.disk) ≡ follows (D.log self.old.disk) }
        ensures inside { IsDraftBelow (string_bytes self.old.folder.root) draft.old
            → StaysInside (string_bytes self.old.folder.root) (D.log self.old.disk)
            (D.log self.new.disk) }
    {
        if let Err(error) = draft.finish() {
            return Err(self.folder.write_refused(&error));
        }
        let existing = Existing::of(replace);
        match give_name(&mut self.disk, self.folder.root.as_str(), draft, existing) {
            Ok(()) => Ok(()),
            Err(NameFault::System(error)) => Err(self.folder.name_refused(&error, existing)),
            Err(NameFault::Rule(reason)) => Err(self.folder.rule_refused(reason, existing)),
        }
    }
}

/// The folder of a path, by its canonical path without a trailing slash. Its drafts are in it.
fn served_root<L: Looks>(looks: &mut L, alloc: Global, root: &str) -> io::Result<ServedFolder>
    ensures root { IfOk result (λ served. IsRootOf root.now (string_bytes served.root)
        (L.log looks.old) (L.log looks.new)) }
    ensures drafts { IfOk result (λ served. string_bytes served.drafts
        ≡ string_bytes served.root) }
    ensures looks { changes (L.log looks.new) ≡ changes (L.log looks.old) }
    ensures inside { IfOk result (λ served. StaysInside (string_bytes served.root)
        (L.log looks.old) (L.log looks.new)) }
{
    let canonical = looks.resolve(alloc, root)?;
    let text = canonical.as_str();
    if looks.follow(text)?.kind != Kind::Folder {
        return Err(io::Error::from_raw_os_error(ENOTDIR));
    }
    let root = String::from_str(alloc, as_folder(text))?;
    let drafts = root.clone()?;
    let reason = SharedReason::new(alloc)?;
    Ok(ServedFolder {
        root,
        drafts,
        reason,
    })
}

/// A path without its last slash, if it has one.
fn as_folder(path: &str) -> &str
    ensures { (path.now ≡ result.now) ⊎ (path.now ≡ result.now ++ codes "/") }
{
    match path.strip_suffix("/") {
        Some(front) => front,
        None => path,
    }
}

/// The name of a folder without its last slash, as a shell completes it.
fn without_last_slash(name: &[u8]) -> &[u8]
    ensures { result.now ≡ without_last_slash name.now }
{
    match name.last() {
        Some(last) => {
            if *last == b'/' {
                &name[..name.len() - 1]
            } else {
                name
            }
        }
        None => name,
    }
}

/// The path of a folder below the root, which no link leads to.
fn folder_below<L: Looks>(
    served: &ServedFolder,
    looks: &mut L,
    alloc: Global,
    name: &[u8],
) -> io::Result<String>
    ensures ok { IfOk result (λ folder.
        string_bytes folder ≡ path_below (string_bytes served.now.root) name.now) }
    ensures looks { changes (L.log looks.new) ≡ changes (L.log looks.old) }
    ensures follows { follows (L.log looks.new) ≡ follows (L.log looks.old) }
    ensures inside { StaysInside (string_bytes served.now.root) (L.log looks.old)
        (L.log looks.new) }
{
    let Ok(name) = str::from_utf8(name) else {
        return Err(io::Error::from_raw_os_error(ENOENT));
    };
    let root = served.root.as_str();
    let folder = format!(in alloc; "{root}/{name}")?;
    let is_folder = looks.look(folder.as_str())?.kind == Kind::Folder;
    if is_folder && has_no_link(looks, root, folder.as_str()) {
        Ok(folder)
    } else {
        Err(io::Error::from_raw_os_error(ENOTDIR))
    }
}

impl<D: Disk> ServedStore<Reason> for FolderStore<D> {
    ghost use Rattle.std.specs.Prelude.{◌≡◌};

    ghost written_out = { IsWrittenOut };

    ghost is_bounded = { λ store bytes. store.lengths.longest ≡ bytes };

    fn set_port(&mut self, port: u16)
        ensures settings { AsksNothing D.log self.old self.new }
        ensures port { self.new.port ≡ port }
    {
        self.port = port;
    }

    fn set_longest(&mut self, bytes: u64)
        ensures settings { AsksNothing D.log self.old self.new }
        ensures port { self.new.port ≡ self.old.port }
        ensures longest { self.new.lengths.longest ≡ bytes }
    {
        self.lengths.set_longest(bytes);
    }

    /// `None` if no call was refused, or if the fault was `Missing`, or `Exists` of a file that is
    /// there.
    fn take_reason(&self) -> Option<Reason> {
        self.folder.reason.take()
    }

    fn take_unsynced(&self) -> Option<u16> {
        self.unsynced.replace(None)
    }

    fn let_sync(&self) {
        self.may_sync.set(true);
    }

    fn write_out(&self, draft: &mut FolderDraft<D::File>) {
        draft.write_out();
    }
}

impl<D: Disk> Store for FolderStore<D> {
    ghost use Rattle.std.specs.Prelude.{◌≡◌, ◌≢◌, refl, None, true, IfOk, IfErr, IsErrOf};
    ghost use Rattle.std.specs.Result.{result_err};
    ghost use Rattle.std.specs.String.{string_bytes};
    ghost use Rattle.tftp_disk.specs.DiskFault.{MayNotOpen, MayNotStore, MayNotBegin, MayNotName};
    ghost use Rattle.tftp_folder.specs.Effects.{folder_meaning, HasBegun, HasAppended};
    ghost use Rattle.tftp_folder.specs.Effects.{HasCommitted};
    ghost use Rattle.tftp_folder.specs.Source.{OpensSource, StatesOpened};

    type Source = FolderSource<D::View>;

    type Draft = FolderDraft<D::File>;

    ghost meaning = { folder_meaning D.log };

    ghost unmoved = { λ _. record {
      settings = record { read_only = refl; uploads = refl; root = refl; drafts = refl };
      calls = refl;
    } };

    ghost unwritten = { λ _. record {
      names = record { draft = refl; target = refl; folder = refl; port = refl; making = refl };
      handed = refl;
    } };

    fn open(
        &self,
        alloc: Global,
        path: &Path,
        mode: Mode,
    ) -> Result<Opening<FolderSource<D::View>>, StoreFault>
        ensures refused { IfErr result MayNotOpen }
        ensures opened { IfOk result (λ opening. OpensSource D.View.log
            (string_bytes self.now.folder.root) path.now mode opening.length opening.source) }
        ensures stated { IfOk result (StatesOpened self.now.lengths.longest mode) }
    {
        self.folder.reason.clear();
        let mut view = self.disk.view();
        let opened = self.folder.open_file(&mut view, alloc, path)?;
        let mut file = opened.file;
        let stated = self.measure(&mut file, &opened.found, mode)?;
        let reason = self.folder.reason.share()?;
        match FolderSource::new(alloc, file, view, mode, &stated, reason) {
            Ok(source) => Ok(Opening {
                source,
                length: stated.bytes,
            }),
            Err(_) => Err(StoreFault::Memory),
        }
    }

    /// It follows no link, creates no folder and replaces only regular files that the server's user
    /// may write. A store that refuses writes, or a path that is not below the folder of all
    /// uploads, returns `Io` without any file access.
    fn begin(
        &mut self,
        alloc: Global,
        path: &Path,
        replace: bool,
    ) -> Result<FolderDraft<D::File>, StoreFault>
        ensures refused { IfErr result (MayNotBegin replace) }
        ensures begun { HasBegun D.log path.now self.old self.new result }
        ensures memory { IsErrOf result StoreFault.Memory → self.new ≡ self.old }
        ensures untouched { self.old.is_read_only ≡ true → self.new ≡ self.old }
    {
        self.folder.reason.clear();
        self.check_admitted(path)?;
        // Memory comes first: a call that is out of memory leaves the store unchanged.
        let memory = DraftMemory::new(&self.folder, alloc, path, self.port)?;
        let existing = Existing::of(replace);
        begin_draft(
            &self.folder,
            &mut self.disk,
            alloc,
            path,
            self.port,
            memory,
            existing,
        )
    }

    fn append(&mut self, draft: &mut FolderDraft<D::File>, bytes: &[u8]) -> Result<(), StoreFault>
        ensures refused { IfErr result MayNotStore }
        ensures after { HasAppended D.log self.old draft.old bytes.now self.new draft.new
            (result_err result) }
        ensures memory { IsErrOf result StoreFault.Memory → (self.new ≡ self.old)
            × (draft.new ≡ draft.old) }
        ensures untouched { self.new ≡ self.old }
    {
        match draft.append(bytes) {
            Ok(()) => Ok(()),
            Err(error) => Err(self.folder.write_refused(&error)),
        }
    }

    /// The draft is synced before it gets its name, and the folder before this returns. A new name
    /// is a hard link, which never replaces a file. If the system refuses the link, the draft is
    /// renamed once no file was found, under a lock of the name; `Exists` also if that is there. To
    /// replace a file the draft is renamed, which leaves the old file or the new one; what has the
    /// name by then is looked at once more, as at the request, and the new file has its
    /// permissions. `Io` if the path of the draft names another file, or the path of its folder
    /// another folder: before the name is given, or when it is looked at again.
    fn commit(
        &mut self,
        _path: &Path,
        draft: &mut FolderDraft<D::File>,
        replace: bool,
    ) -> Result<(), StoreFault>
        ensures refused { IfErr result (MayNotName replace) }
        ensures after { HasCommitted D.log self.old draft.old replace self.new draft.new
            (result_err result) }
        ensures not_memory { result ≢ Err StoreFault.Memory }
    {
        match self.name_draft(draft, replace) {
            Ok(()) => Ok(()),
            Err(fault) => Err(fault),
        }
    }

    fn write_behind(&mut self, draft: &mut FolderDraft<D::File>) {
        if self.may_sync.replace(false) {
            draft.sync();
            return;
        }
        draft.write_behind();
        if draft.is_to_sync() {
            self.unsynced.set(Some(draft.port));
        }
    }
}
