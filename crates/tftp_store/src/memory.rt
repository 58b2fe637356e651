//! A store whose files are in memory.

ghost use Rattle.std.specs.Prelude.{◌≡◌, IfOk, IfErr, option_copied, option_map, true, false, List};
ghost use Rattle.std.specs.Prelude.{ℕ, OnOk, OnErr};
ghost use Rattle.tftp_store.specs.Store.{file_at, with_file};
ghost use Rattle.tftp_store.specs.Memory.{contents, in_path_order, has_distinct_paths, with_armed};

use crate::store::{Opening, Store};
use std::alloc::{AllocError, Global};
use std::collections::BTreeMap;
use std::marker::Model;
use tftp_file::{
    FileBytes, MAX_WIRE, MemSource, Path, SharedBytes, StoreFault, wire_length_within,
};
use tftp_wire::Mode;

/// A store in memory. Its model is its files in the order of their paths, and whether it is set to
/// refuse its next append or commit.
///
/// It stores each file once: the sources that it opens and a committed draft share its bytes.
#[derive(Drop)]
pub struct MemStore {
    files: BTreeMap<Path, SharedBytes>,
    refuses_next: bool,
}

impl Model for MemStore {
    ghost use Rattle.tftp_store.specs.Store.{Stored};

    ghost Value = { Stored };

    ghost view = { λ s. record { files = s.files.entries; refuses = s.refuses_next } };
}

impl MemStore {
    /// A store of these files, whose paths are distinct. It fails only with `Memory`.
    pub fn new(alloc: Global, files: Vec<(Path, Vec<u8>)>) -> Result<MemStore, StoreFault>
        requires { has_distinct_paths (contents files.items) ≡ true }
        ensures files { IfOk result (λ store. store.files ≡ in_path_order (contents files.items)) }
        ensures found { IfOk result (λ store. (path : List ℕ)
            → file_at path store.files ≡ file_at path (contents files.items)) }
        ensures unarmed { IfOk result (λ store. store.refuses ≡ false) }
        ensures memory { IfErr result (λ fault. fault ≡ StoreFault.Memory) }
    {
        Ok(MemStore {
            files: in_path_order(alloc, files)?,
            refuses_next: false,
        })
    }

    /// The bytes of the file at the path, if there is one. A clone shares them, and copies none.
    pub fn shared_file(&self, path: &Path) -> Option<&SharedBytes>
        ensures { option_copied result ≡ file_at path.now self.now.files }
    {
        self.files.get(path)
    }

    /// The bytes of the file at the path, if there is one.
    pub fn file(&self, path: &Path) -> Option<&[u8]>
        ensures { option_map (λ bytes. bytes.now) result ≡ file_at path.now self.now.files }
    {
        match self.shared_file(path) {
            Some(bytes) => Some(bytes.as_slice()),
            None => None,
        }
    }

    /// Sets whether the store refuses its next append or commit with `Full`.
    pub fn refuse_next(&mut self, armed: bool)
        ensures { self.new ≡ with_armed self.old armed }
    {
        self.refuses_next = armed;
    }

    /// Whether the store is set to refuse its next append or commit.
    pub fn refuses(&self) -> bool
        ensures { result ≡ self.now.refuses }
    {
        self.refuses_next
    }
}

/// A file that is being written to a [`MemStore`]. Its model is its bytes, and whether they are
/// committed.
#[derive(Debug, Drop)]
pub struct MemDraft {
    bytes: FileBytes,
    is_committed: bool,
}

impl Model for MemDraft {
    ghost use Rattle.tftp_store.specs.Store.{Drafted};

    ghost Value = { Drafted };

    ghost view = { λ d. record { bytes = d.bytes; committed = d.is_committed } };
}

impl MemDraft {
    /// The bytes of the draft.
    pub fn as_bytes(&self) -> &[u8]
        ensures { result.now ≡ self.now.bytes }
    {
        self.bytes.as_slice()
    }

    /// Whether they are committed.
    pub fn is_committed(&self) -> bool
        ensures { result ≡ self.now.committed }
    {
        self.is_committed
    }
}

impl Store for MemStore {
    ghost use Rattle.std.specs.Prelude.{refl};
    ghost use Rattle.tftp_store.specs.Memory.{memory_meaning};

    type Source = MemSource;

    type Draft = MemDraft;

    ghost meaning = { memory_meaning };

    ghost unmoved = { λ _. refl };

    ghost unwritten = { λ _. refl };

    fn open(
        &self,
        _alloc: Global,
        path: &Path,
        mode: Mode,
    ) -> Result<Opening<MemSource>, StoreFault> {
        let Some(bytes) = self.shared_file(path) else {
            return Err(StoreFault::Missing);
        };
        let Ok(shared) = bytes.clone() else {
            return Err(StoreFault::Memory);
        };
        Ok(Opening {
            source: MemSource::of_shared(shared, mode),
            length: wire_length_within(bytes.as_slice(), mode, MAX_WIRE + 1),
        })
    }

    fn begin(&mut self, alloc: Global, path: &Path, replace: bool) -> Result<MemDraft, StoreFault> {
        if !replace && self.files.contains_key(path) {
            return Err(StoreFault::Exists);
        }
        Ok(MemDraft {
            bytes: FileBytes::new(alloc),
            is_committed: false,
        })
    }

    fn append(&mut self, draft: &mut MemDraft, bytes: &[u8]) -> Result<(), StoreFault> {
        if self.refuses_next {
            self.refuses_next = false;
            return Err(StoreFault::Full);
        }
        draft.bytes.append(bytes)?;
        draft.is_committed = false;
        Ok(())
    }

    fn commit(
        &mut self,
        path: &Path,
        draft: &mut MemDraft,
        replace: bool,
    ) -> Result<(), StoreFault> {
        if self.refuses_next {
            self.refuses_next = false;
            return Err(StoreFault::Full);
        }
        if !replace && self.files.contains_key(path) {
            return Err(StoreFault::Exists);
        }
        let Ok(()) = put(&mut self.files, path, &mut draft.bytes) else {
            return Err(StoreFault::Full);
        };
        draft.is_committed = true;
        Ok(())
    }
}

/// The files in the order of their paths.
fn in_path_order(
    alloc: Global,
    files: Vec<(Path, Vec<u8>)>,
) -> Result<BTreeMap<Path, SharedBytes>, AllocError>
    ensures { IfOk result (λ held. held.entries ≡ in_path_order (contents files.items)) }
{
    let mut held = BTreeMap::new(alloc);
    for (path, bytes) in files {
        add(&mut held, path, bytes)?;
    }
    Ok(held)
}

fn add(
    files: &mut BTreeMap<Path, SharedBytes>,
    path: Path,
    bytes: Vec<u8>,
) -> Result<(), AllocError>
    ensures { OnOk result (files.new.entries ≡ with_file files.old.entries path bytes.items) }
{
    let shared = SharedBytes::from_vec(bytes)?;
    files.insert(path, shared)?;
    Ok(())
}

/// Adds the bytes as a file, which shares them. After a fault the files are unchanged.
fn put(
    files: &mut BTreeMap<Path, SharedBytes>,
    path: &Path,
    bytes: &mut FileBytes,
) -> Result<(), AllocError>
    ensures ok { OnOk result (files.new.entries ≡ with_file files.old.entries path.now bytes.old) }
    ensures err { OnErr result (files.new.entries ≡ files.old.entries) }
    ensures bytes { bytes.new ≡ bytes.old }
{
    let path = path.clone()?;
    let shared = bytes.share()?;
    files.insert(path, shared)?;
    Ok(())
}
