//! The server's files of a script, each found by its path without a search through all of them.

ghost use Rattle.std.specs.Prelude.{◌≡◌, ◌++◌, ◌∷◌, [], true, false, not, is_some, IfOk, OnErr};
ghost use Rattle.std.specs.Prelude.{if◌then◌else◌};
ghost use Rattle.tftp_play.specs.Files.{AreThePaths};
ghost use Rattle.tftp_store.specs.Memory.{contents, has_distinct_paths};
ghost use Rattle.tftp_store.specs.Store.{file_at};

use std::alloc::{AllocError, Global};
use std::collections::BTreeSet;
use tftp_file::Path;

/// Files with distinct paths, in the order of the script.
#[derive(Drop)]
pub(crate) struct Files {
    list: Vec<(Path, Vec<u8>)>,
    paths: BTreeSet<Path>,
    ghost distinct: { has_distinct_paths (contents list.items) ≡ true },
    ghost indexed: { AreThePaths paths list.items },
}

impl Files {
    /// No file.
    pub(crate) fn new(alloc: Global) -> Files
        ensures { result.list.items ≡ [] }
    {
        Files {
            list: Vec::new(alloc),
            paths: BTreeSet::new(alloc),
        }
    }

    /// Adds a file after the others, unless another has its path, and returns whether it is added.
    pub(crate) fn add(&mut self, path: Path, bytes: Vec<u8>) -> Result<bool, AllocError>
        ensures added { IfOk result (λ added. added
            ≡ not (is_some (file_at path (contents self.old.list.items)))) }
        ensures list { IfOk result (λ added. self.new.list.items
            ≡ (if added then self.old.list.items ++ (path, bytes) ∷ [] else self.old.list.items)) }
        ensures err { OnErr result (self.new.list.items ≡ self.old.list.items) }
    {
        match self.paths.insert(path.clone()?) {
            Ok(true) => {}
            Ok(false) => return Ok(false),
            Err(_) => return Err(AllocError),
        }
        match self.list.push((path, bytes)) {
            Ok(()) => Ok(true),
            Err(failed) => {
                self.paths.remove(&failed.value.0);
                Err(AllocError)
            }
        }
    }

    /// The files.
    pub(crate) fn into_list(self) -> Vec<(Path, Vec<u8>)>
        ensures files { result.items ≡ self.list.items }
        ensures distinct { has_distinct_paths (contents result.items) ≡ true }
    {
        let Files { list, paths } = self;
        drop(paths);
        list
    }
}
