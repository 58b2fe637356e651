//! A store without files: those of a server are its caller's, and its store is never asked.

use std::alloc::Global;
use tftp_file::{FileFault, Path, Source, StoreFault};
use tftp_store::{Opening, Store};
use tftp_wire::Mode;

/// In place of a source or a draft, which the caller has.
#[derive(Clone, Copy)]
pub struct Absent {
    /// The length of the file that the first datagram of the transfer stated (`tsize`).
    pub(crate) stated: Option<u64>,
}

impl Source for Absent {
    ghost use Rattle.std.specs.Prelude.{⊤};
    ghost use Rattle.tftp_c.specs.Elsewhere.{no_source};

    ghost meaning = { no_source };

    ghost is_same = { λ _ _. ⊤ };

    ghost stays = { λ _. tt };

    ghost joins = { λ _ _ _ _ _. tt };

    ghost unmoved = { λ _. tt };

    fn fill(&mut self, _want: usize, _out: &mut Vec<u8>) -> Result<usize, FileFault> {
        Err(FileFault::Read)
    }
}

/// The store of a server whose files are its caller's. It refuses every call.
#[derive(Drop)]
pub struct Elsewhere;

impl Store for Elsewhere {
    ghost use Rattle.tftp_c.specs.Elsewhere.{no_store};

    type Source = Absent;

    type Draft = Absent;

    ghost meaning = { no_store };

    ghost unmoved = { λ _. tt };

    ghost unwritten = { λ _. tt };

    fn open(
        &self,
        _alloc: Global,
        _path: &Path,
        _mode: Mode,
    ) -> Result<Opening<Absent>, StoreFault> {
        Err(StoreFault::Io)
    }

    fn begin(
        &mut self,
        _alloc: Global,
        _path: &Path,
        _replace: bool,
    ) -> Result<Absent, StoreFault> {
        Err(StoreFault::Io)
    }

    fn append(&mut self, _draft: &mut Absent, _bytes: &[u8]) -> Result<(), StoreFault> {
        Err(StoreFault::Io)
    }

    fn commit(
        &mut self,
        _path: &Path,
        _draft: &mut Absent,
        _replace: bool,
    ) -> Result<(), StoreFault> {
        Err(StoreFault::Io)
    }
}
