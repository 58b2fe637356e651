//! The local file of a client. A fetched file is written under another name, and gets its name at
//! the commit, once it is on the disk.
//!
//! Clauses state by which calls of the system, as the trace of a disk has them: not what a disk
//! then holds.

ghost use Rattle.std.specs.Prelude.{◌≡◌, ◌≢◌, true, false, length};
ghost use Rattle.tftp_file.specs.declared.fault.StoreFault.TheVariants.{Memory};
ghost use Rattle.tftp_client.specs.Fetched.{KeepsPlace, WasNamed};
ghost use Rattle.tftp_client.specs.Written.{bytes_in, held_of, paths_of, HasNoRest, IsFolderIn};
ghost use Rattle.tftp_client.specs.Written.{IsLeftIn};

use crate::local_error::LocalError;
use crate::part_file::{PartFile, Place};
use std::alloc::Global;
use tftp_disk::{Disk, DiskSource, Looks, View};
use tftp_file::{Sink, StoreFault};

/// The source of a file to send.
pub(crate) type LocalSource<F> = DiskSource<F>;

/// A file that a view of this disk opened.
pub(crate) type FileOf<D> = <<D as Disk>::View as View>::File;

/// The source of a file that a view of this disk opened.
pub(crate) type SourceOf<D> = LocalSource<FileOf<D>>;

/// The error of the last failed read, if a read failed.
pub(crate) fn read_error<F: Drop>(source: &LocalSource<F>) -> Option<LocalError> {
    Some(LocalError::System(source.error()?))
}

/// A file that is fetched. It is written as `LOCAL.part`, and gets the name `LOCAL` at the commit.
///
/// It buffers what is appended, and writes it after a datagram is sent. It syncs every few
/// megabytes, so that the commit has little left to sync.
///
/// Its model is the bytes of the appends that succeeded, and whether a commit succeeded after them:
/// the file that was made then has just these bytes and the name, and neither changes after that. No
/// other name was changed. Without a commit that succeeded the file keeps the name `LOCAL.part`.
#[derive(Drop)]
pub struct LocalFile<D: Disk> {
    part: PartFile<D>,
    count: u64,
    /// Whether the commit succeeded.
    committed: bool,
    error: Option<LocalError>,
    ghost counts: { count ≡ length (bytes_in part.written) },
    ghost named: { committed ≡ true → (part.is_tried ≡ true)
        × ∥ WasNamed (paths_of part.names part.existing) (bytes_in part.written)
        (D.log part.disk) ∥₁ },
    ghost left: { committed ≡ false
        → ∥ IsLeftIn (paths_of part.names part.existing) part.written (D.log part.disk) ∥₁ },
}

impl<D: Disk> LocalFile<D> {
    ghost use Rattle.tftp_file.specs.Sink.{WritesBehind};
    ghost use Rattle.std.specs.String.{string_bytes};
    ghost use Rattle.tftp_client.specs.Taken.{nothing};

    /// A new file at this place. Nothing is changed on the disk before bytes are appended or an
    /// empty file is committed.
    pub(crate) fn new(disk: D, alloc: Global, place: Place<D::File>) -> LocalFile<D>
        requires { ∥ IsFolderIn (string_bytes place.names.local) place.folder.folder
            (D.log disk) ∥₁ }
        ensures empty { held_of result.part.written result.committed ≡ nothing }
        ensures paths { paths_of result.part.names result.part.existing
            ≡ paths_of place.names place.existing }
        ensures disk { result.part.disk ≡ disk }
    {
        LocalFile {
            part: PartFile::new(disk, alloc, place),
            count: 0,
            committed: false,
            error: None,
        }
    }

    /// Its disk.
    pub(crate) fn into_disk(self) -> D
        ensures { result ≡ self.part.disk }
    {
        let LocalFile { part, .. } = self;
        part.into_disk()
    }

    /// The number of bytes appended to it.
    pub(crate) fn count(&self) -> u64
        ensures { result ≡ self.now.count }
    {
        self.count
    }

    /// Writes what is buffered, and syncs nothing: what `LOCAL.part` is to have after a transfer
    /// that failed. A write that fails is not tried again.
    pub(crate) fn write_out(&mut self)
        ensures behind { WritesBehind ⟦<LocalFile<D> as Sink>⟧.meaning self.old self.new }
        ensures leaves { ⟦<LocalFile<D> as Sink>⟧.meaning.becomes self.old self.new false }
        ensures written { HasNoRest self.new.part.written }
    {
        self.part.write_out();
    }

    /// The error of the last failed append or commit, if one failed.
    pub(crate) fn error(&self) -> Option<LocalError> {
        self.error
    }

    /// Records the error of a call, and returns its fault.
    fn record_error(&mut self, error: LocalError) -> StoreFault
        ensures fault { result ≢ Memory }
        ensures committed { self.new.committed ≡ self.old.committed }
        ensures part { self.new.part ≡ self.old.part }
    {
        let fault = error.fault();
        self.error = Some(error);
        fault
    }
}

impl<D: Disk> Sink for LocalFile<D> {
    ghost use Rattle.std.specs.Prelude.{Some, ⊤, refl};

    ghost meaning = { record {
      held = λ file. Some (held_of file.part.written file.committed);
      may_refuse_append = λ _ _ _. ⊤;
      may_refuse_commit = λ _ _. ⊤;
      becomes = λ old new _. KeepsPlace (paths_of old.part.names old.part.existing)
          (paths_of new.part.names new.part.existing) old.part.is_tried new.part.is_tried
          (D.log old.part.disk) (D.log new.part.disk);
      after_append = λ _ _ _ _. ⊤;
      after_commit = λ _ _ _. ⊤;
    } };

    ghost is_same = { λ _ _. ⊤ };

    ghost stays = { λ _. tt };

    ghost joins = { λ _ _ _ _ _. tt };

    ghost unmoved = { λ _. record {
      same = refl;
      keeps = record { own = λ own. own; barred = λ barred. barred };
      rests = λ tried. (tried, refl);
    } };

    /// It accepts at most 2^64 - 1 bytes, as many as it can count.
    fn append(&mut self, bytes: &[u8]) -> Result<(), StoreFault> {
        let Some(count) = self.count.checked_add(bytes.len() as u64) else {
            return Err(self.record_error(LocalError::TooLong));
        };
        match self.part.append(bytes) {
            Ok(()) => {
                self.committed = false;
                self.count = count;
                Ok(())
            }
            Err(error) => Err(self.record_error(error)),
        }
    }

    fn write_behind(&mut self) {
        self.part.write_behind();
    }

    fn commit(&mut self) -> Result<(), StoreFault> {
        match self.part.commit() {
            Ok(()) => {
                self.committed = true;
                Ok(())
            }
            Err(error) => Err(self.record_error(error)),
        }
    }
}
