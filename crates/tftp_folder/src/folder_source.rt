//! A file of a folder that is being read.

ghost use Rattle.std.specs.Prelude.{◌≡◌, ◌≤◌, [], Err, None, IfOk, IsSome, vec_capacity};
ghost use Rattle.tftp_disk.specs.DiskSource.{GivesPiece, IsUnread, source_error};
ghost use Rattle.tftp_file.specs.Source.{Fills, added_to};
ghost use Rattle.tftp_folder.specs.Source.{calls_of, text_of};

use crate::measured::StatedLength;
use std::alloc::{AllocError, Global};
use std::cell::Cell;
use std::io::Read;
use std::rc::Rc;
use std::snapshot::Snapshot;
use tftp_disk::{DiskFile, DiskSource, View};
use tftp_file::{FileFault, Source};
use tftp_lines::{Reason, reason_of};
use tftp_wire::Mode;

/// The capacity of a read buffer in bytes. Blocks of at least this size bypass it.
const READ_BUFFER: u64 = 8_192;

/// The reason for the last refused call, which a store and its sources share until it is taken.
#[derive(Drop)]
pub(crate) struct SharedReason {
    reason: Rc<Cell<Option<Reason>>>,
}

impl SharedReason {
    /// No reason.
    pub(crate) fn new(alloc: Global) -> Result<SharedReason, AllocError> {
        let reason = Rc::new(alloc, Cell::new(None))?;
        Ok(SharedReason { reason })
    }

    /// The same reason, for another holder.
    pub(crate) fn share(&self) -> Result<SharedReason, AllocError> {
        let reason = self.reason.clone()?;
        Ok(SharedReason { reason })
    }

    /// Keeps a reason.
    pub(crate) fn set(&self, reason: Reason) {
        self.reason.set(Some(reason));
    }

    /// Forgets the reason.
    pub(crate) fn clear(&self) {
        self.reason.set(None);
    }

    /// Takes the reason.
    pub(crate) fn take(&self) -> Option<Reason> {
        self.reason.replace(None)
    }
}

/// The source of a file of a [`FolderStore`](crate::FolderStore). Its store gets the reason for a
/// fill that fails, or that finds fewer bytes than it requests.
#[derive(Drop)]
pub struct FolderSource<V: View> {
    text: DiskSource<V::File>,
    /// The view that found the file, with its calls.
    found: V,
    /// How long its text is said to be. Only clauses read it: it uses no memory.
    stated: Snapshot<StatedLength>,
    /// The number of bytes of a text in netascii that are not given yet.
    left: Option<u64>,
    /// The reason of the store.
    reason: SharedReason,
}

impl<V: View> FolderSource<V> {
    /// The source of an open file whose text has this length. It fails only when out of memory.
    pub(crate) fn new(
        alloc: Global,
        file: DiskFile<V::File>,
        found: V,
        mode: Mode,
        length: &StatedLength,
        reason: SharedReason,
    ) -> Result<FolderSource<V>, AllocError>
        ensures unread { IfOk result (λ source. IsUnread mode (text_of source)) }
        ensures calls { IfOk result (λ source. calls_of source ≡ file.trace.events) }
        ensures found { IfOk result (λ source. source.found ≡ found) }
        ensures stated { IfOk result (λ source. source.stated.value ≡ length.now) }
    {
        let room = length.bytes.min(READ_BUFFER) as usize;
        match DiskSource::new(alloc, file, mode, room) {
            Ok(text) => Ok(FolderSource {
                text,
                found,
                stated: Snapshot::of(length),
                left: match mode {
                    Mode::Netascii => Some(length.bytes),
                    Mode::Octet => None,
                },
                reason,
            }),
            Err(error) => Err(error),
        }
    }

    /// Whether a fill requests all that is left of a text in netascii: more is there only if the file was
    /// changed since its text was measured, and the client would get a part of that.
    fn is_last(&self, want: usize) -> bool {
        match self.left {
            Some(left) => left <= want as u64,
            None => false,
        }
    }

    /// Counts what a fill gave of a text in netascii.
    fn count(&mut self, filled: Result<usize, FileFault>)
        ensures { self.new ≡ record self.old { left = self.new.left } }
    {
        match self.left {
            Some(left) => {
                if let Ok(count) = filled {
                    self.left = Some(left.saturating_sub(count as u64));
                }
            }
            None => {}
        }
    }

    /// Keeps the reason of a fill that failed, or that found too few bytes.
    fn note(&self, filled: Result<usize, FileFault>, want: usize) {
        match filled {
            Ok(count) if count < want => self.reason.set(Reason::FileCut),
            Err(FileFault::Read) => self.reason.set(self.read_failure()),
            _ => {}
        }
    }

    /// Why a read failed.
    fn read_failure(&self) -> Reason {
        match self.text.error() {
            Some(error) => reason_of(&error),
            None => Reason::Other,
        }
    }
}

impl<V: View> Source for FolderSource<V> {
    ghost use Rattle.std.specs.Prelude.{⊤};
    ghost use Rattle.tftp_disk.specs.DiskSourceLaws.{gives_nothing};
    ghost use Rattle.tftp_folder.specs.Source.{folder_source, text_of};

    ghost meaning = { folder_source V.log ⟦<DiskSource<V::File> as Source>⟧.meaning };

    /// Always true: it constrains nothing.
    ghost is_same = { λ _ _. ⊤ };

    ghost stays = { λ _. tt };

    ghost joins = { λ _ _ _ _ _. tt };

    ghost unmoved = { λ a. gives_nothing (text_of a) };

    fn fill(&mut self, want: usize, out: &mut Vec<u8>) -> Result<usize, FileFault> {
        let is_last = self.is_last(want);
        let filled = fill_text(&mut self.text, is_last, want, out);
        self.note(filled, want);
        self.count(filled);
        filled
    }

    fn read_ahead(&mut self) {
        self.text.read_ahead();
    }
}

/// A fill of a text, which is to end with it if it is the last.
fn fill_text<F: Read>(
    text: &mut DiskSource<F>,
    is_last: bool,
    want: usize,
    out: &mut Vec<u8>,
) -> Result<usize, FileFault>
    ensures fills { Fills None None want out.old.items out.new.items result }
    ensures fails { IsSome (source_error text.old) → result ≡ Err FileFault.Read }
    ensures gives { GivesPiece text.old (added_to out.old.items out.new.items) text.new }
    ensures capacity { vec_capacity out.old ≤ vec_capacity out.new }
{
    if is_last {
        return text.fill_last(want, out);
    }
    text.fill(want, out)
}
