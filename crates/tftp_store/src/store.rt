//! The files of a server, which are read as sources and written as drafts.

ghost use Rattle.std.specs.Prelude.{◌≡◌, ◌≢◌, Err, IfErr, IsErrOf};
ghost use Rattle.tftp_file.specs.Sink.{Appends, Commits};
ghost use Rattle.tftp_store.specs.Store.{StoreMeaning, Opens, Begins, holding_of, files_of, Puts};
ghost use Rattle.tftp_store.specs.Store.{FailsIf, OpensAt, RefusedIf, WritesBehind};
ghost use Rattle.std.specs.Result.{result_err};

use std::alloc::Global;
use tftp_file::{Path, Source, StoreFault};
use tftp_wire::Mode;

/// A file that is opened for reading.
#[derive(Drop)]
pub struct Opening<S> {
    /// The source of its wire text.
    pub source: S,
    /// The length of that text in bytes, or `tftp_file::MAX_WIRE + 1` if it is longer.
    pub length: u64,
}

/// The files of a server: each is read as a source, or written as a draft and then committed.
///
/// A store over memory has a model. A store over real files has none, and then its calls promise
/// only which results they return. Some stores can be set to refuse their next append or commit:
/// it returns `Full`, clears the setting and changes nothing else. Only a commit changes the files.
pub trait Store {
    /// A file that is read.
    type Source: Source + Drop;

    /// A file that is written and not yet committed.
    type Draft: Drop;

    /// The path of its folder, if it has one (`root`), the port that names its next draft, if one
    /// does (`is_set_to`), the content of the store and of its drafts (`stored`, `drafted`), the
    /// faults that its calls may return (`may_refuse_open`, `may_refuse_begin`,
    /// `may_refuse_append`, `may_refuse_commit`), what an opening must return (`must_refuse_open`,
    /// `must_fail`), and the effect of the other calls, and so which must be refused (`begun`,
    /// `after_append`, `after_commit`, `after_write_behind`, `writes_behind`).
    ghost meaning: { StoreMeaning Self Self.Draft };

    /// Opens the file for reading in the mode.
    ///
    /// It returns `Missing` if there is no such file, and `Memory` only if there is one. Any other
    /// fault is specific to the store. The source that it opens is one of this root, path, mode and
    /// length.
    fn open(
        &self,
        alloc: Global,
        path: &Path,
        mode: Mode,
    ) -> Result<Opening<Self::Source>, StoreFault>
        ensures opens { Opens Self.Source.meaning (meaning.stored self.now) path.now mode result }
        ensures refused { IfErr result (meaning.may_refuse_open self.now path.now) }
        ensures must { RefusedIf (meaning.must_refuse_open self.now path.now) result }
        ensures reads { FailsIf Self.Source.meaning (meaning.must_fail self.now path.now) result }
        ensures opened { OpensAt Self.Source.meaning (meaning.root self.now) path.now mode result };

    /// Begins an empty draft. With `replace` there may be a file at the path.
    ///
    /// It returns `Exists` if there is one that is not to be replaced. Otherwise it may return
    /// `Memory`, and then the store is unchanged.
    fn begin(
        &mut self,
        alloc: Global,
        path: &Path,
        replace: bool,
    ) -> Result<Self::Draft, StoreFault>
        ensures begins { Begins meaning.drafted (meaning.stored self.old)
            (meaning.stored self.new) path.now replace result }
        ensures refused { IfErr result (meaning.may_refuse_begin self.old path.now replace) }
        ensures begun { meaning.begun path.now replace self.old self.new result }
        ensures memory { IsErrOf result StoreFault.Memory → self.new ≡ self.old };

    /// Appends the bytes to a draft.
    ///
    /// After `Memory` nothing has changed. After another fault a prefix of the bytes may be
    /// appended, and no earlier byte is lost.
    fn append(&mut self, draft: &mut Self::Draft, bytes: &[u8]) -> Result<(), StoreFault>
        ensures appends { Appends
            (holding_of (meaning.stored self.old) (meaning.drafted draft.old))
            (holding_of (meaning.stored self.new) (meaning.drafted draft.new)) bytes.now result }
        ensures files { files_of (meaning.stored self.new)
            ≡ files_of (meaning.stored self.old) }
        ensures refused { IfErr result (meaning.may_refuse_append self.old draft.old bytes.now) }
        ensures after { meaning.after_append self.old draft.old bytes.now self.new draft.new
            (result_err result) }
        ensures memory { IsErrOf result StoreFault.Memory → (self.new ≡ self.old)
            × (draft.new ≡ draft.old) };

    /// Makes the content of a draft the file at the path, permanently. With `replace` it replaces
    /// an existing file.
    ///
    /// It returns `Exists` if there is one by now that is not to be replaced; a refusal that the
    /// store is set to precedes that. Out of memory it returns `Full`. After a fault no file and no
    /// byte has changed.
    fn commit(
        &mut self,
        path: &Path,
        draft: &mut Self::Draft,
        replace: bool,
    ) -> Result<(), StoreFault>
        ensures commits { Commits
            (holding_of (meaning.stored self.old) (meaning.drafted draft.old))
            (holding_of (meaning.stored self.new) (meaning.drafted draft.new)) result }
        ensures files { Puts (meaning.stored self.old) (meaning.stored self.new)
            (meaning.drafted draft.old) path.now replace result }
        ensures refused { IfErr result
            (meaning.may_refuse_commit self.old path.now draft.old replace) }
        ensures after { meaning.after_commit self.old path.now draft.old replace self.new draft.new
            (result_err result) }
        ensures not_memory { result ≢ Err StoreFault.Memory };

    /// Writes the buffered bytes of the draft, while its caller is idle. Most stores do nothing.
    ///
    /// Neither the files nor the draft change, no more calls may be refused than before, and the
    /// calls that must be refused stay so. If it fails to write, a later append or commit of the
    /// draft is refused.
    fn write_behind(&mut self, draft: &mut Self::Draft)
        ensures { WritesBehind meaning self.old self.new draft.old draft.new }
    {}

    /// `after_write_behind` holds for a store that no call has changed.
    ghost unmoved: { (a : Self) → meaning.after_write_behind a a };

    /// `writes_behind` holds for a draft that no call has changed.
    ghost unwritten: { (d : Self.Draft) → meaning.writes_behind d d };
}
