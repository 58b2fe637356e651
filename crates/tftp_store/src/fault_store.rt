//! A store that injects faults at calls chosen by the caller.

ghost use Rattle.std.specs.Prelude.{◌≡◌, Err, None, Some};
ghost use Rattle.tftp_store.specs.FaultStore.{after_call, is_due, IsInjected};

use crate::store::{Opening, Store};
use std::alloc::Global;
use std::marker::Model;
use tftp_file::{FileFault, Path, Source, StoreFault};
use tftp_wire::Mode;

/// A store over another one that injects faults, as a full or a broken disk does.
///
/// Of its calls of `begin`, `append` and `commit` it refuses one, and passes every other to the
/// inner store. It may refuse every `open`, too, and the sources that it opens may fail. A refused
/// call changes neither the inner store nor a draft. A call that is out of memory is not counted.
///
/// Its model is the inner store's files. It does not include whether the inner store is set to
/// refuse a call: such a refusal is one of the faults that its calls may return.
#[derive(Drop)]
pub struct FaultStore<S> {
    inner: S,
    calls_left: Option<u64>,
    fault: StoreFault,
    refuses_open: bool,
    fails_fill: bool,
}

impl<S> Model for FaultStore<S> {
    ghost use Rattle.tftp_store.specs.FaultStore.{FaultStoreState, IsInjected};

    ghost Value = { FaultStoreState S };

    ghost view = { λ s. record {
      inner = s.inner;
      calls_left = s.calls_left;
      fault = s.fault;
      refuses_open = s.refuses_open;
      fails_fill = s.fails_fill;
    } };

    ghost invariant = { λ s. IsInjected s.fault };
}

impl<S> FaultStore<S> {
    /// A store over the inner one. Of the calls of `begin`, `append` and `commit` it refuses the
    /// one numbered `at`, from 0, and no other. With `refuse_open` it refuses every `open`. A
    /// refused call returns `fault`, which is `Full` or `Io`. With `fail_fill` every `fill` of a
    /// source that it opens returns `Read`.
    pub fn new(
        inner: S,
        at: u64,
        fault: StoreFault,
        refuse_open: bool,
        fail_fill: bool,
    ) -> FaultStore<S>
        requires fault { IsInjected fault }
        ensures { result ≡ record {
          inner = inner;
          calls_left = Some at;
          fault = fault;
          refuses_open = refuse_open;
          fails_fill = fail_fill;
        } }
    {
        FaultStore {
            inner,
            calls_left: Some(at),
            fault,
            refuses_open: refuse_open,
            fails_fill: fail_fill,
        }
    }

    /// Refuses a call, and no later one.
    fn refuse<A>(&mut self) -> Result<A, StoreFault>
        ensures fault { result ≡ Err self.old.fault }
        ensures rest { self.new ≡ record self.old { calls_left = None } }
    {
        self.calls_left = None;
        Err(self.fault)
    }

    /// The inner store.
    pub fn get_ref(&self) -> &S
        ensures { result.now ≡ self.now.inner }
    {
        &self.inner
    }
}

/// Whether the next call is the refused one.
fn is_due(calls_left: Option<u64>) -> bool
    ensures { result ≡ is_due calls_left }
{
    match calls_left {
        Some(calls) => calls == 0,
        None => false,
    }
}

/// The count after a call with this result. After the refused call nothing is counted.
fn after_call<A>(calls_left: Option<u64>, answer: &Result<A, StoreFault>) -> Option<u64>
    ensures { result ≡ after_call calls_left answer.now }
{
    match answer {
        Err(StoreFault::Memory) => calls_left,
        _ => match calls_left {
            Some(0) => None,
            Some(calls) => Some(calls - 1),
            None => None,
        },
    }
}

impl<S: Store> Store for FaultStore<S> {
    ghost use Rattle.std.specs.Prelude.{◌≡◌, ◌≢◌, Err, IfErr, IfOk, IsErrOf, true, false};
    ghost use Rattle.tftp_file.specs.Sink.{Appends, Commits};
    ghost use Rattle.std.specs.Prelude.{◌⊎◌, refl};
    ghost use Rattle.std.specs.Result.{result_err};
    ghost use Rattle.tftp_store.specs.Store.{Opens, OpensAt, Begins, FailsIf, RefusedIf, holding_of};
    ghost use Rattle.tftp_store.specs.Store.{files_of, Puts};
    ghost use Rattle.tftp_store.specs.FaultStore.{Called, CalledOnDraft, Counts, MayAnswer, is_due};
    ghost use Rattle.tftp_store.specs.FaultStore.{fault_meaning, never_armed, opened_meaning};

    type Source = OpenedSource<S::Source>;

    type Draft = S::Draft;

    ghost meaning = { fault_meaning S.meaning };

    ghost unmoved = { λ a. record { rest = refl; below = S.unmoved a.inner } };

    ghost unwritten = { S.unwritten };

    fn open(
        &self,
        alloc: Global,
        path: &Path,
        mode: Mode,
    ) -> Result<Opening<OpenedSource<S::Source>>, StoreFault>
        ensures opens { Opens (opened_meaning S.Source.meaning)
            (never_armed (S.meaning.stored self.now.inner)) path.now mode result }
        ensures refused { IfErr result (λ fault. MayAnswer self.now.refuses_open self.now.fault
            fault (S.meaning.may_refuse_open self.now.inner path.now fault)) }
        ensures must { RefusedIf (λ fault. MayAnswer self.now.refuses_open self.now.fault fault
            (S.meaning.must_refuse_open self.now.inner path.now fault)) result }
        ensures reads { FailsIf (opened_meaning S.Source.meaning) (λ want.
            (self.now.fails_fill ≡ true) ⊎ S.meaning.must_fail self.now.inner path.now want)
            result }
        ensures opened { OpensAt (opened_meaning S.Source.meaning)
            (S.meaning.root self.now.inner) path.now mode result }
        ensures fails { self.now.refuses_open ≡ true → result ≡ Err self.now.fault }
        ensures source { IfOk result (λ file. file.source.fails ≡ self.now.fails_fill) }
    {
        if self.refuses_open {
            return Err(self.fault);
        }
        let opening = self.inner.open(alloc, path, mode)?;
        Ok(Opening {
            source: OpenedSource {
                source: opening.source,
                fails: self.fails_fill,
            },
            length: opening.length,
        })
    }

    fn begin(&mut self, alloc: Global, path: &Path, replace: bool) -> Result<S::Draft, StoreFault>
        ensures begins { Begins S.meaning.drafted (never_armed (S.meaning.stored self.old.inner))
            (never_armed (S.meaning.stored self.new.inner)) path.now replace result }
        ensures refused { IfErr result (λ fault. MayAnswer (is_due self.old.calls_left)
            self.old.fault fault (S.meaning.may_refuse_begin self.old.inner path.now replace
            fault)) }
        ensures begun { Called (λ s t. S.meaning.begun path.now replace s t result) self.old
            self.new (result_err result) }
        ensures memory { IsErrOf result StoreFault.Memory → self.new ≡ self.old }
        ensures counts { Counts self.old self.new result }
        ensures passed { is_due self.old.calls_left ≡ false → Begins S.meaning.drafted
            (S.meaning.stored self.old.inner) (S.meaning.stored self.new.inner) path.now replace
            result }
    {
        if is_due(self.calls_left) {
            return self.refuse();
        }
        let answer = self.inner.begin(alloc, path, replace);
        self.calls_left = after_call(self.calls_left, &answer);
        answer
    }

    fn append(&mut self, draft: &mut S::Draft, bytes: &[u8]) -> Result<(), StoreFault>
        ensures appends { Appends
            (holding_of (never_armed (S.meaning.stored self.old.inner))
            (S.meaning.drafted draft.old))
            (holding_of (never_armed (S.meaning.stored self.new.inner))
            (S.meaning.drafted draft.new))
            bytes.now result }
        ensures files { files_of (never_armed (S.meaning.stored self.new.inner))
            ≡ files_of (never_armed (S.meaning.stored self.old.inner)) }
        ensures refused { IfErr result (λ fault. MayAnswer (is_due self.old.calls_left)
            self.old.fault fault (S.meaning.may_refuse_append self.old.inner draft.old bytes.now
            fault)) }
        ensures after { CalledOnDraft (λ s t. S.meaning.after_append s draft.old bytes.now t
            draft.new (result_err result)) self.old self.new draft.old draft.new
            (result_err result) }
        ensures memory { IsErrOf result StoreFault.Memory → (self.new ≡ self.old)
            × (draft.new ≡ draft.old) }
        ensures counts { Counts self.old self.new result }
        ensures passed { is_due self.old.calls_left ≡ false → Appends
            (holding_of (S.meaning.stored self.old.inner) (S.meaning.drafted draft.old))
            (holding_of (S.meaning.stored self.new.inner) (S.meaning.drafted draft.new))
            bytes.now result }
    {
        if is_due(self.calls_left) {
            return self.refuse();
        }
        let answer = self.inner.append(draft, bytes);
        self.calls_left = after_call(self.calls_left, &answer);
        answer
    }

    fn commit(&mut self, path: &Path, draft: &mut S::Draft, replace: bool) -> Result<(), StoreFault>
        ensures commits { Commits
            (holding_of (never_armed (S.meaning.stored self.old.inner))
            (S.meaning.drafted draft.old))
            (holding_of (never_armed (S.meaning.stored self.new.inner))
            (S.meaning.drafted draft.new))
            result }
        ensures files { Puts (never_armed (S.meaning.stored self.old.inner))
            (never_armed (S.meaning.stored self.new.inner)) (S.meaning.drafted draft.old) path.now
            replace result }
        ensures refused { IfErr result (λ fault. MayAnswer (is_due self.old.calls_left)
            self.old.fault fault (S.meaning.may_refuse_commit self.old.inner path.now draft.old
            replace fault)) }
        ensures after { CalledOnDraft (λ s t. S.meaning.after_commit s path.now draft.old replace t
            draft.new (result_err result)) self.old self.new draft.old draft.new
            (result_err result) }
        ensures not_memory { result ≢ Err StoreFault.Memory }
        ensures counts { Counts self.old self.new result }
        ensures passed { is_due self.old.calls_left ≡ false → Commits
            (holding_of (S.meaning.stored self.old.inner) (S.meaning.drafted draft.old))
            (holding_of (S.meaning.stored self.new.inner) (S.meaning.drafted draft.new)) result }
    {
        if is_due(self.calls_left) {
            return self.refuse();
        }
        let answer = self.inner.commit(path, draft, replace);
        self.calls_left = after_call(self.calls_left, &answer);
        answer
    }

    fn write_behind(&mut self, draft: &mut S::Draft) {
        self.inner.write_behind(draft);
    }
}

/// A source that a [`FaultStore`] opened: it reads from the inner store's source, or it is set to
/// fail, and then every `fill` returns `Read`.
#[derive(Drop)]
pub struct OpenedSource<F> {
    source: F,
    fails: bool,
}

impl<F> Model for OpenedSource<F> {
    ghost use Rattle.tftp_store.specs.FaultStore.{OpenedSourceState};

    ghost Value = { OpenedSourceState F };

    ghost view = { λ s. record { source = s.source; fails = s.fails } };
}

impl<F: Source> Source for OpenedSource<F> {
    ghost use Rattle.std.specs.Prelude.{◌≡◌, ◌≤◌, ◌⊎◌, true, Err, refl, vec_capacity};
    ghost use Rattle.std.proofs.Common.{◌∙◌};
    ghost use Rattle.tftp_file.specs.Source.{Fills, added_to};
    ghost use Rattle.tftp_store.specs.FaultStore.{opened_meaning};

    ghost meaning = { opened_meaning F.meaning };

    /// Whether it is set to fail does not change, and the inner store's source is the same.
    ghost is_same = { λ s t. (t.fails ≡ s.fails) × F.is_same s.source t.source };

    ghost stays = { λ a. (refl, F.stays a.source) };

    ghost joins = { λ a b c p q. (q.0 ∙ p.0, F.joins a.source b.source c.source p.1 q.1) };

    ghost unmoved = { λ a. F.unmoved a.source };

    fn fill(&mut self, want: usize, out: &mut Vec<u8>) -> Result<usize, FileFault>
        ensures fills { Fills (F.meaning.left self.old.source) (F.meaning.left self.new.source) want
            out.old.items out.new.items result }
        ensures read { result ≡ Err FileFault.Read → (self.old.fails ≡ true)
            ⊎ F.meaning.may_fail self.old.source want }
        ensures gives { F.meaning.gives self.old.source (added_to out.old.items out.new.items)
            self.new.source }
        ensures capacity { vec_capacity out.old ≤ vec_capacity out.new }
        ensures same { (self.new.fails ≡ self.old.fails)
            × F.is_same self.old.source self.new.source }
        ensures fails { ((self.old.fails ≡ true) ⊎ F.meaning.fails self.old.source want)
            → result ≡ Err FileFault.Read }
    {
        if self.fails {
            return Err(FileFault::Read);
        }
        self.source.fill(want, out)
    }

    fn read_ahead(&mut self) {
        self.source.read_ahead();
    }
}
