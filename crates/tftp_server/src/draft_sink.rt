//! A draft of a store, as the sink of an end.

use tftp_file::{Path, Sink, StoreFault};
use tftp_store::Store;

/// A draft of a store, to be committed under a path.
#[derive(Drop)]
pub(crate) struct DraftSink<'s, 'd, 'p, S: Store> {
    pub(crate) store: &'s mut S,
    /// The file that is written.
    pub(crate) draft: &'d mut S::Draft,
    /// The path of the commit.
    pub(crate) path: &'p Path,
    /// Whether the commit may replace an existing file.
    pub(crate) replace: bool,
}

impl<'s, 'd, 'p, S: Store> Sink for DraftSink<'s, 'd, 'p, S> {
    ghost use Rattle.std.specs.Prelude.{◌≡◌, refl};
    ghost use Rattle.std.proofs.Common.{◌∙◌};
    ghost use Rattle.tftp_file.specs.Sink.{sink_through};
    ghost use Rattle.tftp_server.specs.Draft.{drafting_sink};

    ghost meaning = { sink_through (drafting_sink S.meaning) (λ d. record {
      store = d.store.now;
      draft = d.draft.now;
      path = d.path.now;
      replace = d.replace;
    }) };

    ghost is_same = { λ d e. (e.store.ghost_name ≡ d.store.ghost_name)
        × (e.draft.ghost_name ≡ d.draft.ghost_name) × (e.path.now ≡ d.path.now)
        × (e.replace ≡ d.replace) };

    ghost stays = { λ a. (refl, refl, refl, refl) };

    ghost joins = { λ a b c p q. (q.0 ∙ p.0, q.1 ∙ p.1, q.2 ∙ p.2, q.3 ∙ p.3) };

    ghost unmoved = { λ a. record { path = refl; replace = refl; files = refl } };

    fn append(&mut self, bytes: &[u8]) -> Result<(), StoreFault> {
        self.store.append(self.draft, bytes)
    }

    fn commit(&mut self) -> Result<(), StoreFault> {
        self.store.commit(self.path, self.draft, self.replace)
    }

    fn write_behind(&mut self) {
        self.store.write_behind(self.draft);
    }
}
