//! The file that a receiver writes: it is appended to, and then committed.

ghost use Rattle.std.specs.Prelude.{◌≡◌, ◌≢◌, Err, IfErr, is_ok, false};
ghost use Rattle.std.specs.Result.{result_err};
ghost use Rattle.tftp_file.specs.Sink.{Appends, Commits, WritesBehind, SinkMeaning};

use crate::StoreFault;

/// A file that is written from its start, and committed as a whole.
///
/// A sink over memory has a model. A sink over a file has none, and then its calls promise only
/// which results they return. Some sinks can be set to refuse their next call: it returns `Full`,
/// clears the setting and changes nothing else.
pub trait Sink {
    /// Its content, if it has a model (`held`), the faults that an append and a commit may return
    /// (`may_refuse_append`, `may_refuse_commit`), and the effect of a call on the rest of its
    /// state (`becomes`; by the fault, and so which calls must be refused, `after_append` and
    /// `after_commit`).
    ghost meaning: { SinkMeaning Self };

    /// The second is the first at a later time: it holds the same borrows. For a sink without
    /// borrows an implementation may state what never changes, or nothing.
    ghost is_same: { Self → Self → Type 0 };

    /// Appends the bytes.
    ///
    /// After `Memory` nothing has changed. After another fault either nothing has changed, or a
    /// prefix of the bytes, perhaps empty, is appended, and the content is not committed.
    fn append(&mut self, bytes: &[u8]) -> Result<(), StoreFault>
        ensures appends { Appends (meaning.held self.old) (meaning.held self.new) bytes.now result }
        ensures refused { IfErr result (meaning.may_refuse_append self.old bytes.now) }
        ensures leaves { meaning.becomes self.old self.new false }
        ensures after { meaning.after_append self.old bytes.now self.new (result_err result) }
        ensures same { is_same self.old self.new };

    /// Makes the content permanent.
    ///
    /// After a fault the content, and whether it is committed, are unchanged. It never fails with
    /// `Memory`: out of memory it returns `Full`.
    fn commit(&mut self) -> Result<(), StoreFault>
        ensures commits { Commits (meaning.held self.old) (meaning.held self.new) result }
        ensures refused { IfErr result (meaning.may_refuse_commit self.old) }
        ensures leaves { meaning.becomes self.old self.new (is_ok result) }
        ensures after { meaning.after_commit self.old self.new (result_err result) }
        ensures not_memory { result ≢ Err StoreFault.Memory }
        ensures same { is_same self.old self.new };

    /// Writes buffered bytes, while its caller is idle. Most sinks do nothing.
    ///
    /// The content is unchanged, and no more calls may be refused than before. If it fails to
    /// write, a later append or commit is refused.
    fn write_behind(&mut self)
        ensures behind { WritesBehind meaning self.old self.new }
        ensures leaves { meaning.becomes self.old self.new false }
        ensures same { is_same self.old self.new }
    {}

    /// `is_same` is reflexive.
    ghost stays: { (a : Self) → is_same a a };

    /// `is_same` is transitive.
    ghost joins: { (a b c : Self) → is_same a b → is_same b c → is_same a c };

    /// `becomes` holds for a sink that no call has changed.
    ghost unmoved: { (a : Self) → meaning.becomes a a false };
}

impl<K: Sink> Sink for &mut K {
    ghost use Rattle.std.specs.Prelude.{◌≡◌, refl};
    ghost use Rattle.std.proofs.Common.{◌∙◌};
    ghost use Rattle.tftp_file.specs.Sink.{borrowed_sink};

    ghost meaning = { borrowed_sink K.meaning };

    ghost is_same = { λ k l. (l.ghost_name ≡ k.ghost_name) × K.is_same k.now l.now };

    ghost stays = { λ a. (refl, K.stays a.now) };

    ghost joins = { λ a b c p q. (q.0 ∙ p.0, K.joins a.now b.now c.now p.1 q.1) };

    ghost unmoved = { λ a. K.unmoved a.now };

    fn append(&mut self, bytes: &[u8]) -> Result<(), StoreFault> {
        Sink::append(&mut **self, bytes)
    }

    fn commit(&mut self) -> Result<(), StoreFault> {
        Sink::commit(&mut **self)
    }

    fn write_behind(&mut self) {
        Sink::write_behind(&mut **self);
    }
}
