//! The text that a sender reads, in pieces.

ghost use Rattle.std.specs.Prelude.{◌≡◌, ◌≤◌, [], Err, vec_capacity};
ghost use Rattle.tftp_file.specs.Source.{Fills, ReadsAhead, SourceMeaning, added_to};

use crate::FileFault;

/// Wire text (RFC 1350, section 1), read in pieces from its start.
///
/// A source over memory has a model. A source over a file has none, and then `fill` promises only
/// which results it returns.
pub trait Source {
    /// The text that is left, if it has a model (`left`), which fills may return `Read`
    /// (`may_fail`), which do (`fails`), the effect of a call on the source by the bytes that it
    /// gave (`gives`), and which source a store opens (`opens`).
    ghost meaning: { SourceMeaning Self };

    /// The second is the first at a later time: it holds the same borrows. For a source without
    /// borrows an implementation may state what never changes, or nothing.
    ghost is_same: { Self → Self → Type 0 };

    /// Moves the next `want` bytes of wire text, or as many as are left, to the end of `out`, and
    /// returns their number.
    ///
    /// It fails with `Read` if the file cannot be read; `out` is then unchanged, and the source is
    /// not used again. It fails with `Memory` if `out` cannot grow, and then nothing has changed.
    /// The capacity of `out` never shrinks.
    fn fill(&mut self, want: usize, out: &mut Vec<u8>) -> Result<usize, FileFault>
        ensures fills { Fills (meaning.left self.old) (meaning.left self.new) want
            out.old.items out.new.items result }
        ensures read { result ≡ Err FileFault.Read → meaning.may_fail self.old want }
        ensures fails { meaning.fails self.old want → result ≡ Err FileFault.Read }
        ensures gives { meaning.gives self.old (added_to out.old.items out.new.items) self.new }
        ensures capacity { vec_capacity out.old ≤ vec_capacity out.new }
        ensures same { is_same self.old self.new };

    /// Reads ahead the bytes that the next fill may request, while its caller is idle. Most sources
    /// do nothing.
    ///
    /// If the text that is left is known, it is unchanged, unless a read has failed: then a fill of
    /// any length returns `Read`. No more fills may fail than before, and if each fill had to fail,
    /// each still has to. No bytes are given.
    fn read_ahead(&mut self)
        ensures ahead { ReadsAhead meaning self.old self.new }
        ensures same { is_same self.old self.new }
    {}

    /// `is_same` is reflexive.
    ghost stays: { (a : Self) → is_same a a };

    /// `is_same` is transitive.
    ghost joins: { (a b c : Self) → is_same a b → is_same b c → is_same a c };

    /// `gives` holds without bytes for a source that no call has changed.
    ghost unmoved: { (a : Self) → meaning.gives a [] a };
}

impl<S: Source> Source for &mut S {
    ghost use Rattle.std.specs.Prelude.{◌≡◌, refl};
    ghost use Rattle.std.proofs.Common.{◌∙◌};
    ghost use Rattle.tftp_file.specs.Source.{borrowed_source};

    ghost meaning = { borrowed_source S.meaning };

    ghost is_same = { λ s t. (t.ghost_name ≡ s.ghost_name) × S.is_same s.now t.now };

    ghost stays = { λ a. (refl, S.stays a.now) };

    ghost joins = { λ a b c p q. (q.0 ∙ p.0, S.joins a.now b.now c.now p.1 q.1) };

    ghost unmoved = { λ a. S.unmoved a.now };

    fn fill(&mut self, want: usize, out: &mut Vec<u8>) -> Result<usize, FileFault> {
        Source::fill(&mut **self, want, out)
    }

    fn read_ahead(&mut self) {
        Source::read_ahead(&mut **self);
    }
}
