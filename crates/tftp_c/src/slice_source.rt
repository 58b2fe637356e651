//! A source over bytes of the caller.

ghost use Rattle.std.specs.Prelude.{◌≡◌, ◌-◌, length};

use std::marker::Model;
use tftp_file::{FileFault, Source};

/// The next bytes of a file. Its model is what is left of them.
#[derive(Drop)]
pub(crate) struct SliceSource<'a> {
    rest: &'a [u8],
}

impl<'a> Model for SliceSource<'a> {
    ghost use Rattle.std.specs.Prelude.{List, ℕ};

    ghost Value = { List ℕ };

    ghost view = { λ s. s.rest.now };
}

impl<'a> SliceSource<'a> {
    pub(crate) fn of(bytes: &'a [u8]) -> SliceSource<'a>
        ensures { result ≡ bytes.now }
    {
        SliceSource { rest: bytes }
    }

    /// How many of these bytes, of which it was made, were taken.
    pub(crate) fn taken_of(&self, bytes: &[u8]) -> usize
        ensures { result ≡ length bytes.now - length self.now }
    {
        bytes.len().saturating_sub(self.rest.len())
    }
}

impl<'a> Source for SliceSource<'a> {
    ghost use Rattle.std.specs.Prelude.{⊤};
    ghost use Rattle.tftp_file.specs.Memory.{memory_source};

    ghost meaning = { memory_source };

    /// It only reads: always true.
    ghost is_same = { λ _ _. ⊤ };

    ghost stays = { λ _. tt };

    ghost joins = { λ _ _ _ _ _. tt };

    ghost unmoved = { λ _. tt };

    fn fill(&mut self, want: usize, out: &mut Vec<u8>) -> Result<usize, FileFault> {
        let count = want.min(self.rest.len());
        out.extend_from_slice(&self.rest[..count])?;
        self.rest = &self.rest[count..];
        Ok(count)
    }
}
