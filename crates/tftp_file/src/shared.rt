//! The bytes of a file in memory: they grow in one buffer, and are then shared without a copy.

ghost use Rattle.std.specs.Prelude.{◌≡◌, ◌++◌, [], IfOk, OnOk, OnErr, MatchResult};
ghost use Rattle.tftp_file.specs.Shared.{kept_bytes};

use bytes::Bytes as SharedBytes;
use std::alloc::{AllocError, Global};
use std::marker::Model;
use std::mem;

/// The bytes of a file, by their owners.
#[derive(Debug, Drop)]
pub enum Kept {
    /// The file alone, which can grow.
    Alone(Vec<u8>),
    /// The file and others.
    Shared(SharedBytes),
}

/// The bytes of a file that grows at its end. Its model is the list of bytes.
///
/// They are shared without a copy ([`FileBytes::share`]). An append to shared bytes copies them
/// first, so that it changes this file alone.
#[derive(Debug, Drop)]
pub struct FileBytes {
    alloc: Global,
    kept: Kept,
}

impl Model for FileBytes {
    ghost use Rattle.std.specs.Prelude.{List, ℕ};
    ghost use Rattle.tftp_file.specs.Shared.{kept_bytes};

    ghost Value = { List ℕ };

    ghost view = { λ f. kept_bytes f.kept };
}

impl FileBytes {
    /// An empty file. Allocates no memory.
    pub fn new(alloc: Global) -> FileBytes
        ensures { result ≡ [] }
    {
        FileBytes {
            alloc,
            kept: Kept::Alone(Vec::new(alloc)),
        }
    }

    /// The bytes, in order.
    pub fn as_slice(&self) -> &[u8]
        ensures { result.now ≡ self.now }
    {
        match &self.kept {
            Kept::Alone(bytes) => bytes.as_slice(),
            Kept::Shared(bytes) => bytes.as_slice(),
        }
    }

    /// Appends the bytes. Out of memory nothing has changed.
    pub fn append(&mut self, bytes: &[u8]) -> Result<(), AllocError>
        ensures ok { OnOk result (self.new ≡ self.old ++ bytes.now) }
        ensures err { OnErr result (self.new ≡ self.old) }
    {
        match &mut self.kept {
            Kept::Alone(held) => held.extend_from_slice(bytes),
            Kept::Shared(shared) => {
                let mut held = Vec::from_slice(self.alloc, shared.as_slice())?;
                held.extend_from_slice(bytes)?;
                self.kept = Kept::Alone(held);
                Ok(())
            }
        }
    }

    /// The bytes, shared with this file. It copies none, and allocates a reference count.
    pub fn share(&mut self) -> Result<SharedBytes, AllocError>
        ensures ok { IfOk result (λ shared. shared ≡ self.old) }
        ensures kept { self.new ≡ self.old }
    {
        let kept = mem::replace(&mut self.kept, Kept::Alone(Vec::new(self.alloc)));
        match into_shared(kept) {
            Ok(shared) => {
                let copy: Result<SharedBytes, AllocError> = shared.clone();
                self.kept = Kept::Shared(shared);
                copy
            }
            Err(kept) => {
                self.kept = kept;
                Err(AllocError)
            }
        }
    }
}

/// The bytes in shared form; out of memory they are returned unchanged.
fn into_shared(kept: Kept) -> Result<SharedBytes, Kept>
    ensures { MatchResult result (λ shared. shared ≡ kept_bytes kept)
        (λ back. kept_bytes back ≡ kept_bytes kept) }
{
    match kept {
        Kept::Alone(held) => match SharedBytes::from_vec(held) {
            Ok(shared) => Ok(shared),
            Err(failed) => Err(Kept::Alone(failed.value)),
        },
        Kept::Shared(shared) => Ok(shared),
    }
}
