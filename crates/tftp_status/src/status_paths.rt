//! The paths of a status file and of its temporary file.

ghost use Rattle.std.specs.Prelude.{◌≡◌, IfOk};
ghost use Rattle.std.specs.String.{string_bytes};
ghost use Rattle.tftp_status.specs.StatusFile.{draft_of};

use std::alloc::{AllocError, Global};
use std::marker::Model;

/// The path of a status file, and that of its temporary file beside it. Its model is the first.
#[derive(Drop)]
pub struct StatusPaths {
    pub(crate) file: String,
    pub(crate) draft: String,
}

impl Model for StatusPaths {
    ghost use Rattle.std.specs.Prelude.{ℕ, List, ◌≡◌};
    ghost use Rattle.std.specs.String.{string_bytes};
    ghost use Rattle.tftp_status.specs.StatusFile.{draft_of};

    ghost Value = { List ℕ };

    ghost view = { λ paths. string_bytes paths.file };

    ghost invariant = { λ paths. string_bytes paths.draft ≡ draft_of (string_bytes paths.file) };
}

impl StatusPaths {
    /// The paths of this file.
    pub fn new(alloc: Global, file: String) -> Result<StatusPaths, AllocError>
        ensures { IfOk result (λ paths. paths ≡ string_bytes file) }
    {
        let draft = format!(in alloc; "{file}~")?;
        Ok(StatusPaths { file, draft })
    }

    /// The path of the file.
    pub fn file(&self) -> &str
        ensures { result.now ≡ self.now }
    {
        self.file.as_str()
    }

    /// The path of the temporary file.
    pub fn draft(&self) -> &str
        ensures { result.now ≡ draft_of self.now }
    {
        self.draft.as_str()
    }
}
