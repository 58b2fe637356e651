//! The names of a file that is fetched.

ghost use Rattle.std.specs.Prelude.{◌≡◌, ◌≢◌, ◌++◌, codes, IfOk};
ghost use Rattle.std.specs.String.{string_bytes};

use std::alloc::{AllocError, Global};

/// The names of a file that is fetched.
#[derive(Drop)]
pub(crate) struct LocalNames {
    /// The path that the file is to get.
    pub(crate) local: String,
    /// The path under which it is written, `LOCAL.part`.
    pub(crate) part: String,
    ghost apart: { string_bytes part ≢ string_bytes local },
}

impl LocalNames {
    /// The names of a file that is to get this path.
    pub(crate) fn of(alloc: Global, local: &str) -> Result<LocalNames, AllocError>
        ensures local { IfOk result (λ names. string_bytes names.local ≡ local.now) }
        ensures part { IfOk result (λ names. string_bytes names.part
            ≡ local.now ++ codes ".part") }
    {
        Ok(LocalNames {
            local: String::from_str(alloc, local)?,
            part: format!(in alloc; "{local}.part")?,
        })
    }
}
