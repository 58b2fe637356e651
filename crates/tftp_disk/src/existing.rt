//! What becomes of a file that has the name already.

ghost use Rattle.std.specs.Prelude.{◌≡◌};
ghost use Rattle.tftp_disk.specs.DiskFault.{is_replaced};

/// What becomes of a file that has the name already when another is to get it.
#[derive(Clone, Copy, PartialEq, Eq)]
pub enum Existing {
    /// It stays, and the other is refused.
    Refused,
    /// A regular file is replaced at the commit, with its permissions.
    Replaced,
}

impl Existing {
    /// `Replaced` if a file may be replaced, as the calls of a store say it.
    pub fn of(replace: bool) -> Existing
        ensures { is_replaced result ≡ replace }
    {
        if replace {
            Existing::Replaced
        } else {
            Existing::Refused
        }
    }
}
