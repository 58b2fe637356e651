//! The file that has a server drain.

ghost use Rattle.std.specs.Prelude.{◌≡◌, ◌∷◌, IsTrue, Ok, option_map};
ghost use Rattle.tftp_disk.specs.DiskTrace.DiskEvent.{Followed};
ghost use Rattle.tftp_disk.specs.declared.found.Found.{Found as IsThere};
ghost use Rattle.tftp_daemon.specs.Reports.{IsGivenBy};

use std::cell::RefCell;
use tftp_disk::Looks;
use tftp_sockets::DrainSignal;

/// A signal that is given once a file is there.
#[derive(Drop)]
pub(crate) struct DrainFile<'a, L> {
    looks: RefCell<L>,
    /// The path of the file; `None` for a signal that is never given.
    path: Option<&'a str>,
}

impl<'a, L> DrainFile<'a, L> {
    /// The signal of the file at this path, if there is one.
    pub(crate) fn new(looks: L, path: Option<&'a str>) -> DrainFile<'a, L>
        ensures { result.path ≡ path.entry }
    {
        DrainFile {
            looks: RefCell::new(looks),
            path,
        }
    }
}

impl<L: Looks> DrainSignal for DrainFile<'_, L> {
    /// Whether the file is there: the newest look found it. One that cannot be looked for counts as
    /// absent.
    fn is_given(&self) -> bool
        ensures { IsTrue result → IsGivenBy L.log (option_map (λ path. path.now) self.now.path) }
    {
        let Some(path) = self.path else {
            return false;
        };
        match self.looks.try_borrow_mut() {
            Ok(mut looks) => is_there(&mut *looks, path),
            Err(_) => false,
        }
    }
}

/// Whether there is a file at a path, by a look at what it leads to.
fn is_there<L: Looks>(looks: &mut L, path: &str) -> bool
    ensures { IsTrue result → (found : IsThere)
        × (L.log looks.new ≡ Followed path.now (Ok found) ∷ L.log looks.old) }
{
    match looks.follow(path) {
        Ok(_) => true,
        Err(_) => false,
    }
}
