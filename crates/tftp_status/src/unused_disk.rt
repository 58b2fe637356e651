//! A disk of which nothing was asked.

ghost use Rattle.std.specs.Prelude.{◌≡◌, []};

use std::marker::Model;
use tftp_disk::Disk;

/// A disk of which nothing was asked. Its model is its trace.
#[derive(Drop)]
pub struct UnusedDisk<D: Disk> {
    disk: D,
}

impl<D: Disk> Model for UnusedDisk<D> {
    ghost use Rattle.std.specs.Prelude.{List, ◌≡◌, []};
    ghost use Rattle.tftp_disk.specs.DiskTrace.{DiskEvent};

    ghost Value = { List DiskEvent };

    ghost view = { λ unused. D.log unused.disk };

    ghost invariant = { λ unused. D.log unused.disk ≡ [] };
}

impl<D: Disk> UnusedDisk<D> {
    /// This disk.
    pub fn new(disk: D) -> UnusedDisk<D>
        requires { D.log disk ≡ [] }
        ensures { result ≡ [] }
    {
        UnusedDisk { disk }
    }

    /// The disk.
    pub(crate) fn into_disk(self) -> D
        ensures { D.log result ≡ [] }
    {
        self.disk
    }
}
