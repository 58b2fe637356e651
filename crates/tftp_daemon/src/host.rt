//! What `tftpd` has of its host, and what is left of that.

ghost use Rattle.std.specs.Prelude.{◌≡◌, None};

use std::alloc::Global;
use tftp_disk::Disk;
use tftp_sockets::Udp;
use tftp_status::{Reporting, UnusedDisk};

/// What `tftpd` has of its host, before its command line is read.
#[derive(Drop)]
pub struct Host<'a, P, N, D: Disk> {
    /// It prints, has the time, and supervises other servers.
    pub rt: &'a P,
    pub alloc: Global,
    /// UDP, the clock and the lines.
    pub net: N,
    /// The disk of the folder that is served.
    pub served: D,
    /// The disk of what is counted.
    pub counts: UnusedDisk<D>,
}

/// What is left of the host once `tftpd` has run.
#[derive(Drop)]
pub struct Devices<N, D: Disk> {
    pub net: N,
    /// What was reported of the server.
    pub reporting: Reporting<D>,
}

impl<P, N: Udp, D: Disk> Host<'_, P, N, D> {
    /// What is left of it without a server.
    pub(crate) fn into_devices(self) -> Devices<N, D>
        ensures log { N.log result.net ≡ N.log self.entry.net }
        ensures none { result.reporting.report ≡ None }
    {
        Devices {
            net: self.net,
            reporting: Reporting::new(self.alloc, self.counts, None),
        }
    }
}
