//! The order in which transfers use the ports of a range.

ghost use Rattle.std.specs.Prelude.{◌≡◌, ◌≤◌, [], length, IfOk, MatchOption};
ghost use Rattle.tftp_loop.specs.PortOrder.{IsOrderOf, Mixes, UsesNext, coming, drawn_from};
ghost use Rattle.tftp_loop.specs.PortOrder.{port_count, ports_of};

use rand::RngExt;
use rand::rngs::StdRng;
use rand::seq::SliceRandom;
use std::alloc::{AllocError, Global};
use std::collections::VecDeque;
use std::io;
use tftp_sockets::ServerUdp;

/// A range of ports, from the first to the last.
#[derive(Clone, Copy)]
pub struct PortRange {
    pub first: u16,
    pub last: u16,
}

impl PortRange {
    /// The number of ports.
    pub(crate) fn len(self) -> usize
        ensures { result ≡ port_count self }
    {
        usize::from(self.last.saturating_sub(self.first)) + 1
    }

    /// The number of ports that the next one is drawn from: half of them.
    pub(crate) fn drawn_from(self) -> usize
        ensures { result ≡ drawn_from self }
    {
        (self.len() + 1) / 2
    }
}

/// The ports of a range in an order that an outsider cannot foretell: the next one is drawn, for each
/// transfer anew, from the half of them that is unused for longest.
#[derive(Drop)]
pub struct PortOrder {
    range: PortRange,
    /// The ports in the order in which they come, the one that is unused for longest first.
    ports: VecDeque<u16>,
    rng: StdRng,
}

impl PortOrder {
    /// The ports of the range in a random order. It fails if the system gives no random bytes, or
    /// when out of memory.
    pub fn new<N: ServerUdp>(net: &N, alloc: Global, range: PortRange) -> io::Result<PortOrder>
        ensures { IfOk result (IsOrderOf range) }
    {
        let mut rng = net.rng()?;
        let mut ports = listed(alloc, range)?;
        ports.as_mut_slice().shuffle(&mut rng);
        Ok(PortOrder {
            range,
            ports: VecDeque::from_vec(ports),
            rng,
        })
    }

    /// The range that the ports are of.
    pub(crate) fn range(&self) -> PortRange
        ensures { result ≡ self.now.range }
    {
        self.range
    }

    /// The number of ports.
    pub fn len(&self) -> usize
        ensures { result ≡ length (coming self.now) }
    {
        self.ports.len()
    }

    /// Draws a port from the next ones, so many, as the first that comes. The random bytes are of the
    /// generator that the system has seeded.
    pub fn mix(&mut self, among: usize)
        ensures { Mixes among self.old self.new }
    {
        let most = among.min(self.ports.len());
        if most > 0 {
            let drawn = self.rng.random_range(0..most);
            self.ports.swap(0, drawn);
        }
    }

    /// The next port, which is then the last one. `None` if there are none.
    pub fn next(&mut self) -> Option<u16>
        ensures { MatchOption result
            ((coming self.old ≡ []) × (self.new ≡ self.old))
            (λ port. UsesNext self.old self.new port) }
    {
        let Some(&port) = self.ports.front() else {
            return None;
        };
        self.ports.rotate_left(1);
        Some(port)
    }
}

/// The ports of the range, in rising order.
fn listed(alloc: Global, range: PortRange) -> Result<Vec<u16>, AllocError>
    ensures { IfOk result (λ ports. ports.items ≡ ports_of range) }
{
    let mut ports = Vec::new(alloc);
    for port in range.first..range.last {
        ports.push(port)?;
    }
    ports.push(range.last)?;
    Ok(ports)
}
