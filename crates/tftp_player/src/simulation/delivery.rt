//! What a datagram does at its destination.

ghost use Rattle.std.specs.Prelude.{◌≡◌, IfOk, IfErr, OnErr};
ghost use Rattle.tftp_rules.specs.Hosts.{host_of};
ghost use Rattle.tftp_rules.specs.Machine.{Elsewhere};
ghost use Rattle.tftp_player.specs.Arriving.{ArrivalRefuses};
ghost use Rattle.tftp_player.specs.WorldSteps.{Delivery, WorldRefuses, WorldStep};
ghost use Rattle.tftp_player.specs.declared.event.Event.TheVariants.{Deliver, Stray};

use crate::effect::write_down;
use crate::simulation::Simulation;
use crate::{Report, WorldFault};
use tftp_ends::Endpoint;
use tftp_wire::Bytes;

impl Simulation {
    /// The datagram at this index of all that was sent arrives.
    pub(super) fn deliver(&mut self, index: usize) -> Result<Report, WorldFault>
        ensures steps { IfOk result (λ report. WorldStep self.old (Deliver index) report self.new) }
        ensures refused { IfErr result (WorldRefuses self.old (Deliver index)) }
        ensures err { OnErr result (self.new ≡ self.old) }
    {
        if index >= self.sent.len() {
            return Err(WorldFault::NoSuchDatagram);
        }
        let to = self.sent[index].to;
        if self.ends.lacks_port(to) {
            return Err(WorldFault::NoPort);
        }
        let Ok(()) = self.sent.reserve(1) else {
            return Err(WorldFault::Memory);
        };
        let datagram = &self.sent[index];
        let bytes = datagram.bytes.as_slice();
        match self.ends.take(datagram.from, datagram.to, bytes) {
            Ok(effect) => Ok(write_down(&mut self.sent, effect)),
            Err(fault) => Err(fault),
        }
    }

    /// A datagram of these bytes arrives from neither host.
    pub(super) fn stray(
        &mut self,
        from: Endpoint,
        to: Endpoint,
        bytes: &Bytes,
    ) -> Result<Report, WorldFault>
        requires { host_of from ≡ Elsewhere }
        ensures steps { IfOk result (λ report.
            WorldStep self.old (Stray from to bytes.now) report self.new) }
        ensures refused { IfErr result (WorldRefuses self.old (Stray from to bytes.now)) }
        ensures err { OnErr result (self.new ≡ self.old) }
    {
        self.arrive(from, to, bytes.as_slice())
    }

    /// A datagram of these bytes arrives.
    pub(super) fn arrive(
        &mut self,
        from: Endpoint,
        to: Endpoint,
        bytes: &[u8],
    ) -> Result<Report, WorldFault>
        ensures arrives { IfOk result (λ report.
            Delivery self.old from to bytes.now report self.new) }
        ensures refused { IfErr result (ArrivalRefuses self.old to) }
        ensures err { OnErr result (self.new ≡ self.old) }
    {
        if self.ends.lacks_port(to) {
            return Err(WorldFault::NoPort);
        }
        let Ok(()) = self.sent.reserve(1) else {
            return Err(WorldFault::Memory);
        };
        match self.ends.take(from, to, bytes) {
            Ok(effect) => Ok(write_down(&mut self.sent, effect)),
            Err(fault) => Err(fault),
        }
    }
}
