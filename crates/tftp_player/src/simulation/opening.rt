//! How the clients of a world open.

ghost use Rattle.std.specs.Prelude.{◌≡◌, ◌<◌, true, IfOk, IfErr, IfSome, IfNone, OnErr};
ghost use Rattle.tftp_ends.specs.End.{is_client};
ghost use Rattle.tftp_player.specs.Simulation.{Enters, IsSetup};
ghost use Rattle.tftp_player.specs.WorldSteps.{WorldRefuses};
ghost use Rattle.tftp_player.specs.World.{next_port};
ghost use Rattle.tftp_player.specs.WorldSteps.{WorldStep};
ghost use Rattle.tftp_player.specs.declared.event.Event.TheVariants.{Get, Put};

use crate::client::{Client, ClientSetup};
use crate::effect::{Effect, write_down};
use crate::simulation::Simulation;
use crate::{Report, WorldFault};
use tftp_ends::EndConfig;
use tftp_negotiate::Asked;
use tftp_wire::{Bytes, Mode};

impl Simulation {
    /// What the next client opens with, if a port is left.
    fn next_client(&self) -> Option<ClientSetup>
        ensures some { IfSome result (IsSetup self.now) }
        ensures none { IfNone result (65535 < next_port self.now) }
    {
        match self.ends.next_port() {
            Some(port) => Some(ClientSetup {
                alloc: self.alloc,
                port,
                config: EndConfig {
                    limits: self.config.limits,
                    retries: self.config.retries,
                },
            }),
            None => None,
        }
    }

    /// A client sends a read request.
    pub(super) fn get(
        &mut self,
        name: &[u8],
        mode: Mode,
        asked: &Asked,
    ) -> Result<Report, WorldFault>
        ensures steps { IfOk result (λ report.
            WorldStep self.old (Get name.now mode asked.now) report self.new) }
        ensures refused { IfErr result (WorldRefuses self.old (Get name.now mode asked.now)) }
        ensures err { OnErr result (self.new ≡ self.old) }
    {
        let Some(setup) = self.next_client() else {
            return Err(WorldFault::NoPort);
        };
        match Client::get(setup, name, mode, asked) {
            Ok((client, effect)) => self.enter(setup.port, client, effect),
            Err(fault) => Err(fault),
        }
    }

    /// A client sends a write request.
    pub(super) fn put(
        &mut self,
        name: &[u8],
        mode: Mode,
        asked: &Asked,
        file: Bytes,
    ) -> Result<Report, WorldFault>
        ensures steps { IfOk result (λ report.
            WorldStep self.old (Put name.now mode asked.now file) report self.new) }
        ensures refused { IfErr result (WorldRefuses self.old (Put name.now mode asked.now file)) }
        ensures err { OnErr result (self.new ≡ self.old) }
    {
        let Some(setup) = self.next_client() else {
            return Err(WorldFault::NoPort);
        };
        match Client::put(setup, name, mode, asked, file) {
            Ok((client, effect)) => self.enter(setup.port, client, effect),
            Err(fault) => Err(fault),
        }
    }

    /// Adds a client at the next port, and its request.
    fn enter(&mut self, port: u16, client: Client, effect: Effect) -> Result<Report, WorldFault>
        requires port { port ≡ next_port self.old }
        requires client { is_client client.end.role.side ≡ true }
        ensures enters { IfOk result (λ report.
            Enters self.old port client effect report self.new) }
        ensures memory { IfErr result (λ fault. fault ≡ WorldFault.Memory) }
        ensures err { OnErr result (self.new ≡ self.old) }
    {
        let Ok(()) = self.sent.reserve(1) else {
            return Err(WorldFault::Memory);
        };
        match self.ends.enter(port, client) {
            Ok(()) => Ok(write_down(&mut self.sent, effect)),
            Err(fault) => Err(fault),
        }
    }
}
