//! What a datagram does at its destination.

ghost use Rattle.std.specs.Prelude.{◌≡◌, ◌≢◌, true, false, ◌<◌, ◌+◌, length, IfOk, IfErr, OnErr};
ghost use Rattle.tftp_negotiate.specs.Ranges.{IsBlockSize};
ghost use Rattle.tftp_player.specs.Simulation.{AreConsistent, AreAsBefore, EndsTake};
ghost use Rattle.tftp_player.specs.Arriving.{EndsDelivery, EndsLackPort, EndsRefuse};

use crate::WorldFault;
use crate::effect::{Effect, no_effect};
use crate::ends::Ends;
use crate::hosts::REQUEST_PORT;
use tftp_ends::Endpoint;

impl Ends {
    /// Whether a datagram to there could open an end, and no port is left for it.
    pub(crate) fn lacks_port(&self, to: Endpoint) -> bool
        ensures lacks { result ≡ true → EndsLackPort to self.now.players.items }
        ensures has { result ≡ false → EndsLackPort to self.now.players.items → ⊥ }
    {
        if differs(to, REQUEST_PORT) {
            return false;
        }
        match self.next_port() {
            Some(_) => false,
            None => true,
        }
    }

    /// The request port or an end handles a datagram; without one it is lost.
    pub(crate) fn take(
        &mut self,
        from: Endpoint,
        to: Endpoint,
        bytes: &[u8],
    ) -> Result<Effect, WorldFault>
        requires consistent { AreConsistent self.old }
        requires block { IsBlockSize self.old.server.config.limits.max_block }
        ensures arrives { IfOk result (EndsDelivery from to bytes.now self.old.server
            self.new.server self.old.players.items self.new.players.items) }
        ensures consistent { AreConsistent self.new }
        ensures config { self.new.server.config ≡ self.old.server.config }
        ensures refused { IfErr result (EndsRefuse to self.old.players.items) }
        ensures err { OnErr result (AreAsBefore self.old self.new) }
    {
        if !differs(to, REQUEST_PORT) {
            return self.ask(from, bytes);
        }
        match self.index_of(to.port) {
            Some(index) => self.on_datagram(index, from, to, bytes),
            None => Ok(no_effect(self.alloc, to)),
        }
    }

    /// The end at this index handles a datagram, unless it is closed or on the other host.
    fn on_datagram(
        &mut self,
        index: usize,
        from: Endpoint,
        to: Endpoint,
        bytes: &[u8],
    ) -> Result<Effect, WorldFault>
        requires consistent { AreConsistent self.old }
        requires index { (index < length self.old.players.items) × (to.port ≡ 1024 + index) }
        ensures steps { IfOk result (EndsTake index from to bytes.now self.old.server
            self.new.server self.old.players.items self.new.players.items) }
        ensures consistent { AreConsistent self.new }
        ensures memory { IfErr result (λ fault. fault ≡ WorldFault.Memory) }
        ensures err { OnErr result (AreAsBefore self.old self.new) }
    {
        let player = &mut self.players[index];
        if differs(player.address(), to) {
            return Ok(no_effect(self.alloc, to));
        }
        match player.on_datagram(self.alloc, &mut self.server, from, bytes) {
            Ok(effect) => {
                self.records[index] = (to.port, player.record());
                Ok(effect)
            }
            Err(fault) => Err(fault),
        }
    }
}

fn differs(a: Endpoint, b: Endpoint) -> bool
    ensures differs { result ≡ true → a ≢ b }
    ensures same { result ≡ false → a ≡ b }
{
    a != b
}
