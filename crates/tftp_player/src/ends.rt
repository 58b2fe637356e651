//! The ends of a world, and the server that they ask.

mod arriving;
mod asking;

ghost use Rattle.std.specs.Prelude.{◌≡◌, ◌<◌, ◌+◌, ◌++◌, ◌∷◌, [], true, length, ◌≤◌};
ghost use Rattle.std.specs.Prelude.{◌⊎◌, IfSome, IfNone, IfOk, IfErr, OnOk, OnErr};
ghost use Rattle.tftp_ends.specs.End.{is_client};
ghost use Rattle.tftp_player.specs.Played.{client_end};
ghost use Rattle.tftp_player.specs.Simulation.{AreConsistent, AreAsBefore, EndsTimeOut};
ghost use Rattle.tftp_player.specs.World.{standing};

use crate::client::Client;
use crate::effect::Effect;
use crate::fault::WorldFault;
use crate::player::Player;
use std::alloc::Global;
use tftp_ends::Record;
use tftp_server::{MemStore, Server};

/// The server, every end that was opened, and the record of each. The server holds no transfer:
/// each is with its end.
#[derive(Drop)]
pub(crate) struct Ends {
    pub(crate) alloc: Global,
    pub(crate) server: Server<MemStore>,
    pub(crate) players: Vec<Player>,
    pub(crate) records: Vec<(u16, Record)>,
}

/// The port of the first end that opens.
const FIRST_PORT: u16 = 1024;

impl Ends {
    /// The port of the next end, if one is left.
    pub(crate) fn next_port(&self) -> Option<u16>
        ensures some { IfSome result (λ port. port ≡ 1024 + length self.now.players.items) }
        ensures fits { IfSome result (λ port. port < 65536) }
        ensures none { IfNone result (65535 < 1024 + length self.now.players.items) }
    {
        let index = self.players.len();
        if index > 64_511 {
            return None;
        }
        Some(index as u16 + FIRST_PORT)
    }

    /// The index of the end at this port, if there is one.
    pub(crate) fn index_of(&self, port: u16) -> Option<usize>
        ensures some { IfSome result (λ index.
            (port ≡ 1024 + index) × (index < length self.now.players.items)) }
        ensures none { IfNone result
            ((port < 1024) ⊎ (1024 + length self.now.players.items ≤ port)) }
    {
        if port < FIRST_PORT {
            return None;
        }
        let index = usize::from(port - FIRST_PORT);
        if index < self.players.len() {
            Some(index)
        } else {
            None
        }
    }

    /// Adds a client at the next port.
    pub(crate) fn enter(&mut self, port: u16, client: Client) -> Result<(), WorldFault>
        requires consistent { AreConsistent self.old }
        requires port { port ≡ 1024 + length self.old.players.items }
        requires client { is_client client.end.role.side ≡ true }
        ensures enters { OnOk result (self.new.players.items
            ≡ self.old.players.items ++ standing (client_end port client) ∷ []) }
        ensures consistent { AreConsistent self.new }
        ensures server { self.new.server ≡ self.old.server }
        ensures memory { IfErr result (λ fault. fault ≡ WorldFault.Memory) }
        ensures err { OnErr result (AreAsBefore self.old self.new) }
    {
        let Ok(()) = self.players.reserve(1) else {
            return Err(WorldFault::Memory);
        };
        let Ok(()) = self.records.reserve(1) else {
            return Err(WorldFault::Memory);
        };
        let player = Player::of_client(port, client);
        self.records.push_reserved((port, player.record()));
        self.players.push_reserved(player);
        Ok(())
    }

    /// The end at this index handles a timeout, unless it is closed.
    pub(crate) fn on_timeout(&mut self, index: usize, port: u16) -> Result<Effect, WorldFault>
        requires consistent { AreConsistent self.old }
        requires index { (index < length self.old.players.items) × (port ≡ 1024 + index) }
        ensures times_out { IfOk result (EndsTimeOut index self.old.players.items
            self.new.players.items) }
        ensures consistent { AreConsistent self.new }
        ensures server { self.new.server ≡ self.old.server }
        ensures memory { IfErr result (λ fault. fault ≡ WorldFault.Memory) }
        ensures err { OnErr result (AreAsBefore self.old self.new) }
    {
        let player = &mut self.players[index];
        match player.on_timeout(self.alloc) {
            Ok(effect) => {
                self.records[index] = (port, player.record());
                Ok(effect)
            }
            Err(fault) => Err(fault),
        }
    }
}
