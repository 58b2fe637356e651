//! An end of a world at its port.

ghost use Rattle.std.specs.Prelude.{◌≡◌, ◌↔◌, false, true, option_map, IfOk, IfErr, IsTrue, OnErr};
ghost use Rattle.tftp_ends.specs.End.{is_client};
ghost use Rattle.tftp_wire.specs.Borrowed.{owned};
ghost use Rattle.tftp_player.specs.EndSteps.{EndTimesOut, EndTakes};
ghost use Rattle.tftp_player.specs.Played.{client_end, served_end};
ghost use Rattle.tftp_player.specs.Requests.{is_transfer, Repeats};
ghost use Rattle.tftp_player.specs.ServerEnd.{ServerEndKept};
ghost use Rattle.tftp_player.specs.Simulation.{stored_in};
ghost use Rattle.tftp_player.specs.World.{end_address, end_committed, end_record, standing};
ghost use Rattle.tftp_player.specs.WorldSteps.{armed_end};

use crate::client::Client;
use crate::effect::Effect;
use crate::fault::WorldFault;
use crate::played_end::PlayedEnd;
use crate::server_end::ServerEnd;
use std::alloc::Global;
use std::marker::Model;
use tftp_ends::{Endpoint, Record};
use tftp_server::{MemStore, Server};
use tftp_wire::PacketRef;

/// An end that was opened. Its model is the end of the world.
#[derive(Drop)]
pub(crate) struct Player {
    port: u16,
    end: PlayedEnd,
}

impl Model for Player {
    ghost use Rattle.tftp_player.specs.World.{WorldEnd};
    ghost use Rattle.tftp_player.specs.Played.{stands, IsPlayed};

    ghost Value = { WorldEnd };

    ghost view = { λ p. stands p.port p.end };

    ghost invariant = { λ p. IsPlayed p.end };
}

impl Player {
    /// A client at this port.
    pub(crate) fn of_client(port: u16, client: Client) -> Player
        requires { is_client client.end.role.side ≡ true }
        ensures { result ≡ standing (client_end port client) }
    {
        Player {
            port,
            end: PlayedEnd::Client(client),
        }
    }

    /// An end of the server at this port.
    pub(crate) fn of_server(port: u16, served: ServerEnd) -> Player
        requires { ServerEndKept served }
        ensures { result ≡ standing (served_end port served) }
    {
        Player {
            port,
            end: PlayedEnd::Server(served),
        }
    }

    pub(crate) fn record(&self) -> Record
        ensures { result ≡ end_record self.now }
    {
        self.end.record()
    }

    pub(crate) fn address(&self) -> Endpoint
        ensures { result ≡ end_address self.now }
    {
        self.end.address(self.port)
    }

    /// Handles a timeout. A closed end does nothing.
    pub(crate) fn on_timeout(&mut self, alloc: Global) -> Result<Effect, WorldFault>
        ensures turns { IfOk result (EndTimesOut self.old self.new) }
        ensures memory { IfErr result (λ fault. fault ≡ WorldFault.Memory) }
        ensures err { OnErr result (self.new ≡ self.old) }
    {
        self.end.on_timeout(alloc, self.port)
    }

    /// Handles a datagram. A closed end does nothing.
    pub(crate) fn on_datagram(
        &mut self,
        alloc: Global,
        server: &mut Server<MemStore>,
        from: Endpoint,
        bytes: &[u8],
    ) -> Result<Effect, WorldFault>
        requires { server.old.store.refuses ≡ false }
        ensures takes { IfOk result (EndTakes server.old.config.overwrite from bytes.now
            self.old self.new server.old.store.files server.new.store.files) }
        ensures rest { server.new ≡ record server.old { store = server.new.store } }
        ensures quiet { server.new.store.refuses ≡ false }
        ensures memory { IfErr result (λ fault. fault ≡ WorldFault.Memory) }
        ensures err { OnErr result ((self.new ≡ self.old) × (server.new ≡ server.old)) }
    {
        self.end.on_datagram(alloc, server, self.port, from, bytes)
    }

    /// Sets its next append or commit to be refused, if it is an open receiver.
    pub(crate) fn refuse_next(&mut self)
        ensures { self.new ≡ armed_end self.old }
    {
        self.end.refuse_next();
    }

    /// What a receiver has stored.
    pub(crate) fn stored(&self) -> Option<&[u8]>
        ensures { option_map (λ bytes. bytes.now) result ≡ stored_in self.now }
    {
        self.end.stored()
    }

    /// Whether a receiver has committed what it stored.
    pub(crate) fn committed(&self) -> bool
        ensures { result ≡ end_committed self.now }
    {
        self.end.committed()
    }

    /// Whether it is an open end of the server.
    pub(crate) fn is_transfer(&self) -> bool
        ensures { result ≡ is_transfer self.now }
    {
        self.end.is_transfer()
    }

    /// Whether it is an open end of the server that was requested from `from` by this packet.
    pub(crate) fn repeats(&self, from: Endpoint, packet: &PacketRef<'_>) -> bool
        ensures { IsTrue result ↔ Repeats from (owned packet.now) self.now }
    {
        self.end.repeats(from, packet)
    }
}
