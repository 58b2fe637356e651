//! What plays an end of a world.

ghost use Rattle.std.specs.Prelude.{◌≡◌, ◌↔◌, false, option_map, ℕ, IfOk, IfErr, IsTrue, OnErr};
ghost use Rattle.tftp_ends.specs.End.{record_of};
ghost use Rattle.tftp_wire.specs.Borrowed.{owned};
ghost use Rattle.tftp_player.specs.EndSteps.{EndTimesOut, EndTakes};
ghost use Rattle.tftp_player.specs.Played.{played_end, played_state, stands, IsPlayed};
ghost use Rattle.tftp_player.specs.Requests.{is_transfer, Repeats};
ghost use Rattle.tftp_player.specs.Simulation.{stored_in};
ghost use Rattle.tftp_player.specs.World.{end_committed};
ghost use Rattle.tftp_player.specs.WorldSteps.{armed_end};

use crate::client::Client;
use crate::effect::{Effect, no_effect};
use crate::fault::WorldFault;
use crate::hosts::{client_at, server_at};
use crate::server_end::ServerEnd;
use std::alloc::Global;
use tftp_ends::{Endpoint, Record};
use tftp_server::{MemStore, Server};
use tftp_wire::PacketRef;

/// What plays an end.
#[derive(Drop)]
pub(crate) enum PlayedEnd {
    /// A client.
    Client(Client),
    /// A transfer of the server.
    Server(ServerEnd),
}

impl PlayedEnd {
    pub(crate) fn record(&self) -> Record
        ensures { result ≡ record_of (played_state self.now) }
    {
        match self {
            PlayedEnd::Client(client) => client.record(),
            PlayedEnd::Server(served) => served.transfer.record(),
        }
    }

    pub(crate) fn address(&self, port: u16) -> Endpoint
        ensures { result ≡ (played_end port self.now).address }
    {
        match self {
            PlayedEnd::Client(_) => client_at(port),
            PlayedEnd::Server(_) => server_at(port),
        }
    }

    /// Handles a timeout. A closed end does nothing.
    pub(crate) fn on_timeout(&mut self, alloc: Global, port: u16) -> Result<Effect, WorldFault>
        requires { IsPlayed self.old }
        ensures kept { IsPlayed self.new }
        ensures turns { IfOk result (EndTimesOut (stands port self.old) (stands port self.new)) }
        ensures memory { IfErr result (λ fault. fault ≡ WorldFault.Memory) }
        ensures err { OnErr result (self.new ≡ self.old) }
    {
        if self.record().outcome.is_some() {
            return Ok(no_effect(alloc, self.address(port)));
        }
        match self {
            PlayedEnd::Client(client) => client.on_timeout(alloc, port),
            PlayedEnd::Server(served) => served.on_timeout(alloc, port),
        }
    }

    /// Handles a datagram. A closed end does nothing.
    pub(crate) fn on_datagram(
        &mut self,
        alloc: Global,
        server: &mut Server<MemStore>,
        port: u16,
        from: Endpoint,
        bytes: &[u8],
    ) -> Result<Effect, WorldFault>
        requires kept { IsPlayed self.old }
        requires quiet { server.old.store.refuses ≡ false }
        ensures kept { IsPlayed self.new }
        ensures takes { IfOk result (EndTakes server.old.config.overwrite from bytes.now
            (stands port self.old) (stands port self.new) server.old.store.files
            server.new.store.files) }
        ensures rest { server.new ≡ record server.old { store = server.new.store } }
        ensures quiet { server.new.store.refuses ≡ false }
        ensures memory { IfErr result (λ fault. fault ≡ WorldFault.Memory) }
        ensures err { OnErr result ((self.new ≡ self.old) × (server.new ≡ server.old)) }
    {
        if self.record().outcome.is_some() {
            return Ok(no_effect(alloc, self.address(port)));
        }
        match self {
            PlayedEnd::Client(client) => client.on_datagram(alloc, port, from, bytes),
            PlayedEnd::Server(served) => served.on_datagram(alloc, server, port, from, bytes),
        }
    }

    /// Sets its next append or commit to be refused, if it is an open receiver.
    pub(crate) fn refuse_next(&mut self)
        requires { IsPlayed self.old }
        ensures kept { IsPlayed self.new }
        ensures armed { (port : ℕ) → stands port self.new ≡ armed_end (stands port self.old) }
    {
        match self {
            PlayedEnd::Client(client) => client.refuse_next(),
            PlayedEnd::Server(served) => served.refuse_next(),
        }
    }

    /// What a receiver has stored.
    pub(crate) fn stored(&self) -> Option<&[u8]>
        requires { IsPlayed self.now }
        ensures { (port : ℕ) → option_map (λ bytes. bytes.now) result
            ≡ stored_in (stands port self.now) }
    {
        match self {
            PlayedEnd::Client(client) => client.stored(),
            PlayedEnd::Server(served) => served.stored(),
        }
    }

    /// Whether a receiver has committed what it stored.
    pub(crate) fn committed(&self) -> bool
        ensures { (port : ℕ) → result ≡ end_committed (stands port self.now) }
    {
        match self {
            PlayedEnd::Client(client) => client.committed(),
            PlayedEnd::Server(served) => served.committed(),
        }
    }

    /// Whether it is an open end of the server.
    pub(crate) fn is_transfer(&self) -> bool
        requires { IsPlayed self.now }
        ensures { (port : ℕ) → result ≡ is_transfer (stands port self.now) }
    {
        match self {
            PlayedEnd::Client(_) => false,
            PlayedEnd::Server(served) => served.transfer.record().outcome.is_none(),
        }
    }

    /// Whether it is an open end of the server that was requested from `from` by this packet.
    pub(crate) fn repeats(&self, from: Endpoint, packet: &PacketRef<'_>) -> bool
        requires { IsPlayed self.now }
        ensures { (port : ℕ) → IsTrue result
            ↔ Repeats from (owned packet.now) (stands port self.now) }
    {
        match self {
            PlayedEnd::Client(_) => false,
            PlayedEnd::Server(served) => served.transfer.repeats(from, packet),
        }
    }
}
