//! What the request port does in a world.

ghost use Rattle.std.specs.Prelude.{◌≡◌, ◌↔◌, [], IfOk, IfErr, IsTrue, OnErr, Option};
ghost use Rattle.tftp_ends.specs.Action.{Decodes};
ghost use Rattle.tftp_negotiate.specs.Ranges.{IsBlockSize};
ghost use Rattle.tftp_rules.specs.Hosts.{request_port};
ghost use Rattle.tftp_wire.specs.Borrowed.{owned};
ghost use Rattle.tftp_wire.specs.declared.packet.Packet.{Packet};
ghost use Rattle.tftp_player.specs.Answer.{AnswersAll};
ghost use Rattle.tftp_player.specs.Arriving.{EndsAsk, EndsRefuse};
ghost use Rattle.tftp_player.specs.Requests.{AnyRepeats, IsRepeated, open_transfers};
ghost use Rattle.tftp_player.specs.Simulation.{AreConsistent, AreAsBefore};

use crate::WorldFault;
use crate::effect::Effect;
use crate::ends::Ends;
use crate::hosts::{REQUEST_PORT, server_at};
use crate::player::Player;
use crate::server_end::ServerEnd;
use std::alloc::Global;
use tftp_ends::{Endpoint, decode_packet};
use tftp_server::{MemStore, Occupancy, Server};
use tftp_wire::{Bytes, PacketRef};

/// What the request port answers, and the end that it opens, if it opens one.
#[derive(Drop)]
struct Answer {
    to: Option<Endpoint>,
    bytes: Vec<u8>,
    opened: Option<ServerEnd>,
}

impl Ends {
    /// The request port handles a datagram, and may open an end at the next port.
    pub(super) fn ask(&mut self, from: Endpoint, bytes: &[u8]) -> Result<Effect, WorldFault>
        requires consistent { AreConsistent self.old }
        requires block { IsBlockSize self.old.server.config.limits.max_block }
        ensures asks { IfOk result (EndsAsk from bytes.now self.old.server self.new.server
            self.old.players.items self.new.players.items) }
        ensures consistent { AreConsistent self.new }
        ensures config { self.new.server.config ≡ self.old.server.config }
        ensures refused { IfErr result (EndsRefuse request_port self.old.players.items) }
        ensures err { OnErr result (AreAsBefore self.old self.new) }
    {
        let Some(port) = self.next_port() else {
            return Err(WorldFault::NoPort);
        };
        let Ok(()) = self.players.reserve(1) else {
            return Err(WorldFault::Memory);
        };
        let Ok(()) = self.records.reserve(1) else {
            return Err(WorldFault::Memory);
        };
        let occupancy = occupancy_of(&self.players, from, bytes);
        let server = &mut self.server;
        let Ok(answer) = ask_server(self.alloc, server, occupancy, from, port, bytes) else {
            return Err(WorldFault::Memory);
        };
        let Answer { to, bytes, opened } = answer;
        let bytes = Bytes::from(bytes);
        let Some(served) = opened else {
            return Ok(Effect {
                from: REQUEST_PORT,
                to,
                bytes,
                closed: None,
            });
        };
        let player = Player::of_server(port, served);
        self.records.push_reserved((port, player.record()));
        self.players.push_reserved(player);
        Ok(Effect {
            from: server_at(port),
            to,
            bytes,
            closed: None,
        })
    }
}

/// The server answers a datagram to its request port, which finds these transfers. An end that it
/// opens at the port is taken from it.
fn ask_server(
    alloc: Global,
    server: &mut Server<MemStore>,
    occupancy: Occupancy,
    from: Endpoint,
    port: u16,
    bytes: &[u8],
) -> Result<Answer, WorldFault>
    requires empty { server.old.held ≡ [] }
    requires block { IsBlockSize server.old.config.limits.max_block }
    ensures answers { IfOk result (AnswersAll server.old occupancy from bytes.now) }
    ensures server { server.new ≡ server.old }
    ensures memory { IfErr result (λ fault. fault ≡ WorldFault.Memory) }
{
    let Ok(admission) = server.admit_beside(occupancy, from, bytes) else {
        return Err(WorldFault::Memory);
    };
    let mut out = Vec::new(alloc);
    let Ok(opened) = server.open(admission, port, &mut out) else {
        return Err(WorldFault::Memory);
    };
    let Some(transfer) = server.release(port) else {
        return Ok(Answer {
            to: opened.to,
            bytes: out,
            opened: None,
        });
    };
    let Ok(served) = ServerEnd::new(transfer, server.store()) else {
        return Err(WorldFault::Memory);
    };
    Ok(Answer {
        to: opened.to,
        bytes: out,
        opened: Some(served),
    })
}

/// What a datagram to the request port finds of the open transfers.
fn occupancy_of(players: &[Player], from: Endpoint, bytes: &[u8]) -> Occupancy
    ensures count { result.count ≡ open_transfers players.now }
    ensures repeated { (decoded : Option Packet) × Decodes bytes.now decoded
        × IsRepeated result.is_repeated from decoded players.now }
{
    let is_repeated = match decode_packet(bytes) {
        Some(packet) => any_repeats(players, from, &packet),
        None => false,
    };
    Occupancy {
        count: count_transfers(players),
        is_repeated,
    }
}

/// How many of them are open ends of the server.
fn count_transfers(players: &[Player]) -> usize
    ensures { result ≡ open_transfers players.now }
{
    players.iter().filter(|player| player.is_transfer()).count()
}

/// Whether one of them is an open end of the server that was requested from `from` by this packet.
fn any_repeats(players: &[Player], from: Endpoint, packet: &PacketRef<'_>) -> bool
    ensures { IsTrue result ↔ AnyRepeats from (owned packet.now) players.now }
{
    for player in players {
        if player.repeats(from, packet) {
            return true;
        }
    }
    false
}
