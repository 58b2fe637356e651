//! A client of a world: its end, and the file that it sends or receives.

ghost use Rattle.std.specs.Prelude.{◌≡◌, ◌++◌, [], false, length, is_some, option_map, IfOk, IfErr};
ghost use Rattle.std.specs.Prelude.{OnOk, OnErr};
ghost use Rattle.tftp_ends.specs.End.{record_of, outcome_of};
ghost use Rattle.tftp_file.specs.Netascii.{wire_text};
ghost use Rattle.tftp_ends.specs.Opening.{MayGet, MayPut, getting, putting};
ghost use Rattle.tftp_ends.specs.Step.{timeout_turn};
ghost use Rattle.tftp_rules.specs.Hosts.{request_port};
ghost use Rattle.tftp_player.specs.Clients.{ClientTurns, ClientDatagramStep, asking_client};
ghost use Rattle.tftp_player.specs.Clients.{sending_client, stored_by, armed_client, client_at};
ghost use Rattle.tftp_player.specs.Clients.{holding_in, asking_effect, sending_effect, open_fault};
ghost use Rattle.tftp_player.specs.Clients.{AskRefuses};

use crate::client_sink::ClientSink;
use crate::effect::{Effect, effect_of};
use crate::fault::WorldFault;
use crate::hosts::{REQUEST_PORT, client_at};
use crate::room::{answer_room, copied, largest_block, reserved};
use std::alloc::Global;
use std::marker::Model;
use tftp_ends::{End, EndConfig, EndFault, Endpoint, OpenFault, Outgoing, Record};
use tftp_file::{Files, MAX_WIRE, MemSource, SharedBytes, wire_length_within};
use tftp_negotiate::Asked;
use tftp_wire::{Bytes, Mode};

/// What a world gives a client that opens.
#[derive(Clone, Copy)]
pub(crate) struct ClientSetup {
    pub(crate) alloc: Global,
    pub(crate) port: u16,
    pub(crate) config: EndConfig,
}

/// A client, with its source if it sends and its sink if it receives.
#[derive(Drop)]
pub(crate) struct Client {
    end: End,
    files: Files<MemSource, ClientSink>,
    /// The file that it sends, as its host stores it; empty for one that receives.
    file: SharedBytes,
    /// The largest block size that it may agree to.
    max_block: u16,
}

impl Model for Client {
    ghost use Rattle.tftp_ends.specs.Files.{AreFilesOf};
    ghost use Rattle.tftp_player.specs.PlayedClient.{PlayedClient};
    ghost use Rattle.tftp_player.specs.Room.{AgreesWithin};

    ghost Value = { PlayedClient };

    ghost view = { λ c. record { end = c.end; files = c.files; file = c.file } };

    ghost invariant = { λ c. AreFilesOf c.end.role.side c.files
        × AgreesWithin c.max_block c.end.position.phase };
}

impl Client {
    /// A client that asks the server for a file, and its request.
    pub(crate) fn get(
        setup: ClientSetup,
        name: &[u8],
        mode: Mode,
        asked: &Asked,
    ) -> Result<(Client, Effect), WorldFault>
        ensures client { IfOk result (λ opened.
            opened.0 ≡ asking_client (getting request_port name.now mode asked.now
            setup.config.limits.max_file setup.config.retries)) }
        ensures effect { IfOk result (λ opened.
            opened.1 ≡ asking_effect setup.port name.now mode asked.now) }
        ensures ok { OnOk result (MayGet name.now mode asked.now) }
        ensures refused { IfErr result (AskRefuses (MayGet name.now mode asked.now)) }
    {
        let mut out = Vec::new(setup.alloc);
        match End::get(
            setup.alloc,
            REQUEST_PORT,
            name,
            mode,
            asked,
            &setup.config,
            &mut out,
        ) {
            Ok((end, step)) => Ok((
                Client {
                    end,
                    files: Files::Sink(ClientSink::new(setup.alloc)),
                    file: SharedBytes::new(),
                    max_block: largest_block(asked),
                },
                effect_of(client_at(setup.port), step, out),
            )),
            Err(fault) => Err(open_fault(fault)),
        }
    }

    /// A client that sends this file to the server, and its request.
    pub(crate) fn put(
        setup: ClientSetup,
        name: &[u8],
        mode: Mode,
        asked: &Asked,
        file: Bytes,
    ) -> Result<(Client, Effect), WorldFault>
        ensures client { IfOk result (λ opened.
            opened.0 ≡ sending_client (putting request_port name.now mode asked.now
            (length (wire_text mode file)) setup.config.limits.max_file setup.config.retries)
            (wire_text mode file) file) }
        ensures effect { IfOk result (λ opened.
            opened.1 ≡ sending_effect setup.port name.now mode asked.now) }
        ensures ok { OnOk result (MayPut name.now mode asked.now (length (wire_text mode file))) }
        ensures refused { IfErr result
            (AskRefuses (MayPut name.now mode asked.now (length (wire_text mode file)))) }
    {
        let length = wire_length_within(file.as_slice(), mode, MAX_WIRE + 1);
        let mut out = Vec::new(setup.alloc);
        match End::put(
            setup.alloc,
            REQUEST_PORT,
            name,
            mode,
            asked,
            length,
            &setup.config,
            &mut out,
        ) {
            Ok((end, step)) => {
                let Ok(file) = SharedBytes::from_vec(file.into_vec()) else {
                    return Err(WorldFault::Memory);
                };
                let Ok(shared) = file.clone() else {
                    return Err(WorldFault::Memory);
                };
                Ok((
                    Client {
                        end,
                        files: Files::Source(MemSource::of_shared(shared, mode)),
                        file,
                        max_block: largest_block(asked),
                    },
                    effect_of(client_at(setup.port), step, out),
                ))
            }
            Err(fault) => Err(open_fault(fault)),
        }
    }

    pub(crate) fn record(&self) -> Record
        ensures { result ≡ record_of self.now.end }
    {
        self.end.record()
    }

    /// Handles a datagram, while it is open.
    pub(crate) fn on_datagram(
        &mut self,
        alloc: Global,
        port: u16,
        from: Endpoint,
        bytes: &[u8],
    ) -> Result<Effect, WorldFault>
        requires { is_some (outcome_of self.old.end.position.phase) ≡ false }
        ensures steps { IfOk result
            (ClientDatagramStep port from bytes.now self.old self.new) }
        ensures memory { IfErr result (λ fault. fault ≡ WorldFault.Memory) }
        ensures err { OnErr result (self.new ≡ self.old) }
    {
        let room = answer_room(self.max_block, &self.end.record());
        let Ok(out) = reserved(alloc, room) else {
            return Err(WorldFault::Memory);
        };
        match self.end.handle_datagram(&mut self.files, from, bytes) {
            Ok((step, outgoing)) => {
                let out = copied(out, self.end.bytes_of(outgoing));
                Ok(effect_of(client_at(port), step, out))
            }
            Err(EndFault::Memory) => Err(WorldFault::Memory),
            Err(EndFault::Closed) => unreachable!(),
        }
    }

    /// Handles a timeout, while it is open.
    pub(crate) fn on_timeout(&mut self, alloc: Global, port: u16) -> Result<Effect, WorldFault>
        requires { is_some (outcome_of self.old.end.position.phase) ≡ false }
        ensures turns { IfOk result (ClientTurns port self.old self.new
            (timeout_turn self.old.end) self.old.files) }
        ensures memory { IfErr result (λ fault. fault ≡ WorldFault.Memory) }
        ensures err { OnErr result (self.new ≡ self.old) }
    {
        let Ok(out) = reserved(alloc, self.end.bytes_of(Outgoing::LastSent).len()) else {
            return Err(WorldFault::Memory);
        };
        match self.end.handle_timeout() {
            Ok((step, outgoing)) => {
                let out = copied(out, self.end.bytes_of(outgoing));
                Ok(effect_of(client_at(port), step, out))
            }
            Err(_) => unreachable!(),
        }
    }

    /// Sets its next append or commit to be refused, if it is an open receiver.
    pub(crate) fn refuse_next(&mut self)
        ensures { self.new ≡ armed_client self.old }
    {
        if self.end.record().outcome.is_some() {
            return;
        }
        if let Files::Sink(sink) = &mut self.files {
            sink.refuse_next();
        }
    }

    /// What a receiver has stored.
    pub(crate) fn stored(&self) -> Option<&[u8]>
        ensures { option_map (λ bytes. bytes.now) result ≡ stored_by self.now.files }
    {
        match &self.files {
            Files::Source(_) => None,
            Files::Sink(sink) => Some(sink.as_bytes()),
        }
    }

    /// Whether a receiver has committed what it stored.
    pub(crate) fn committed(&self) -> bool
        ensures { result ≡ (holding_in self.now.files).committed }
    {
        match &self.files {
            Files::Source(_) => false,
            Files::Sink(sink) => sink.is_committed(),
        }
    }
}

/// The world's fault if a client was not opened.
fn open_fault(fault: OpenFault) -> WorldFault
    ensures { result ≡ open_fault fault }
{
    match fault {
        OpenFault::Memory => WorldFault::Memory,
        _ => WorldFault::BadRequest,
    }
}
