//! A world that is played by the real machines.

ghost use Rattle.std.specs.Prelude.{◌≡◌, true, false, option_map, IfOk, IfErr, OnOk, OnErr, IsTrue};
ghost use Rattle.std.specs.Prelude.{◌↔◌};
ghost use Rattle.tftp_server.specs.Config.{IsConfig};
ghost use Rattle.tftp_store.specs.Memory.{contents, has_distinct_paths, in_path_order};
ghost use Rattle.tftp_rules.specs.Hosts.{host_of};
ghost use Rattle.tftp_rules.specs.Machine.{Elsewhere};
ghost use Rattle.tftp_player.specs.Played.{records_from};
ghost use Rattle.tftp_player.specs.PlayedWorld.{strayed_after, HasSentEach, IsHome, WasPlayed};
ghost use Rattle.tftp_player.specs.Simulation.{stored_at, committed_at};
ghost use Rattle.tftp_player.specs.Arriving.{IsPlayable};
ghost use Rattle.tftp_player.specs.WorldSteps.{WorldStep, WorldRefuses};
ghost use Rattle.tftp_player.specs.Settling.{Settled, StopsAt};
ghost use Rattle.tftp_player.specs.World.{new_world, file_at};
ghost use Rattle.tftp_player.specs.WorldSafety.{IsSafe};

use crate::datagram::Datagram;
use crate::event::Event;
use crate::fault::WorldFault;
use crate::report::Report;
use crate::simulation::Simulation;
use std::alloc::Global;
use std::marker::Model;
use tftp_ends::{Endpoint, Record};
use tftp_file::Path;
use tftp_rules::is_foreign;
use tftp_server::Config;

/// One server, its clients, and a network from which no datagram is ever removed.
///
/// The caller chooses each event ([`World::apply`]), and so what the network does: a datagram may
/// be delivered never, once or often, in any order and at any time. The server is 10.0.0.1 with
/// request port 69, the clients are at 10.0.0.2, and every end that opens has the next port from
/// 1,024 on.
///
/// It is safe at all times: the two ends of an established transfer have one block size, what a
/// receiver stored is a prefix of its peer's file and all of it once it is complete, and a
/// sender is complete only after its receiver. The laws on a world that was played (`WasPlayed`)
/// hold of any `World`.
#[derive(Drop)]
pub struct World {
    simulation: Simulation,
    /// Whether a datagram of neither host has arrived.
    strayed: bool,
}

impl Model for World {
    ghost use Rattle.tftp_player.specs.PlayedWorld.{PlayedWorld, HasSentEach};
    ghost use Rattle.tftp_player.specs.WorldKept.{Refines};

    ghost Value = { PlayedWorld };

    ghost view = { λ w. record { state = w.simulation; strayed = w.strayed } };

    ghost invariant = { λ w. Refines w.strayed w.simulation × HasSentEach w.simulation };
}

impl World {
    /// A world in which nothing has happened, whose server has these files. It fails only if it is
    /// out of memory.
    pub fn new(
        alloc: Global,
        files: Vec<(Path, Vec<u8>)>,
        config: Config,
    ) -> Result<World, WorldFault>
        requires paths { has_distinct_paths (contents files.items) ≡ true }
        requires config { IsConfig config }
        ensures new { IfOk result (λ world.
            world.state ≡ new_world (in_path_order (contents files.items)) config) }
        ensures strayed { IfOk result (λ world. world.strayed ≡ false) }
        ensures memory { IfErr result (λ fault. fault ≡ WorldFault.Memory) }
        ensures safe { IfOk result (λ world. IsSafe world.state) }
        ensures home { IfOk result IsHome }
        ensures played { IfOk result WasPlayed }
    {
        let simulation = Simulation::new(alloc, files, config)?;
        Ok(World {
            simulation,
            strayed: false,
        })
    }

    /// Whether a stray, a datagram of neither host, has arrived.
    pub fn strayed(&self) -> bool
        ensures { result ≡ self.now.strayed }
    {
        self.strayed
    }

    /// Whether an endpoint is at neither host, as a stray's sender is.
    pub fn is_foreign(endpoint: &Endpoint) -> bool
        ensures { IsTrue result ↔ (host_of endpoint.now ≡ Elsewhere) }
    {
        is_foreign(endpoint)
    }

    /// All that was ever sent, in order. Each end sent a datagram when it opened.
    pub fn sent(&self) -> &[Datagram]
        ensures sent { result.now ≡ self.now.state.sent }
        ensures each { HasSentEach self.now.state }
    {
        self.simulation.sent()
    }

    /// The record of every end that was ever opened, with its port, in order of opening.
    pub fn records(&self) -> &[(u16, Record)]
        ensures records { result.now ≡ records_from 1024 self.now.state.ends }
        ensures safe { IsSafe self.now.state }
        ensures home { IsHome self.now }
        ensures played { WasPlayed self.now }
    {
        self.simulation.records()
    }

    /// What the receiver at this port has stored, also after it closed. None for a sender.
    pub fn stored(&self, port: u16) -> Option<&[u8]>
        ensures { option_map (λ bytes. bytes.now) result ≡ stored_at self.now.state.ends port }
    {
        self.simulation.stored(port)
    }

    /// Whether the receiver at this port has committed what it stored.
    pub fn committed(&self, port: u16) -> bool
        ensures { result ≡ committed_at self.now.state.ends port }
    {
        self.simulation.committed(port)
    }

    /// The server's file of this path, as it is now.
    pub fn file(&self, path: &Path) -> Option<&[u8]>
        ensures { option_map (λ bytes. bytes.now) result ≡ file_at self.now.state.files path.now }
    {
        self.simulation.file(path)
    }

    /// Plays an event. A refused event changes nothing.
    ///
    /// `NoSuchDatagram` and `NoSuchEnd` if an event names what was never sent or opened; `NoPort`
    /// if an end could open and no port is left; `BadRequest` if the client refuses the request, as
    /// one with an option that its transfer cannot use, or with a file too long for its blocks to
    /// be numbered; `Memory` if it is out of memory. The sender of a stray is foreign
    /// ([`World::is_foreign`]).
    ///
    /// It copies a datagram's bytes once, since an end retains the last one that it sent; a request
    /// is compared with that of each open transfer. A file is never copied: the server and the ends
    /// that send it share its bytes.
    pub fn apply(&mut self, event: Event) -> Result<Report, WorldFault>
        requires { IsPlayable event }
        // the step of the event
        ensures steps { IfOk result (λ report.
            WorldStep self.old.state event report self.new.state) }
        ensures strayed { OnOk result (self.new.strayed ≡ strayed_after self.old.strayed event) }
        ensures refused { IfErr result (WorldRefuses self.old.state event) }
        ensures err { OnErr result (self.new ≡ self.old) }
        // the world after it is safe, and without strays every peer is at one of the two hosts
        ensures safe { IsSafe self.new.state }
        ensures home { IsHome self.new }
        ensures played { WasPlayed self.new }
    {
        let stray = event.is_stray();
        match self.simulation.step(event) {
            Ok(report) => {
                self.strayed |= stray;
                Ok(report)
            }
            Err(fault) => Err(fault),
        }
    }

    /// Delivers the datagram at this index and each one after it once, also those that are sent
    /// meanwhile, until none is left or `most` were delivered, and returns how many.
    ///
    /// A refusal stops it, and the deliveries before it remain. It is that many calls of
    /// [`World::apply`].
    pub fn settle(&mut self, from: usize, most: usize) -> Result<usize, WorldFault>
        // that many deliveries
        ensures settles { IfOk result (λ count.
            Settled self.old.state from most count self.new.state) }
        ensures stops { IfErr result (λ fault.
            StopsAt self.old.state from most fault self.new.state) }
        ensures strayed { self.new.strayed ≡ self.old.strayed }
        // the world after them is safe, and without strays every peer is at one of the two hosts
        ensures safe { IsSafe self.new.state }
        ensures home { IsHome self.new }
        ensures played { WasPlayed self.new }
    {
        let _ = &self.simulation;
        let mut count = 0;
        while count < most && count < self.sent().len().saturating_sub(from) {
            match self.apply(Event::Deliver(from + count)) {
                Ok(_) => count += 1,
                Err(fault) => return Err(fault),
            }
        }
        Ok(count)
    }
}
