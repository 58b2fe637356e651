//! The server and the clients of a world, and the network between them.

mod delivery;
mod opening;

ghost use Rattle.std.specs.Prelude.{◌≡◌, ◌+◌, [], true, length, option_map, IfOk, IfErr, OnErr};
ghost use Rattle.tftp_server.specs.Config.{IsConfig};
ghost use Rattle.tftp_store.specs.Memory.{contents, has_distinct_paths, in_path_order};
ghost use Rattle.tftp_player.specs.Arriving.{IsPlayable};
ghost use Rattle.tftp_player.specs.World.{new_world, file_at};
ghost use Rattle.tftp_player.specs.WorldSteps.{WorldStep, WorldRefuses};
ghost use Rattle.tftp_player.specs.declared.event.Event.TheVariants.{Timeout, RefuseStore};
ghost use Rattle.tftp_player.specs.Played.{records_from};
ghost use Rattle.tftp_player.specs.Simulation.{stored_at, committed_at};

use crate::datagram::Datagram;
use crate::effect::write_down;
use crate::ends::Ends;
use crate::event::Event;
use crate::fault::WorldFault;
use crate::report::Report;
use std::alloc::Global;
use std::marker::Model;
use tftp_ends::Record;
use tftp_file::Path;
use tftp_server::{Config, MemStore, Server};

/// The server, the clients, their records and what was sent, which are consistent.
#[derive(Drop)]
pub(crate) struct Simulation {
    alloc: Global,
    config: Config,
    ends: Ends,
    sent: Vec<Datagram>,
}

impl Model for Simulation {
    ghost use Rattle.std.specs.Prelude.{◌≡◌};
    ghost use Rattle.tftp_player.specs.World.{WorldState};

    ghost Value = { WorldState };

    ghost use Rattle.tftp_negotiate.specs.Ranges.{IsBlockSize};
    ghost use Rattle.tftp_player.specs.Simulation.{AreConsistent, world_of};

    ghost view = { λ w. world_of w.config w.sent.items w.ends.server w.ends.players.items };

    ghost invariant = { λ w. (w.ends.server.config ≡ w.config)
        × AreConsistent w.ends
        × IsBlockSize w.config.limits.max_block };
}

impl Simulation {
    /// Nothing has happened, and the server has these files.
    pub(crate) fn new(
        alloc: Global,
        files: Vec<(Path, Vec<u8>)>,
        config: Config,
    ) -> Result<Simulation, WorldFault>
        requires paths { has_distinct_paths (contents files.items) ≡ true }
        requires config { IsConfig config }
        ensures new { IfOk result (λ world.
            world ≡ new_world (in_path_order (contents files.items)) config) }
        ensures memory { IfErr result (λ fault. fault ≡ WorldFault.Memory) }
    {
        let Ok(store) = MemStore::new(alloc, files) else {
            return Err(WorldFault::Memory);
        };
        let Ok(server) = Server::new(alloc, config, store) else {
            return Err(WorldFault::Memory);
        };
        Ok(Simulation {
            alloc,
            config,
            ends: Ends {
                alloc,
                server,
                players: Vec::new(alloc),
                records: Vec::new(alloc),
            },
            sent: Vec::new(alloc),
        })
    }

    pub(crate) fn sent(&self) -> &[Datagram]
        ensures { result.now ≡ self.now.sent }
    {
        self.sent.as_slice()
    }

    pub(crate) fn records(&self) -> &[(u16, Record)]
        ensures { result.now ≡ records_from 1024 self.now.ends }
    {
        self.ends.records.as_slice()
    }

    pub(crate) fn stored(&self, port: u16) -> Option<&[u8]>
        ensures { option_map (λ bytes. bytes.now) result ≡ stored_at self.now.ends port }
    {
        match self.ends.index_of(port) {
            None => None,
            Some(index) => self.ends.players[index].stored(),
        }
    }

    pub(crate) fn committed(&self, port: u16) -> bool
        ensures { result ≡ committed_at self.now.ends port }
    {
        match self.ends.index_of(port) {
            None => false,
            Some(index) => self.ends.players[index].committed(),
        }
    }

    pub(crate) fn file(&self, path: &Path) -> Option<&[u8]>
        ensures { option_map (λ bytes. bytes.now) result ≡ file_at self.now.files path.now }
    {
        self.ends.server.store().file(path)
    }

    pub(crate) fn step(&mut self, event: Event) -> Result<Report, WorldFault>
        requires { IsPlayable event }
        ensures steps { IfOk result (λ report. WorldStep self.old event report self.new) }
        ensures refused { IfErr result (WorldRefuses self.old event) }
        ensures err { OnErr result (self.new ≡ self.old) }
    {
        match event {
            Event::Get { name, mode, asked } => self.get(name.as_slice(), mode, &asked),
            Event::Put {
                name,
                mode,
                asked,
                bytes,
            } => self.put(name.as_slice(), mode, &asked, bytes),
            Event::Deliver(index) => self.deliver(index),
            Event::Timeout(port) => self.timeout(port),
            Event::RefuseStore(port) => self.refuse_store(port),
            Event::Stray(from, to, bytes) => self.stray(from, to, &bytes),
        }
    }

    /// The end at this port handles a timeout.
    fn timeout(&mut self, port: u16) -> Result<Report, WorldFault>
        ensures steps { IfOk result (λ report. WorldStep self.old (Timeout port) report self.new) }
        ensures refused { IfErr result (WorldRefuses self.old (Timeout port)) }
        ensures err { OnErr result (self.new ≡ self.old) }
    {
        let Some(index) = self.ends.index_of(port) else {
            return Err(WorldFault::NoSuchEnd);
        };
        let Ok(()) = self.sent.reserve(1) else {
            return Err(WorldFault::Memory);
        };
        match self.ends.on_timeout(index, port) {
            Ok(effect) => Ok(write_down(&mut self.sent, effect)),
            Err(fault) => Err(fault),
        }
    }

    /// Sets the receiver at this port to refuse its next append or commit.
    fn refuse_store(&mut self, port: u16) -> Result<Report, WorldFault>
        ensures steps { IfOk result (λ report.
            WorldStep self.old (RefuseStore port) report self.new) }
        ensures refused { IfErr result (WorldRefuses self.old (RefuseStore port)) }
        ensures err { OnErr result (self.new ≡ self.old) }
    {
        let Some(index) = self.ends.index_of(port) else {
            return Err(WorldFault::NoSuchEnd);
        };
        let player = &mut self.ends.players[index];
        player.refuse_next();
        Ok(Report {
            added: None,
            closed: None,
        })
    }
}
