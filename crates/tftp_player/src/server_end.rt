//! A server's end: a transfer that the world holds itself.

ghost use Rattle.std.specs.Prelude.{◌≡◌, false, option_map, IfOk, IfErr, OnErr};
ghost use Rattle.tftp_ends.specs.End.{is_sender};
ghost use Rattle.tftp_server.specs.State.{is_closed};
ghost use Rattle.tftp_player.specs.Answer.{released_end};
ghost use Rattle.tftp_player.specs.World.{file_at};
ghost use Rattle.tftp_player.specs.ServerEnd.{ServerEndKept, ServerEndTimesOut, ServerEndTakes};
ghost use Rattle.tftp_player.specs.ServerEnd.{armed_server_end, draft_or_new, file_sent};
ghost use Rattle.tftp_player.specs.ServerEnd.{server_armed, server_end_draft};

use crate::effect::{Effect, effect_of};
use crate::fault::WorldFault;
use crate::hosts::server_at;
use crate::room::{answer_room, copied, reserved};
use std::alloc::Global;
use tftp_ends::{EndFault, Endpoint, Outgoing};
use tftp_file::{MemSource, SharedBytes};
use tftp_negotiate::DEFAULT_BLOCK;
use tftp_server::{MemDraft, MemStore, Server, Transfer};

/// A server's end: its transfer, which the server opened and handed over.
#[derive(Drop)]
pub(crate) struct ServerEnd {
    pub(crate) transfer: Transfer<MemSource, MemDraft>,
    /// The file that it sends, as it was when the end opened; empty for one that receives.
    pub(crate) file: SharedBytes,
    /// Whether its next append or commit is to be refused.
    pub(crate) refuses: bool,
}

impl ServerEnd {
    /// The end of a transfer that has just opened over this store.
    pub(crate) fn new(
        transfer: Transfer<MemSource, MemDraft>,
        store: &MemStore,
    ) -> Result<ServerEnd, WorldFault>
        ensures new { IfOk result (λ end. end ≡ released_end transfer store.now.files) }
        ensures memory { IfErr result (λ fault. fault ≡ WorldFault.Memory) }
    {
        let Ok(file) = file_sent(&transfer, store) else {
            return Err(WorldFault::Memory);
        };
        Ok(ServerEnd {
            transfer,
            file,
            refuses: false,
        })
    }

    /// Handles a timeout, while it is open.
    pub(crate) fn on_timeout(&mut self, alloc: Global, port: u16) -> Result<Effect, WorldFault>
        requires { is_closed self.old.transfer ≡ false }
        ensures turns { IfOk result (ServerEndTimesOut port self.old self.new) }
        ensures memory { IfErr result (λ fault. fault ≡ WorldFault.Memory) }
        ensures err { OnErr result (self.new ≡ self.old) }
    {
        let room = self.transfer.bytes_of(Outgoing::LastSent).len();
        let Ok(out) = reserved(alloc, room) else {
            return Err(WorldFault::Memory);
        };
        match self.transfer.handle_timeout() {
            Ok((step, outgoing)) => {
                let out = copied(out, self.transfer.bytes_of(outgoing));
                Ok(effect_of(server_at(port), step, out))
            }
            Err(_) => unreachable!(),
        }
    }

    /// Handles a datagram, while it is open, over the server's store.
    pub(crate) fn on_datagram(
        &mut self,
        alloc: Global,
        server: &mut Server<MemStore>,
        port: u16,
        from: Endpoint,
        bytes: &[u8],
    ) -> Result<Effect, WorldFault>
        requires kept { ServerEndKept self.old }
        requires open { is_closed self.old.transfer ≡ false }
        requires quiet { server.old.store.refuses ≡ false }
        ensures takes { IfOk result (ServerEndTakes port from bytes.now self.old self.new
            server.old server.new) }
        ensures memory { IfErr result (λ fault. fault ≡ WorldFault.Memory) }
        ensures err { OnErr result ((self.new ≡ self.old) × (server.new ≡ server.old)) }
    {
        // it has a peer, and so the block size of its record
        let room = answer_room(DEFAULT_BLOCK, &self.transfer.record());
        let Ok(out) = reserved(alloc, room) else {
            return Err(WorldFault::Memory);
        };
        arm(server, self.refuses);
        let answer = server.handle_for(&mut self.transfer, from, bytes);
        let refuses = server.store().refuses();
        arm(server, false);
        match answer {
            Ok((step, outgoing)) => {
                self.refuses = refuses;
                let out = copied(out, self.transfer.bytes_of(outgoing));
                Ok(effect_of(server_at(port), step, out))
            }
            Err(EndFault::Memory) => Err(WorldFault::Memory),
            Err(EndFault::Closed) => unreachable!(),
        }
    }

    /// Sets its next append or commit to be refused, if it is an open receiver.
    pub(crate) fn refuse_next(&mut self)
        ensures { self.new ≡ armed_server_end self.old }
    {
        if self.transfer.record().outcome.is_none() && self.transfer.draft().is_some() {
            self.refuses = true;
        }
    }

    /// What it has stored, if it receives.
    pub(crate) fn stored(&self) -> Option<&[u8]>
        ensures { option_map (λ bytes. bytes.now) result
            ≡ option_map (λ d. d.bytes) (server_end_draft self.now) }
    {
        match self.transfer.draft() {
            Some(draft) => Some(draft.as_bytes()),
            None => None,
        }
    }

    /// Whether what it has stored is committed.
    pub(crate) fn committed(&self) -> bool
        ensures { result ≡ (draft_or_new (server_end_draft self.now)).committed }
    {
        match self.transfer.draft() {
            Some(draft) => draft.is_committed(),
            None => false,
        }
    }
}

/// Sets whether the server's store refuses its next append or commit.
fn arm(server: &mut Server<MemStore>, refuses: bool)
    ensures { server.new ≡ server_armed server.old refuses }
{
    server.store_mut().refuse_next(refuses);
}

/// The file that a transfer sends, or no bytes for one that receives.
fn file_sent(
    transfer: &Transfer<MemSource, MemDraft>,
    store: &MemStore,
) -> Result<SharedBytes, WorldFault>
    ensures sent { IfOk result (λ file. file ≡ file_sent
        (is_sender transfer.now.end.role.side) (file_at store.now.files transfer.now.path)) }
{
    if !transfer.record().side.is_sender() {
        return Ok(SharedBytes::new());
    }
    match store.shared_file(transfer.path()) {
        Some(file) => match file.clone() {
            Ok(file) => Ok(file),
            Err(_) => Err(WorldFault::Memory),
        },
        None => Ok(SharedBytes::new()),
    }
}
