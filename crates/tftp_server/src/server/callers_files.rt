//! A server whose caller has the files: the caller opens the end of an admitted request, and each
//! step of a transfer is lent its source or its sink.

ghost use Rattle.std.specs.Prelude.{◌≡◌, ◌↔◌, ◌⊎◌, List, ℕ, Some, None, false, option_copied};
ghost use Rattle.std.specs.Prelude.{option_map, IfOk, IsErrOf, IsSome, OnOk, OnErr};
ghost use Rattle.tftp_ends.specs.Backoff.{timeouts_of};
ghost use Rattle.tftp_ends.specs.End.{record_of};
ghost use Rattle.tftp_ends.specs.Files.{AreFilesOf, KeepsSource, KeepsSink};
ghost use Rattle.tftp_server.specs.CallersFiles.{asked_mode, asked_path, read_path, refusal};
ghost use Rattle.tftp_server.specs.CallersFiles.{write_path};
ghost use Rattle.tftp_server.specs.CallersFiles.{is_open_sender, is_open_receiver, SendsLent, StoresLent};
ghost use Rattle.tftp_server.specs.Request.{ask_of};
ghost use Rattle.tftp_server.specs.State.{at, with_new, without};

use crate::fault::{ServerFault, by_end};
use crate::server::Server;
use crate::server::admission::{Admission, PortAction, ReadRequest, WriteRequest};
use crate::transfer::Transfer;
use std::alloc::Global;
use tftp_ends::{End, Endpoint, ErrorReply, Outgoing, Record, Step};
use tftp_file::{Files, Path, Sink, Source};
use tftp_store::Store;
use tftp_wire::Mode;

impl<'a> Admission<'a> {
    /// The ERROR that answers the datagram, if it is refused.
    pub fn refusal(&self) -> Option<ErrorReply>
        ensures { result ≡ refusal self.now.ask }
    {
        match &self.action {
            PortAction::Refuse(reply) => Some(*reply),
            PortAction::Nothing => None,
            PortAction::Read(_) => None,
            PortAction::Write(_) => None,
        }
    }

    /// The path of the file that is to be opened, if the request is a read that may be served.
    pub fn read_path(&self) -> Option<&Path>
        ensures { option_copied result ≡ read_path self.now.ask }
    {
        match &self.action {
            PortAction::Read(read) => Some(&read.path),
            PortAction::Nothing => None,
            PortAction::Refuse(_) => None,
            PortAction::Write(_) => None,
        }
    }

    /// The path of the file that is to be begun, if the request is a write that may be served.
    pub fn write_path(&self) -> Option<&Path>
        ensures { option_copied result ≡ write_path self.now.ask }
    {
        match &self.action {
            PortAction::Write(write) => Some(&write.path),
            PortAction::Nothing => None,
            PortAction::Refuse(_) => None,
            PortAction::Read(_) => None,
        }
    }
}

impl<'a> Admission<'a> {
    /// The mode of the transfer, if the request may be served.
    pub fn mode(&self) -> Option<Mode>
        ensures { result ≡ asked_mode self.now.ask }
    {
        match &self.action {
            PortAction::Read(read) => Some(read.mode),
            PortAction::Write(write) => Some(write.mode),
            PortAction::Nothing => None,
            PortAction::Refuse(_) => None,
        }
    }
}

/// The path of an action that asks the store, if it does.
fn path_in(action: PortAction<'_>) -> Option<Path>
    ensures { result ≡ asked_path (ask_of action.entry) }
{
    match action {
        PortAction::Nothing => None,
        PortAction::Refuse(_) => None,
        PortAction::Read(ReadRequest { path, .. }) => Some(path),
        PortAction::Write(WriteRequest { path, .. }) => Some(path),
    }
}

/// The path of an admitted request, and a copy of its datagram. `NoSuchTid` if the admission opens
/// no transfer.
fn asked(alloc: Global, admission: Admission<'_>) -> Result<(Path, Vec<u8>), ServerFault>
    ensures path { IfOk result (λ asked. asked_path admission.entry.ask ≡ Some asked.0) }
    ensures request { IfOk result (λ asked. asked.1.items ≡ admission.entry.bytes) }
    ensures in_use { IsErrOf result ServerFault.TidInUse → ⊥ }
    ensures no_such_tid { IsErrOf result ServerFault.NoSuchTid
        → asked_path admission.entry.ask ≡ None }
    ensures memory { IsErrOf result ServerFault.Memory
        → IsSome (asked_path admission.entry.ask) }
{
    let Admission { incoming, action } = admission;
    let Some(path) = path_in(action) else {
        return Err(ServerFault::NoSuchTid);
    };
    let Ok(request) = Vec::from_slice(alloc, incoming.bytes) else {
        return Err(ServerFault::Memory);
    };
    Ok((path, request))
}

impl<S: Store> Server<S> {
    /// Holds an end that the caller opened for an admitted request, under an unused identifier.
    /// Its steps are [`Server::lend_source`] or [`Server::lend_sink`].
    ///
    /// `TidInUse` if a transfer has the identifier; `NoSuchTid` if the admission opens none;
    /// `Memory` only if it opens one. After a fault nothing has changed.
    pub fn hold(
        &mut self,
        admission: Admission<'_>,
        tid: u16,
        end: End,
        files: Files<S::Source, S::Draft>,
    ) -> Result<(), ServerFault>
        requires { AreFilesOf end.role.side files }
        ensures held { OnOk result ((path : List ℕ)
            × (asked_path admission.entry.ask ≡ Some path)
            × (self.new ≡ record self.old {
              held = with_new tid (record {
                end = end;
                files = files;
                path = path;
                request = admission.entry.bytes;
              }) self.old.held;
            })) }
        ensures in_use { IsErrOf result ServerFault.TidInUse ↔ IsSome (at tid self.old.held) }
        ensures no_such_tid { IsErrOf result ServerFault.NoSuchTid
            → asked_path admission.entry.ask ≡ None }
        ensures memory { IsErrOf result ServerFault.Memory
            → IsSome (asked_path admission.entry.ask) }
        ensures err { OnErr result (self.new ≡ self.old) }
    {
        if self.table.contains(tid) {
            return Err(ServerFault::TidInUse);
        }
        match asked(self.alloc, admission) {
            Ok((path, request)) => {
                let transfer = Transfer::new(end, files, path, request);
                self.table.insert(tid, transfer)
            }
            Err(fault) => Err(fault),
        }
    }

    /// How many timeouts the transfer at the identifier has had since its opening or its last
    /// progress, if one is held.
    pub fn timeouts(&self, tid: u16) -> Option<u8>
        ensures { result ≡ option_map (λ held. timeouts_of held.end) (at tid self.now.held) }
    {
        match self.table.get(tid) {
            Some(transfer) => Some(transfer.timeouts()),
            None => None,
        }
    }

    /// The files of the transfer at the identifier, open or closed, if one is held.
    pub fn files(&self, tid: u16) -> Option<&Files<S::Source, S::Draft>>
        ensures { option_copied result ≡ option_map (λ held. held.files) (at tid self.now.held) }
    {
        match self.table.get(tid) {
            Some(transfer) => Some(transfer.files()),
            None => None,
        }
    }

    /// As [`Server::handle_datagram`], for a transfer that sends: its end is lent `source` for the
    /// step, in place of its own.
    ///
    /// `NoSuchTid` if no open transfer that sends has the identifier. After a fault nothing has
    /// changed, and the source has the same bytes left.
    pub fn lend_source<R: Source>(
        &mut self,
        tid: u16,
        source: &mut R,
        from: Endpoint,
        bytes: &[u8],
    ) -> Result<(Step, Outgoing), ServerFault>
        ensures steps { IfOk result (λ answer. SendsLent R.meaning source.old source.new from
            bytes.now tid self.old.held self.new.held answer.0 answer.1) }
        ensures rest { self.new ≡ record self.old { held = self.new.held } }
        ensures no_such_tid { IsErrOf result ServerFault.NoSuchTid
            ↔ (is_open_sender (at tid self.old.held) ≡ false) }
        ensures err { OnErr result ((self.new ≡ self.old)
            × KeepsSource R.meaning source.old source.new) }
        ensures same { R.is_same source.old source.new }
    {
        let Some(transfer) = self.table.get_mut(tid) else {
            return Err(ServerFault::NoSuchTid);
        };
        by_end(transfer.lend_source(source, from, bytes))
    }

    /// As [`Server::handle_datagram`], for a transfer that stores: its end is lent `sink` for the
    /// step, in place of its draft.
    ///
    /// `NoSuchTid` if no open transfer that stores has the identifier. After a fault nothing has
    /// changed, and the sink holds the same.
    pub fn lend_sink<K: Sink>(
        &mut self,
        tid: u16,
        sink: &mut K,
        from: Endpoint,
        bytes: &[u8],
    ) -> Result<(Step, Outgoing), ServerFault>
        ensures steps { IfOk result (λ answer. StoresLent K.meaning sink.old sink.new from
            bytes.now tid self.old.held self.new.held answer.0 answer.1) }
        ensures rest { self.new ≡ record self.old { held = self.new.held } }
        ensures no_such_tid { IsErrOf result ServerFault.NoSuchTid
            ↔ (is_open_receiver (at tid self.old.held) ≡ false) }
        ensures err { OnErr result ((self.new ≡ self.old)
            × KeepsSink K.meaning sink.old sink.new) }
        ensures same { K.is_same sink.old sink.new }
    {
        let Some(transfer) = self.table.get_mut(tid) else {
            return Err(ServerFault::NoSuchTid);
        };
        by_end(transfer.lend_sink(sink, from, bytes))
    }
}

impl<S: Store + Drop> Server<S> {
    /// Removes the transfer at the identifier, open or closed, and returns its record: its caller
    /// gives it up. If none has the identifier, nothing changes.
    pub fn give_up(&mut self, tid: u16) -> Option<Record>
        ensures record { result ≡ option_map (λ held. record_of held.end) (at tid self.old.held) }
        ensures held { self.new ≡ record self.old { held = without tid self.old.held } }
    {
        match self.table.remove(tid) {
            Some(transfer) => Some(transfer.record()),
            None => None,
        }
    }
}
