//! A server: its store and its transfers.

mod admission;
mod callers_files;
mod port;
mod reply;
mod request;

ghost use Rattle.std.specs.Prelude.{◌≡◌, ◌↔◌, ◌++◌, vec_capacity, vec_len, [], length};
ghost use Rattle.std.specs.Prelude.{option_copied, option_map, is_some, if◌then◌else◌, false, true};
ghost use Rattle.std.specs.Prelude.{Option};
ghost use Rattle.std.specs.Prelude.{IfOk, IfErr, IsErrOf, IsSome, OnOk, OnErr};
ghost use Rattle.std.specs.Map.{keys_of};
ghost use Rattle.std.specs.Borrow.{Lends, sem};
ghost use Rattle.tftp_ends.specs.End.{record_of};
ghost use Rattle.tftp_ends.specs.Shortage.{AppendsNothing, HasNoRoom};
ghost use Rattle.tftp_ends.specs.Action.{Decodes, datagram_action};
ghost use Rattle.tftp_ends.specs.Step.{lent, UsesFile};
ghost use Rattle.tftp_server.specs.Config.{IsConfig};
ghost use Rattle.tftp_server.specs.Shortage.{LacksMemoryAt, TimeoutLacksMemory};
ghost use Rattle.tftp_server.specs.State.{at, draft_at, is_closed, is_open, open_records, taken_of};
ghost use Rattle.tftp_server.specs.State.{without};
ghost use Rattle.tftp_server.specs.Steps.{TimesOut, TimesOutLent, TimeoutFault, TakesDatagram};
ghost use Rattle.tftp_server.specs.Steps.{TakesDatagramLent, DatagramFault};
ghost use Rattle.tftp_server.specs.Steps.{DatagramFaultLent, KeepsHeld, StaysAs, TakesBy, lends};
ghost use Rattle.tftp_wire.specs.declared.packet.Packet.{Packet};
ghost use Rattle.tftp_server.specs.Work.{WorksAt};

use crate::config::Config;
use crate::fault::{ServerFault, by_end};
use crate::open_transfers::OpenTransfers;
pub use crate::server::admission::{Admission, Occupancy};
use crate::table::Table;
use crate::transfer::Transfer;
use std::alloc::Global;
use std::marker::Model;
use tftp_ends::{EndFault, Endpoint, Outgoing, Record, Step};
use tftp_store::Store;

/// A server: its configuration, its store and the transfers that it holds.
///
/// Contracts see the transfers in rising order of identifier.
#[derive(Drop)]
pub struct Server<S: Store> {
    alloc: Global,
    config: Config,
    store: S,
    table: Table<Transfer<S::Source, S::Draft>>,
}

impl<S: Store> Model for Server<S> {
    ghost use Rattle.tftp_server.specs.State.{ServerState};
    ghost use Rattle.tftp_server.specs.Config.{IsConfig};

    ghost Value = { ServerState S S.Source S.Draft };

    ghost view = { λ s. record { config = s.config; store = s.store; held = s.table } };

    ghost invariant = { λ s. IsConfig s.config };
}

impl<S: Store> Server<S> {
    ghost use Rattle.tftp_server.specs.contracts.server.Server.{the_row};

    /// A server without transfers. It fails only when out of memory.
    pub fn new(alloc: Global, config: Config, store: S) -> Result<Server<S>, ServerFault>
        requires { IsConfig config }
        ensures config { IfOk result (λ server. server.config ≡ config) }
        ensures store { IfOk result (λ server. server.store ≡ store) }
        ensures empty { IfOk result (λ server. server.held ≡ []) }
        ensures memory { IfErr result (λ fault. fault ≡ ServerFault.Memory) }
    {
        Ok(Server {
            alloc,
            config,
            store,
            table: Table::new(alloc),
        })
    }

    /// How many transfers it holds at once, at most.
    pub fn cap(&self) -> u8
        ensures { result ≡ self.now.config.cap }
    {
        self.config.cap
    }

    /// The record of the transfer at the identifier, open or closed, if one is held.
    pub fn record(&self, tid: u16) -> Option<Record>
        ensures { result ≡ option_map (λ held. record_of held.end) (at tid self.now.held) }
    {
        match self.table.get(tid) {
            Some(transfer) => Some(transfer.record()),
            None => None,
        }
    }

    /// The draft of the transfer at the identifier, open or closed, if one is held that stores.
    pub fn draft(&self, tid: u16) -> Option<&S::Draft>
        ensures { option_copied result ≡ draft_at (at tid self.now.held) }
    {
        match self.table.get(tid) {
            Some(transfer) => transfer.draft(),
            None => None,
        }
    }

    /// The transfer at the identifier handles a timeout. At most one datagram is appended to `out`;
    /// [`Step::to`] is its destination.
    ///
    /// `NoSuchTid` if no open transfer has the identifier; `Memory` only if a datagram is to be
    /// sent. After a fault nothing has changed.
    pub fn on_timeout(&mut self, tid: u16, out: &mut Vec<u8>) -> Result<Step, ServerFault>
        ensures steps { IfOk result (λ step. TimesOut tid self.old.held self.new.held step
            out.old.items out.new.items) }
        ensures rest { self.new ≡ record self.old { held = self.new.held } }
        ensures no_such_tid { IsErrOf result ServerFault.NoSuchTid
            ↔ (is_open (at tid self.old.held) ≡ false) }
        ensures fault { IfErr result (TimeoutFault (at tid self.old.held)) }
        ensures why { IsErrOf result ServerFault.Memory → TimeoutLacksMemory
            (vec_capacity out.old) (vec_len out.old) tid self.old.held }
        ensures err { OnErr result ((self.new ≡ self.old) × (out.new.items ≡ out.old.items)) }
    {
        let Some(transfer) = self.table.get_mut(tid) else {
            return Err(ServerFault::NoSuchTid);
        };
        by_end(transfer.on_timeout(out))
    }

    /// The transfer at the identifier handles a datagram from `from`. At most one datagram is
    /// appended to `out`; [`Step::to`] is its destination.
    ///
    /// `NoSuchTid` if no open transfer has the identifier; `Memory` only if a datagram is to be
    /// sent. After a fault nothing has changed.
    pub fn on_datagram(
        &mut self,
        tid: u16,
        from: Endpoint,
        bytes: &[u8],
        out: &mut Vec<u8>,
    ) -> Result<Step, ServerFault>
        ensures takes { IfOk result (λ step. TakesDatagram S.meaning S.Source.meaning
            tid from bytes.now self.old self.new step out.old.items out.new.items) }
        ensures rest { self.new ≡ record self.old { store = self.new.store; held = self.new.held } }
        ensures no_such_tid { IsErrOf result ServerFault.NoSuchTid
            ↔ (is_open (at tid self.old.held) ≡ false) }
        ensures unmoved { IsErrOf result ServerFault.NoSuchTid → self.new ≡ self.old }
        ensures fault { IfErr result (DatagramFault from bytes.now (at tid self.old.held)) }
        ensures why { IsErrOf result ServerFault.Memory → LacksMemoryAt S.meaning S.Source.meaning
            (HasNoRoom (vec_capacity out.old) (vec_len out.old)) tid from bytes.now
            self.old self.new }
        ensures err { OnErr result (KeepsHeld S.meaning S.Source.meaning
            tid (at tid self.old.held) self.old self.new × (out.new.items ≡ out.old.items)) }
    {
        let Some(transfer) = self.table.get_mut(tid) else {
            return Err(ServerFault::NoSuchTid);
        };
        by_end(transfer.on_datagram(&mut self.store, &self.config, from, bytes, out))
    }

    /// The transfer at the identifier handles a timeout. Returns the datagram to send without a
    /// copy: [`Server::bytes_of`] lends its bytes, and [`Step::to`] is its destination.
    ///
    /// `NoSuchTid`, its one fault, if no open transfer has the identifier; then nothing has
    /// changed.
    pub fn handle_timeout(&mut self, tid: u16) -> Result<(Step, Outgoing), ServerFault>
        ensures steps { IfOk result (λ answer. TimesOutLent tid self.old.held self.new.held answer.0
            answer.1) }
        ensures rest { self.new ≡ record self.old { held = self.new.held } }
        ensures no_such_tid { IsErrOf result ServerFault.NoSuchTid
            ↔ (is_open (at tid self.old.held) ≡ false) }
        ensures held { OnOk result (IsSome (at tid self.new.held)) }
        ensures fault { IfErr result (λ fault. fault ≡ ServerFault.NoSuchTid) }
        ensures err { OnErr result (self.new ≡ self.old) }
    {
        let Some(transfer) = self.table.get_mut(tid) else {
            return Err(ServerFault::NoSuchTid);
        };
        by_end(transfer.handle_timeout())
    }

    /// The transfer at the identifier handles a datagram from `from`. Returns the datagram to send
    /// without a copy: [`Server::bytes_of`] lends its bytes, and [`Step::to`] is its destination.
    ///
    /// `NoSuchTid` if no open transfer has the identifier; `Memory` only if a block is to be read
    /// or stored. After a fault nothing has changed.
    pub fn handle_datagram(
        &mut self,
        tid: u16,
        from: Endpoint,
        bytes: &[u8],
    ) -> Result<(Step, Outgoing), ServerFault>
        ensures takes { IfOk result (λ answer. TakesDatagramLent S.meaning S.Source.meaning
            tid from bytes.now self.old self.new answer.0 answer.1) }
        ensures held { OnOk result (IsSome (at tid self.new.held)) }
        ensures rest { self.new ≡ record self.old { store = self.new.store; held = self.new.held } }
        ensures no_such_tid { IsErrOf result ServerFault.NoSuchTid
            ↔ (is_open (at tid self.old.held) ≡ false) }
        ensures unmoved { IsErrOf result ServerFault.NoSuchTid → self.new ≡ self.old }
        ensures fault { IfErr result (DatagramFaultLent from bytes.now (at tid self.old.held)) }
        ensures why { IsErrOf result ServerFault.Memory → LacksMemoryAt S.meaning S.Source.meaning
            AppendsNothing tid from bytes.now self.old self.new }
        ensures err { OnErr result (KeepsHeld S.meaning S.Source.meaning
            tid (at tid self.old.held) self.old self.new) }
    {
        let Some(transfer) = self.table.get_mut(tid) else {
            return Err(ServerFault::NoSuchTid);
        };
        by_end(transfer.handle_datagram(&mut self.store, &self.config, from, bytes))
    }

    /// A transfer that its caller holds ([`Server::release`]) handles a datagram from `from`, over
    /// this server's store. [`Transfer::bytes_of`] lends the datagram to send; [`Step::to`] is its
    /// destination.
    ///
    /// `Closed` if the transfer is closed; `Memory` only if a block is to be read or stored. After
    /// a fault nothing has changed.
    pub fn handle_for(
        &mut self,
        transfer: &mut Transfer<S::Source, S::Draft>,
        from: Endpoint,
        bytes: &[u8],
    ) -> Result<(Step, Outgoing), EndFault>
        ensures takes { IfOk result (λ answer. TakesBy S.meaning S.Source.meaning (lends answer.1)
            self.old.config.overwrite from bytes.now self.old.store self.new.store transfer.old
            transfer.new answer.0) }
        ensures rest { self.new ≡ record self.old { store = self.new.store } }
        ensures closed { IsErrOf result EndFault.Closed ↔ (is_closed transfer.old ≡ true) }
        ensures unmoved { IsErrOf result EndFault.Closed
            → (transfer.new ≡ transfer.old) × (self.new ≡ self.old) }
        ensures memory { IsErrOf result EndFault.Memory → (decoded : Option Packet)
            × Decodes bytes.now decoded × UsesFile (datagram_action transfer.old.end from bytes.now
            decoded) }
        ensures err { OnErr result (StaysAs S.meaning S.Source.meaning self.old.config.overwrite
            self.old.store self.new.store transfer.old transfer.new) }
    {
        transfer.handle_datagram(&mut self.store, &self.config, from, bytes)
    }

    /// The bytes of the datagram to send for the transfer at the identifier, if one is held. They
    /// are valid until the next call.
    pub fn bytes_of(&self, tid: u16, outgoing: Outgoing) -> Option<&[u8]>
        ensures { option_map (λ bytes. bytes.now) result ≡ option_map
            (λ held. lent outgoing held.end) (at tid self.now.held) }
    {
        match self.table.get(tid) {
            Some(transfer) => Some(transfer.bytes_of(outgoing)),
            None => None,
        }
    }

    /// The source of the transfer at the identifier reads ahead, or its draft is written back. To
    /// be called while the peer is busy. Without effect if no transfer has the identifier.
    pub fn work(&mut self, tid: u16)
        ensures works { WorksAt S.meaning S.Source.meaning tid (at tid self.old.held) self.old
            self.new }
        ensures rest { self.new ≡ record self.old { store = self.new.store; held = self.new.held } }
    {
        if let Some(transfer) = self.table.get_mut(tid) {
            transfer.work(&mut self.store);
        }
    }

    /// Appends the identifiers of all transfers that are held, open and closed, in rising order.
    /// `Memory` is its one fault; then it appends none.
    pub fn tids(&self, out: &mut Vec<u16>) -> Result<(), ServerFault>
        ensures ok { OnOk result (out.new.items ≡ out.old.items ++ keys_of self.now.held) }
        ensures err { OnErr result (out.new.items ≡ out.old.items) }
        ensures why { OnErr result (HasNoRoom (vec_capacity out.old) (vec_len out.old)
            (length self.now.held)) }
        ensures memory { IfErr result (λ fault. fault ≡ ServerFault.Memory) }
    {
        self.table.append_tids(out)
    }

    /// An iterator over the open transfers, in rising order of identifier: the identifier and the
    /// record of each. It does not allocate.
    pub fn open_transfers(&self) -> OpenTransfers<'_, S::Source, S::Draft>
        ensures { result ≡ open_records self.now.held }
    {
        self.table.open_transfers()
    }

    /// The store.
    pub fn store(&self) -> &S
        ensures { result.now ≡ self.now.store }
    {
        &self.store
    }

    /// The store, mutably. No transfer changes.
    pub fn store_mut(&mut self) -> &mut S
        ensures* writes_back { sem 𝓛 (Lends (the_row S.row S.Source.row S.Draft.row S.Store
            S.Source.Source) S.row self.entry result (λ w. record self.old { store = w })) }
        ensures value { result.now ≡ self.old.store }
    {
        &mut self.store
    }
}

impl<S: Store + Drop> Server<S> {
    /// Removes the transfer at the identifier from the table, if there is one, and returns it to
    /// be held by the caller ([`Server::handle_for`]).
    pub fn release(&mut self, tid: u16) -> Option<Transfer<S::Source, S::Draft>>
        ensures released { result ≡ at tid self.old.held }
        ensures rest { self.new ≡ record self.old { held = without tid self.old.held } }
    {
        self.table.remove(tid)
    }

    /// Removes the closed transfer at the identifier from the table. Returns its record and, for a
    /// write, its draft. If no closed transfer has the identifier, nothing changes.
    pub fn take_closed(&mut self, tid: u16) -> Option<(Record, Option<S::Draft>)>
        ensures taken { result ≡ taken_of (at tid self.old.held) }
        ensures held { self.new.held ≡ (if is_some result then without tid self.old.held else
            self.old.held) }
        ensures rest { self.new ≡ record self.old { held = self.new.held } }
    {
        match self.table.get(tid) {
            Some(transfer) if transfer.is_closed() => {}
            _ => return None,
        }
        let Some(transfer) = self.table.remove(tid) else {
            unreachable!()
        };
        Some((transfer.record(), transfer.into_draft()))
    }
}
