//! A datagram to the request port, from its admission to the transfer that opens.

ghost use Rattle.std.specs.Prelude.{◌≡◌, ◌≢◌, ◌↔◌, ◌⊎◌, ◌++◌, ◌+◌, ◌≤◌, vec_capacity, vec_len};
ghost use Rattle.std.specs.Prelude.{length, Bool, List, ℕ, None, Ok, Err, Option};
ghost use Rattle.std.specs.Prelude.{IfOk, IfErr, IsErrOf, IsSome, OnOk, OnErr};
ghost use Rattle.tftp_wire.specs.declared.packet.Packet.{Packet};
ghost use Rattle.tftp_ends.specs.Action.{Decodes};
ghost use Rattle.tftp_ends.specs.Opening.{serving_write};
ghost use Rattle.tftp_server.specs.State.{IsRepeated, at};
ghost use Rattle.tftp_server.specs.Port.{Ask, Ignores, asks, asks_store, by_file};
ghost use Rattle.tftp_server.specs.Port.{granted_size};
ghost use Rattle.tftp_server.specs.Request.{Acts, Admits, AdmitsBeside, AsksToRead, AsksToWrite};
ghost use Rattle.tftp_server.specs.Request.{Came};
ghost use Rattle.tftp_server.specs.Request.{CarriesOut, Decides, RequestStep, Sent};
ghost use Rattle.tftp_server.specs.Request.{decided_bytes, left_by};
ghost use Rattle.tftp_server.specs.Shortage.{AskLacksMemory, NamesAPath, ReadLacksMemory};
ghost use Rattle.tftp_server.specs.Shortage.{RequestLacksMemory, ServiceLacksMemory};

use crate::fault::ServerFault;
use crate::opened::Opened;
use crate::server::Server;
use crate::server::admission::{
    Admission, Incoming, Occupancy, PortAction, ReadRequest, WriteRequest,
};
use crate::server::port::by_packet;
use crate::server::reply::{
    Unopened, accept_reply, begin_refused, open_refused, refuse, serve_refused,
};
use crate::table::Table;
use crate::transfer::Transfer;
use std::alloc::{AllocError, Global};
use std::mem;
use tftp_ends::{End, Endpoint, MAX_ERROR, ReadService, decode_packet};
use tftp_file::Files;
use tftp_store::{Opening, Store};

impl<S: Store> Server<S> {
    /// Handles a datagram from `from` to the request port: [`Server::admit`], then
    /// [`Server::open`].
    ///
    /// `TidInUse` if a transfer has the identifier; `Memory`, but never for a datagram that is
    /// ignored. After a fault nothing has changed.
    pub fn on_request(
        &mut self,
        from: Endpoint,
        tid: u16,
        bytes: &[u8],
        out: &mut Vec<u8>,
    ) -> Result<Opened, ServerFault>
        ensures steps { IfOk result (λ opened. (sent : List ℕ)
            × (out.new.items ≡ out.old.items ++ sent)
            × RequestStep S.meaning S.Source.meaning self.old from bytes.now tid
            (record { new = self.new; opened = opened; sent = sent })) }
        ensures in_use { IsErrOf result ServerFault.TidInUse ↔ IsSome (at tid self.old.held) }
        ensures fault { IfErr result (λ fault. (fault ≡ ServerFault.TidInUse) ⊎
            (fault ≡ ServerFault.Memory)) }
        ensures acts { IsErrOf result ServerFault.Memory → Acts self.old from bytes.now }
        ensures why { IsErrOf result ServerFault.Memory → RequestLacksMemory
            (vec_capacity out.old) (vec_len out.old) S.meaning S.Source.meaning self.old
            from bytes.now }
        ensures capacity { vec_capacity out.old ≤ vec_capacity out.new }
        ensures err { OnErr result ((self.new ≡ self.old) × (out.new.items ≡ out.old.items)) }
    {
        match self.admit(from, bytes) {
            Ok(admission) => self.open(admission, tid, out),
            Err(_) if self.table.contains(tid) => Err(ServerFault::TidInUse),
            Err(_) => Err(ServerFault::Memory),
        }
    }

    /// What the request port decides for a datagram from `from`, by the tests that ask no store.
    /// The caller binds the port of the transfer only if [`Admission::may_open`]; then
    /// [`Server::open`] carries the admission out. `Memory` is its one fault, and never for a
    /// datagram that is ignored.
    pub fn admit<'a>(&self, from: Endpoint, bytes: &'a [u8]) -> Result<Admission<'a>, ServerFault>
        ensures admits { IfOk result (λ admission. Admits self.now from bytes.now admission.ask) }
        ensures from { IfOk result (λ admission. admission.from ≡ from) }
        ensures bytes { IfOk result (λ admission. admission.bytes ≡ bytes.now) }
        ensures memory { IfErr result (λ fault. fault ≡ ServerFault.Memory) }
        ensures acts { OnErr result (Acts self.now from bytes.now) }
        ensures why { OnErr result (NamesAPath self.now from bytes.now) }
    {
        let decoded = decode_packet(bytes);
        let found = Occupancy {
            count: self.table.len(),
            is_repeated: self.table.is_repeated(from, &decoded),
        };
        match by_packet(self.alloc, &self.config, found, bytes, decoded) {
            Ok(action) => Ok(Admission {
                incoming: Incoming { from, bytes },
                action,
            }),
            Err(_) => Err(ServerFault::Memory),
        }
    }

    /// As [`Server::admit`], for a caller that holds the transfers itself ([`Server::release`]):
    /// `occupancy` is what the datagram finds of them.
    pub fn admit_beside<'a>(
        &self,
        occupancy: Occupancy,
        from: Endpoint,
        bytes: &'a [u8],
    ) -> Result<Admission<'a>, ServerFault>
        ensures admits { IfOk result (λ admission.
            AdmitsBeside self.now.config occupancy bytes.now admission.ask) }
        ensures from { IfOk result (λ admission. admission.from ≡ from) }
        ensures bytes { IfOk result (λ admission. admission.bytes ≡ bytes.now) }
        ensures memory { IfErr result (λ fault. fault ≡ ServerFault.Memory) }
        ensures acts { OnErr result ((ask : Ask)
            × AdmitsBeside self.now.config occupancy bytes.now ask × (ask ≢ Ignores)) }
    {
        let decoded = decode_packet(bytes);
        match by_packet(self.alloc, &self.config, occupancy, bytes, decoded) {
            Ok(action) => Ok(Admission {
                incoming: Incoming { from, bytes },
                action,
            }),
            Err(_) => Err(ServerFault::Memory),
        }
    }

    /// Whether a datagram from `from` to the request port could open a transfer, by the tests that
    /// ask no store. If not, [`Server::on_request`] opens none, whatever the identifier. Its faults
    /// are those of [`Server::admit`].
    pub fn may_open(&self, from: Endpoint, bytes: &[u8]) -> Result<bool, ServerFault>
        ensures asks { IfOk result (λ may. (decoded : Option Packet) × (repeated : Bool)
            × Decodes bytes.now decoded × IsRepeated repeated from decoded self.now.held
            × (may ≡ asks_store (asks self.now.config.cap (length self.now.held) repeated
            self.now.config.limits bytes.now decoded))) }
        ensures memory { IfErr result (λ fault. fault ≡ ServerFault.Memory) }
        ensures acts { OnErr result (Acts self.now from bytes.now) }
        ensures why { OnErr result (NamesAPath self.now from bytes.now) }
    {
        match self.admit(from, bytes) {
            Ok(admission) => Ok(admission.may_open()),
            Err(_) => Err(ServerFault::Memory),
        }
    }

    /// The block size, in bytes, of the transfer that an admission may open, for every length of
    /// the file (RFC 2348). `None` if no transfer can open, for example because its options are
    /// refused.
    pub fn block_size(&self, admission: &Admission<'_>) -> Option<u16>
        ensures { result ≡ granted_size self.now.config.limits admission.now.ask }
    {
        match &admission.action {
            PortAction::Nothing | PortAction::Refuse(_) => None,
            PortAction::Read(read) => read.block_size(&self.config.limits),
            PortAction::Write(write) => Some(write.agreed.block_size()),
        }
    }

    /// Carries an admission out. A transfer that opens gets the identifier `tid`, the port that
    /// sends its datagrams (RFC 1350, section 4). At most one datagram is appended to `out`;
    /// [`Opened::to`] is its destination.
    ///
    /// For a read the store opens the file; for a write it begins a draft. `TidInUse` if a transfer
    /// has the identifier; `Memory`, but never for a datagram that is ignored. After a fault
    /// nothing has changed.
    pub fn open(
        &mut self,
        admission: Admission<'_>,
        tid: u16,
        out: &mut Vec<u8>,
    ) -> Result<Opened, ServerFault>
        ensures carries_out { IfOk result (λ opened. (sent : List ℕ)
            × (out.new.items ≡ out.old.items ++ sent)
            × CarriesOut S.meaning S.Source.meaning self.old admission.entry.from
            admission.entry.bytes admission.entry.ask tid
            (record { new = self.new; opened = opened; sent = sent })) }
        ensures in_use { IsErrOf result ServerFault.TidInUse ↔ IsSome (at tid self.old.held) }
        ensures fault { IfErr result (λ fault. (fault ≡ ServerFault.TidInUse) ⊎
            (fault ≡ ServerFault.Memory)) }
        ensures acts { IsErrOf result ServerFault.Memory → admission.entry.ask ≢ Ignores }
        ensures why { IsErrOf result ServerFault.Memory → AskLacksMemory
            (vec_capacity out.old) (vec_len out.old) S.meaning S.Source.meaning self.old
            admission.entry.ask }
        ensures capacity { vec_capacity out.old ≤ vec_capacity out.new }
        ensures err { OnErr result ((self.new ≡ self.old) × (out.new.items ≡ out.old.items)) }
    {
        if self.table.contains(tid) {
            return Err(ServerFault::TidInUse);
        }
        let Admission { incoming, action } = admission;
        match action {
            PortAction::Nothing => Ok(Opened {
                tid: None,
                to: None,
            }),
            PortAction::Refuse(reply) => refuse(Unopened::Refused(reply), incoming.from, out),
            PortAction::Read(read) => self.read_from(incoming, tid, read, out),
            PortAction::Write(write) => self.write_from(incoming, tid, write, out),
        }
    }

    /// Opens a read transfer under an unused identifier. The table holds it once the store opened
    /// its file.
    fn read_from(
        &mut self,
        incoming: Incoming<'_>,
        tid: u16,
        read: ReadRequest<'_>,
        out: &mut Vec<u8>,
    ) -> Result<Opened, ServerFault>
        requires { at tid self.old.held ≡ None }
        ensures reads { IfOk result (λ opened. (came : Came S S.Source S.Draft)
            × (sent : List ℕ)
            × AsksToRead S.meaning S.Source.meaning self.old incoming.entry.from
            incoming.entry.bytes.now read.entry.path read.entry.mode read.entry.options came
            × (out.new.items ≡ out.old.items ++ sent) × (record {
              new = self.new;
              opened = opened;
              sent = sent;
            } ≡ left_by came self.old incoming.entry.from tid)) }
        ensures memory { IfErr result (λ fault. fault ≡ ServerFault.Memory) }
        ensures why { OnErr result (ReadLacksMemory (vec_capacity out.old) (vec_len out.old)
            S.meaning S.Source.meaning self.old read.entry.path read.entry.mode
            read.entry.options) }
        ensures capacity { vec_capacity out.old ≤ vec_capacity out.new }
        ensures err { OnErr result ((self.new ≡ self.old) × (out.new.items ≡ out.old.items)) }
    {
        let start = out.len();
        let from = incoming.from;
        match self.read(incoming, read, out) {
            Ok(transfer) => {
                let Ok(()) = self.table.insert(tid, transfer) else {
                    out.truncate(start);
                    return Err(ServerFault::Memory);
                };
                Ok(Opened {
                    tid: Some(tid),
                    to: Some(from),
                })
            }
            Err(unopened) => refuse(unopened, from, out),
        }
    }

    /// Asks the store to open the file, and serves it.
    fn read(
        &self,
        incoming: Incoming<'_>,
        read: ReadRequest<'_>,
        out: &mut Vec<u8>,
    ) -> Result<Transfer<S::Source, S::Draft>, Unopened>
        ensures asks { Decides result self.now.store (λ came. AsksToRead S.meaning S.Source.meaning
            self.now incoming.entry.from incoming.entry.bytes.now read.entry.path read.entry.mode
            read.entry.options came) (ReadLacksMemory (vec_capacity out.old) (vec_len out.old)
            S.meaning S.Source.meaning self.now read.entry.path read.entry.mode
            read.entry.options) }
        ensures sent { out.new.items ≡ out.old.items ++ decided_bytes result }
        ensures capacity { vec_capacity out.old ≤ vec_capacity out.new }
    {
        match self.store.open(self.alloc, &read.path, read.mode) {
            Ok(file) => self.serve(incoming, read, file, out),
            Err(fault) => Err(open_refused(fault)),
        }
    }

    /// Serves a file that was opened: answers the options of the read, and opens a transfer if its
    /// blocks can be numbered and, without options, the first block can be read.
    fn serve(
        &self,
        incoming: Incoming<'_>,
        read: ReadRequest<'_>,
        file: Opening<S::Source>,
        out: &mut Vec<u8>,
    ) -> Result<Transfer<S::Source, S::Draft>, Unopened>
        ensures sends { Decides result self.now.store (λ came. Sent S.meaning S.Source.meaning
            self.now incoming.entry.from incoming.entry.bytes.now (by_file self.now.config.limits
            read.entry.path read.entry.mode read.entry.options (Ok file.length)) (Ok file) came)
            (ServiceLacksMemory (vec_capacity out.old) (vec_len out.old)
            (by_file self.now.config.limits read.entry.path read.entry.mode read.entry.options
            (Ok file.length))) }
        ensures sent { out.new.items ≡ out.old.items ++ decided_bytes result }
        ensures capacity { vec_capacity out.old ≤ vec_capacity out.new }
    {
        let start = out.len();
        let Opening { mut source, length } = file;
        let agreed = match read.agree(length, &self.config.limits) {
            Ok(agreed) => agreed,
            Err(refusal) => return Err(Unopened::Refused(accept_reply(refusal))),
        };
        let service = ReadService {
            peer: incoming.from,
            mode: read.mode,
            length,
            retries: self.config.retries,
        };
        match End::serve_source(self.alloc, &mut source, service, &agreed, out) {
            Ok((end, _)) => {
                let Ok(request) = Vec::from_slice(self.alloc, incoming.bytes) else {
                    out.truncate(start);
                    return Err(Unopened::Memory);
                };
                let files = Files::Source(source);
                Ok(Transfer::new(end, files, read.path, request))
            }
            Err(fault) => Err(serve_refused(fault)),
        }
    }

    /// Opens a write transfer under an unused identifier. The table reserves capacity first, so
    /// that no draft is dropped for lack of memory after the store began it.
    fn write_from(
        &mut self,
        incoming: Incoming<'_>,
        tid: u16,
        write: WriteRequest,
        out: &mut Vec<u8>,
    ) -> Result<Opened, ServerFault>
        requires { at tid self.old.held ≡ None }
        ensures writes { IfOk result (λ opened. (came : Came S S.Source S.Draft)
            × (sent : List ℕ)
            × AsksToWrite S.meaning S.Source.meaning self.old incoming.entry.from
            incoming.entry.bytes.now write.path write.mode write.agreed came
            × (out.new.items ≡ out.old.items ++ sent) × (record {
              new = self.new;
              opened = opened;
              sent = sent;
            } ≡ left_by came self.old incoming.entry.from tid)) }
        ensures memory { IfErr result (λ fault. fault ≡ ServerFault.Memory) }
        ensures capacity { vec_capacity out.old ≤ vec_capacity out.new }
        ensures err { OnErr result ((self.new ≡ self.old) × (out.new.items ≡ out.old.items)) }
    {
        let from = incoming.from;
        let table = mem::replace(&mut self.table, Table::new(self.alloc));
        match table.reserve(tid) {
            Ok(spot) => match self.write(incoming, write, out) {
                Ok(transfer) => {
                    self.table = spot.fill(transfer);
                    Ok(Opened {
                        tid: Some(tid),
                        to: Some(from),
                    })
                }
                Err(unopened) => {
                    self.table = spot.give_up(tid);
                    refuse(unopened, from, out)
                }
            },
            Err(table) => {
                self.table = table;
                Err(ServerFault::Memory)
            }
        }
    }

    /// Begins a draft for a write transfer. All else that allocates is done first, so that no draft
    /// is begun without use. If none is begun, `out` has capacity for the ERROR.
    fn write(
        &mut self,
        incoming: Incoming<'_>,
        write: WriteRequest,
        out: &mut Vec<u8>,
    ) -> Result<Transfer<S::Source, S::Draft>, Unopened>
        ensures asks { Decides result self.new.store (λ came. AsksToWrite S.meaning S.Source.meaning
            self.old incoming.entry.from incoming.entry.bytes.now write.path write.mode
            write.agreed came) (self.new ≡ self.old) }
        ensures sent { out.new.items ≡ out.old.items ++ decided_bytes result }
        ensures rest { self.new ≡ record self.old { store = self.new.store } }
        ensures room { result ≢ Err Unopened.Memory
            → length out.old.items + MAX_ERROR ≤ vec_capacity out.new }
        ensures capacity { vec_capacity out.old ≤ vec_capacity out.new }
    {
        let start = out.len();
        let Ok((end, request)) = prepare(self.alloc, incoming, &write, self.config.retries, out)
        else {
            return Err(Unopened::Memory);
        };
        match self
            .store
            .begin(self.alloc, &write.path, self.config.overwrite)
        {
            Ok(draft) => Ok(Transfer::new(end, Files::Sink(draft), write.path, request)),
            Err(fault) => {
                out.truncate(start);
                Err(begin_refused(fault))
            }
        }
    }
}

/// The end of a write, whose first datagram is appended, and a copy of the datagram of the request.
/// `out` has capacity for an ERROR instead of that first datagram.
fn prepare(
    alloc: Global,
    incoming: Incoming<'_>,
    write: &WriteRequest,
    retries: u8,
    out: &mut Vec<u8>,
) -> Result<(End, Vec<u8>), AllocError>
    ensures end { IfOk result (λ made. (made.0 ≡ serving_write write.now.agreed incoming.entry.from
        write.now.mode retries) × (out.new.items ≡ out.old.items ++ made.0.position.last_sent)) }
    ensures request { IfOk result (λ made. made.1.items ≡ incoming.entry.bytes.now) }
    ensures room { OnOk result (length out.old.items + MAX_ERROR ≤ vec_capacity out.new) }
    ensures capacity { vec_capacity out.old ≤ vec_capacity out.new }
    ensures err { OnErr result (out.new.items ≡ out.old.items) }
{
    out.reserve(MAX_ERROR)?;
    let request = Vec::from_slice(alloc, incoming.bytes)?;
    match End::serve_write(
        alloc,
        incoming.from,
        write.mode,
        &write.agreed,
        retries,
        out,
    ) {
        Ok((end, _)) => Ok((end, request)),
        Err(_) => Err(AllocError),
    }
}
