//! A transfer that a server holds.

ghost use Rattle.std.specs.Prelude.{◌≡◌, ◌↔◌, true, false, IsTrue, IfOk, OnErr, IsErrOf, Option, Some};
ghost use Rattle.std.specs.Prelude.{option_copied, vec_len, vec_capacity};
ghost use Rattle.tftp_ends.specs.Backoff.{timeouts_of};
ghost use Rattle.tftp_ends.specs.End.{record_of};
ghost use Rattle.tftp_server.specs.State.{is_closed, draft_of, Repeats};
ghost use Rattle.tftp_wire.specs.Borrowed.{owned};
ghost use Rattle.tftp_ends.specs.Files.{AreFilesOf};
ghost use Rattle.tftp_ends.specs.Files.{KeepsSource, KeepsSink};
ghost use Rattle.tftp_ends.specs.OneFile.{ReceiverStep, SenderStep};
ghost use Rattle.tftp_server.specs.CallersFiles.{is_open_sender, is_open_receiver};
ghost use Rattle.tftp_server.specs.Steps.{with_end, lends, TakesBy, TakesIn, StaysAs};
ghost use Rattle.tftp_ends.specs.Action.{Decodes, HandledBy, datagram_action, timeout_action};
ghost use Rattle.tftp_ends.specs.Action.{timeout_response};
ghost use Rattle.tftp_ends.specs.Room.{FitsRoom, response_room};
ghost use Rattle.tftp_ends.specs.Shortage.{AppendsNothing, HasNoRoom};
ghost use Rattle.tftp_server.specs.Shortage.{TransferLacksMemory};
ghost use Rattle.tftp_ends.specs.Step.{Carries, Lends, IsAnswered, UsesFile, lent, timeout_turn};
ghost use Rattle.tftp_ends.specs.Step.{Turn};
ghost use Rattle.tftp_ends.specs.Step.{reported};
ghost use Rattle.tftp_server.specs.Work.{Works};
ghost use Rattle.tftp_wire.specs.declared.packet.Packet.{Packet};

use crate::config::Config;
use crate::draft_sink::DraftSink;
use std::marker::Model;
use tftp_ends::{End, EndFault, Endpoint, Outgoing, Record, Step};
use tftp_file::{Files, Path, Sink, Source};
use tftp_store::Store;
use tftp_wire::PacketRef;

/// A transfer: an end with its source or its draft, the path of the file, and the datagram of the
/// request. A [`Server`] opens it, and holds it unless its caller does ([`Server::release`]).
///
/// [`Server`]: crate::Server
/// [`Server::release`]: crate::Server::release
#[derive(Drop)]
pub struct Transfer<F, D> {
    end: End,
    files: Files<F, D>,
    path: Path,
    request: Vec<u8>,
}

impl<F, D> Model for Transfer<F, D> {
    ghost use Rattle.tftp_server.specs.State.{TransferState};
    ghost use Rattle.tftp_ends.specs.Files.{AreFilesOf};

    ghost Value = { TransferState F D };

    ghost view = { λ t. record {
      end = t.end;
      files = t.files;
      path = t.path;
      request = t.request.items;
    } };

    ghost invariant = { λ t. AreFilesOf t.end.role.side t.files };
}

impl<F, D> Transfer<F, D> {
    /// A transfer of the file at the path, which the datagram `request` asked for.
    pub(crate) fn new(end: End, files: Files<F, D>, path: Path, request: Vec<u8>) -> Transfer<F, D>
        requires { AreFilesOf end.role.side files }
        ensures { result ≡ record {
          end = end;
          files = files;
          path = path;
          request = request.items;
        } }
    {
        Transfer {
            end,
            files,
            path,
            request,
        }
    }

    /// The record of its end.
    pub fn record(&self) -> Record
        ensures { result ≡ record_of self.now.end }
    {
        self.end.record()
    }

    /// Whether its end is closed.
    pub(crate) fn is_closed(&self) -> bool
        ensures { result ≡ is_closed self.now }
    {
        self.end.record().outcome.is_some()
    }

    /// The path of its file.
    pub fn path(&self) -> &Path
        ensures { result.now ≡ self.now.path }
    {
        &self.path
    }

    /// How many timeouts its end has had since its opening or its last progress.
    pub fn timeouts(&self) -> u8
        ensures { result ≡ timeouts_of self.now.end }
    {
        self.end.timeouts()
    }

    /// Its source or its draft.
    pub(crate) fn files(&self) -> &Files<F, D>
        ensures { result.now ≡ self.now.files }
    {
        &self.files
    }

    /// Its draft, if it stores.
    pub fn draft(&self) -> Option<&D>
        ensures { option_copied result ≡ draft_of self.now.files }
    {
        match &self.files {
            Files::Source(_) => None,
            Files::Sink(draft) => Some(draft),
        }
    }

    /// Whether it is open and was requested from `from` by the same packet.
    pub fn repeats(&self, from: Endpoint, packet: &PacketRef<'_>) -> bool
        ensures { IsTrue result ↔ Repeats from (owned packet.now) self.now }
    {
        let record = self.end.record();
        record.outcome.is_none()
            && record.peer == Some(from)
            && packet.is_spelled(self.request.as_slice())
    }
}

impl<F, D> Transfer<F, D> {
    /// Its end handles a timeout. After a fault nothing has changed.
    pub(crate) fn on_timeout(&mut self, out: &mut Vec<u8>) -> Result<Step, EndFault>
        ensures steps { IfOk result (λ step. Carries self.old.end (timeout_turn self.old.end)
            self.new.end step.to out.old.items out.new.items
            × (step ≡ reported self.old.end (timeout_turn self.old.end))
            × (self.new ≡ with_end self.new.end self.old)) }
        ensures closed { IsErrOf result EndFault.Closed ↔ (is_closed self.old ≡ true) }
        ensures memory { IsErrOf result EndFault.Memory
            → IsAnswered (timeout_action self.old.end.position.retries_left
            self.old.end.position.phase) }
        ensures why { IsErrOf result EndFault.Memory
            → HasNoRoom (vec_capacity out.old) (vec_len out.old) (response_room self.old.end
            (timeout_response self.old.end.position.retries_left
            self.old.end.position.phase)) }
        ensures err { OnErr result ((self.new ≡ self.old) × (out.new.items ≡ out.old.items)) }
    {
        self.end.on_timeout(out)
    }

    /// Its end handles a timeout. [`Transfer::bytes_of`] lends the datagram to send, and
    /// [`Step::to`] is its destination. `Closed`, its one fault, if it is closed; then nothing has
    /// changed.
    pub fn handle_timeout(&mut self) -> Result<(Step, Outgoing), EndFault>
        ensures steps { IfOk result (λ answer. Lends self.old.end (timeout_turn self.old.end)
            self.new.end answer.0.to answer.1
            × (answer.0 ≡ reported self.old.end (timeout_turn self.old.end))
            × (self.new ≡ with_end self.new.end self.old)) }
        ensures closed { IsErrOf result EndFault.Closed ↔ (is_closed self.old ≡ true) }
        ensures memory { IsErrOf result EndFault.Memory → ⊥ }
        ensures err { OnErr result (self.new ≡ self.old) }
    {
        self.end.handle_timeout()
    }

    /// The bytes of the datagram to send. They are valid until the next call.
    pub fn bytes_of(&self, outgoing: Outgoing) -> &[u8]
        ensures { result.now ≡ lent outgoing self.now.end }
    {
        self.end.bytes_of(outgoing)
    }
}

impl<F, D> Transfer<F, D> {
    /// If it sends, its end handles a datagram over this source instead of its own. After a fault
    /// nothing has changed.
    pub(crate) fn lend_source<R: Source>(
        &mut self,
        source: &mut R,
        from: Endpoint,
        bytes: &[u8],
    ) -> Result<(Step, Outgoing), EndFault>
        ensures steps { IfOk result (λ answer. (turn : Turn)
            × SenderStep R.meaning from bytes.now self.old.end source.old turn source.new
            × Lends self.old.end turn self.new.end answer.0.to answer.1
            × (answer.0 ≡ reported self.old.end turn) × (self.new ≡ with_end self.new.end self.old)) }
        ensures closed { IsErrOf result EndFault.Closed ↔ (is_open_sender (Some self.old) ≡ false) }
        ensures err { OnErr result ((self.new ≡ self.old)
            × KeepsSource R.meaning source.old source.new) }
        ensures same { R.is_same source.old source.new }
    {
        match &self.files {
            Files::Source(_) => self.end.handle_datagram_as_sender(source, from, bytes),
            Files::Sink(_) => Err(EndFault::Closed),
        }
    }

    /// If it stores, its end handles a datagram over this sink instead of its draft. After a fault
    /// nothing has changed.
    pub(crate) fn lend_sink<K: Sink>(
        &mut self,
        sink: &mut K,
        from: Endpoint,
        bytes: &[u8],
    ) -> Result<(Step, Outgoing), EndFault>
        ensures steps { IfOk result (λ answer. (turn : Turn)
            × ReceiverStep K.meaning from bytes.now self.old.end sink.old turn sink.new
            × Lends self.old.end turn self.new.end answer.0.to answer.1
            × (answer.0 ≡ reported self.old.end turn) × (self.new ≡ with_end self.new.end self.old)) }
        ensures closed { IsErrOf result EndFault.Closed ↔ (is_open_receiver (Some self.old) ≡ false) }
        ensures err { OnErr result ((self.new ≡ self.old)
            × KeepsSink K.meaning sink.old sink.new) }
        ensures same { K.is_same sink.old sink.new }
    {
        match &self.files {
            Files::Sink(_) => self.end.handle_datagram_as_receiver(sink, from, bytes),
            Files::Source(_) => Err(EndFault::Closed),
        }
    }
}

impl<F: Source, D> Transfer<F, D> {
    /// Its end handles a datagram. What it stores is appended to its draft of `store`. After a
    /// fault nothing has changed.
    pub(crate) fn on_datagram<S: Store<Source = F, Draft = D>>(
        &mut self,
        store: &mut S,
        config: &Config,
        from: Endpoint,
        bytes: &[u8],
        out: &mut Vec<u8>,
    ) -> Result<Step, EndFault>
        ensures takes { IfOk result (λ step. TakesIn S.meaning F.meaning
            config.now.overwrite from bytes.now store.old store.new self.old
            self.new step out.old.items out.new.items) }
        ensures closed { IsErrOf result EndFault.Closed ↔ (is_closed self.old ≡ true) }
        ensures unmoved { IsErrOf result EndFault.Closed
            → (self.new ≡ self.old) × (store.new ≡ store.old) }
        ensures memory { IsErrOf result EndFault.Memory → (decoded : Option Packet)
            × Decodes bytes.now decoded × IsAnswered (datagram_action self.old.end from bytes.now
            decoded) }
        ensures why { IsErrOf result EndFault.Memory → TransferLacksMemory S.meaning F.meaning
            (HasNoRoom (vec_capacity out.old) (vec_len out.old))
            config.now.overwrite from bytes.now store.old store.new self.old self.new }
        ensures err { OnErr result (StaysAs S.meaning F.meaning
            config.now.overwrite store.old store.new self.old self.new
            × (out.new.items ≡ out.old.items)) }
    {
        match self.end.reserve_answer(from, bytes, out) {
            Ok(()) => match self.handle_datagram(store, config, from, bytes) {
                Ok((step, outgoing)) => {
                    let Ok(()) = out.extend_from_slice(self.bytes_of(outgoing)) else {
                        unreachable!()
                    };
                    Ok(step)
                }
                Err(fault) => Err(fault),
            },
            Err(fault) => Err(fault),
        }
    }

    /// As [`Transfer::on_datagram`], but [`Transfer::bytes_of`] lends the datagram.
    pub(crate) fn handle_datagram<S: Store<Source = F, Draft = D>>(
        &mut self,
        store: &mut S,
        config: &Config,
        from: Endpoint,
        bytes: &[u8],
    ) -> Result<(Step, Outgoing), EndFault>
        ensures takes { IfOk result (λ answer. TakesBy S.meaning F.meaning
            (lends answer.1) config.now.overwrite from bytes.now store.old store.new self.old
            self.new answer.0) }
        ensures closed { IsErrOf result EndFault.Closed ↔ (is_closed self.old ≡ true) }
        ensures unmoved { IsErrOf result EndFault.Closed
            → (self.new ≡ self.old) × (store.new ≡ store.old) }
        ensures memory { IsErrOf result EndFault.Memory → (decoded : Option Packet)
            × Decodes bytes.now decoded × UsesFile (datagram_action self.old.end from bytes.now
            decoded) }
        ensures why { IsErrOf result EndFault.Memory → TransferLacksMemory S.meaning F.meaning
            AppendsNothing
            config.now.overwrite from bytes.now store.old store.new self.old self.new }
        ensures room { IfOk result (λ answer. HandledBy
            (FitsRoom self.old.end (lent answer.1 self.new.end)) from bytes.now self.old.end) }
        ensures err { OnErr result (StaysAs S.meaning F.meaning
            config.now.overwrite store.old store.new self.old self.new) }
    {
        match &mut self.files {
            Files::Source(source) => self.end.handle_datagram_as_sender(source, from, bytes),
            Files::Sink(draft) => {
                let path = &self.path;
                let mut sink = DraftSink {
                    store,
                    draft,
                    path,
                    replace: config.overwrite,
                };
                self.end.handle_datagram_as_receiver(&mut sink, from, bytes)
            }
        }
    }
}

impl<F: Source, D> Transfer<F, D> {
    /// A source reads ahead, and a draft is written back. To be called while the peer is busy.
    pub(crate) fn work<S: Store<Source = F, Draft = D>>(&mut self, store: &mut S)
        ensures { Works S.meaning F.meaning store.old store.new self.old self.new }
    {
        match &mut self.files {
            Files::Source(source) => source.read_ahead(),
            Files::Sink(draft) => store.write_behind(draft),
        }
    }
}

impl<F: Drop, D> Transfer<F, D> {
    /// Its draft, if it stores; the rest is dropped.
    pub(crate) fn into_draft(self) -> Option<D>
        ensures { result ≡ draft_of self.files }
    {
        let Transfer { files, .. } = self;
        match files {
            Files::Source(_) => None,
            Files::Sink(draft) => Some(draft),
        }
    }
}
