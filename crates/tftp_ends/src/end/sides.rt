//! How an end handles a datagram over its one file: a sender over its source, a receiver over its
//! sink.

ghost use Rattle.std.specs.Prelude.{◌≡◌, ◌↔◌, true, false, IfOk, OnErr, Option};
ghost use Rattle.std.specs.Prelude.{IsErrOf, IsSome};
ghost use Rattle.tftp_wire.specs.declared.packet.Packet.{Packet};
ghost use Rattle.tftp_ends.specs.declared.action.Action.TheVariants.{Send, Store};
ghost use Rattle.tftp_ends.specs.declared.phase.Phase.TheVariants.{Receiving, Sending};
ghost use Rattle.tftp_ends.specs.Action.{Decodes, HandledBy, datagram_action};
ghost use Rattle.tftp_ends.specs.End.{is_sender, outcome_of};
ghost use Rattle.tftp_ends.specs.Files.{KeepsSource, KeepsSink};
ghost use Rattle.tftp_ends.specs.Fits.{ActionFits, BytesFit};
ghost use Rattle.tftp_ends.specs.OneFile.{SenderStep, SenderLacksMemory};
ghost use Rattle.tftp_ends.specs.OneFile.{ReceiverStep, ReceiverLacksMemory};
ghost use Rattle.tftp_ends.specs.Room.{FitsRoom};
ghost use Rattle.tftp_ends.specs.Shortage.{AppendsNothing};
ghost use Rattle.tftp_ends.specs.Step.{Turn, Lends, UsesFile, reported, lent};

use crate::action::Action;
use crate::end::End;
use crate::end::acting::piece_of;
use crate::endpoint::Endpoint;
use crate::fault::EndFault;
use crate::next_block::NextBlock;
use crate::outgoing::Outgoing;
use crate::phase::Phase;
use crate::record::Step;
use tftp_file::{Sink, Source};

impl End {
    /// As [`End::handle_datagram`], for a sender alone: `source` is its file.
    #[inline(always)]
    pub fn handle_datagram_as_sender<S: Source>(
        &mut self,
        source: &mut S,
        from: Endpoint,
        bytes: &[u8],
    ) -> Result<(Step, Outgoing), EndFault>
        requires { is_sender self.old.role.side ≡ true }
        ensures steps { IfOk result (λ answer. (turn : Turn)
            × SenderStep S.meaning from bytes.now self.old source.old turn source.new
            × Lends self.old turn self.new answer.0.to answer.1
            × (answer.0 ≡ reported self.old turn)) }
        ensures closed { IsErrOf result EndFault.Closed
            ↔ IsSome (outcome_of self.old.position.phase) }
        ensures unmoved { IsErrOf result EndFault.Closed → source.new ≡ source.old }
        ensures memory { IsErrOf result EndFault.Memory
            → HandledBy UsesFile from bytes.now self.old }
        ensures why { IsErrOf result EndFault.Memory → SenderLacksMemory S.meaning
            AppendsNothing from bytes.now self.old source.old source.new }
        ensures room { IfOk result (λ answer. HandledBy
            (FitsRoom self.old (lent answer.1 self.new)) from bytes.now self.old) }
        ensures err { OnErr result ((self.new ≡ self.old)
            × KeepsSource S.meaning source.old source.new) }
        ensures same { S.is_same source.old source.new }
        ensures side { is_sender self.new.role.side ≡ true }
    {
        match self.next_ack(from, bytes) {
            Some(next) => self.send_next(next, source, from, bytes),
            None => self.handle_any_as_sender(source, from, bytes),
        }
    }

    /// As [`End::handle_datagram_as_sender`], for a datagram that requests the next block
    /// ([`End::next_ack`]).
    #[inline(always)]
    pub fn send_next<S: Source>(
        &mut self,
        next: NextBlock,
        source: &mut S,
        from: Endpoint,
        bytes: &[u8],
    ) -> Result<(Step, Outgoing), EndFault>
        requires phase { self.old.position.phase ≡ Sending next.terms next.newest }
        requires action { (decoded : Option Packet) × Decodes bytes.now decoded
            × (Send next.terms next.number ≡ datagram_action self.old from bytes.now decoded) }
        requires fits { ActionFits self.old (Send next.terms next.number) }
        requires bytes { BytesFit self.old bytes.now (Send next.terms next.number) }
        ensures steps { IfOk result (λ answer. (turn : Turn)
            × SenderStep S.meaning from bytes.now self.old source.old turn source.new
            × Lends self.old turn self.new answer.0.to answer.1
            × (answer.0 ≡ reported self.old turn)) }
        ensures closed { IsErrOf result EndFault.Closed
            ↔ IsSome (outcome_of self.old.position.phase) }
        ensures unmoved { IsErrOf result EndFault.Closed → source.new ≡ source.old }
        ensures memory { IsErrOf result EndFault.Memory
            → HandledBy UsesFile from bytes.now self.old }
        ensures why { IsErrOf result EndFault.Memory → SenderLacksMemory S.meaning
            AppendsNothing from bytes.now self.old source.old source.new }
        ensures room { IfOk result (λ answer. HandledBy
            (FitsRoom self.old (lent answer.1 self.new)) from bytes.now self.old) }
        ensures err { OnErr result ((self.new ≡ self.old)
            × KeepsSource S.meaning source.old source.new) }
        ensures same { S.is_same source.old source.new }
        ensures side { is_sender self.new.role.side ≡ true }
    {
        self.send_after(next, source, from)
    }

    /// As [`End::handle_datagram_as_sender`], for any datagram. It takes more time for the ACK of the
    /// newest DATA.
    #[inline(never)]
    pub fn handle_any_as_sender<S: Source>(
        &mut self,
        source: &mut S,
        from: Endpoint,
        bytes: &[u8],
    ) -> Result<(Step, Outgoing), EndFault>
        requires { is_sender self.old.role.side ≡ true }
        ensures steps { IfOk result (λ answer. (turn : Turn)
            × SenderStep S.meaning from bytes.now self.old source.old turn source.new
            × Lends self.old turn self.new answer.0.to answer.1
            × (answer.0 ≡ reported self.old turn)) }
        ensures closed { IsErrOf result EndFault.Closed
            ↔ IsSome (outcome_of self.old.position.phase) }
        ensures unmoved { IsErrOf result EndFault.Closed → source.new ≡ source.old }
        ensures memory { IsErrOf result EndFault.Memory
            → HandledBy UsesFile from bytes.now self.old }
        ensures why { IsErrOf result EndFault.Memory → SenderLacksMemory S.meaning
            AppendsNothing from bytes.now self.old source.old source.new }
        ensures room { IfOk result (λ answer. HandledBy
            (FitsRoom self.old (lent answer.1 self.new)) from bytes.now self.old) }
        ensures err { OnErr result ((self.new ≡ self.old)
            × KeepsSource S.meaning source.old source.new) }
        ensures same { S.is_same source.old source.new }
        ensures side { is_sender self.new.role.side ≡ true }
    {
        if self.is_closed() {
            return Err(EndFault::Closed);
        }
        match self.action_as_sender(from, bytes) {
            Action::Respond(response) => Ok(self.respond(response, from)),
            Action::Send { terms, number } => self.send(self.phase, terms, number, source, from),
            Action::Store { .. } => unreachable!(),
        }
    }

    /// As [`End::handle_datagram`], for a receiver alone: `sink` is its file.
    #[inline(always)]
    pub fn handle_datagram_as_receiver<K: Sink>(
        &mut self,
        sink: &mut K,
        from: Endpoint,
        bytes: &[u8],
    ) -> Result<(Step, Outgoing), EndFault>
        requires { is_sender self.old.role.side ≡ false }
        ensures steps { IfOk result (λ answer. (turn : Turn)
            × ReceiverStep K.meaning from bytes.now self.old sink.old turn sink.new
            × Lends self.old turn self.new answer.0.to answer.1
            × (answer.0 ≡ reported self.old turn)) }
        ensures closed { IsErrOf result EndFault.Closed
            ↔ IsSome (outcome_of self.old.position.phase) }
        ensures unmoved { IsErrOf result EndFault.Closed → sink.new ≡ sink.old }
        ensures memory { IsErrOf result EndFault.Memory
            → HandledBy UsesFile from bytes.now self.old }
        ensures why { IsErrOf result EndFault.Memory → ReceiverLacksMemory K.meaning
            AppendsNothing from bytes.now self.old sink.old sink.new }
        ensures room { IfOk result (λ answer. HandledBy
            (FitsRoom self.old (lent answer.1 self.new)) from bytes.now self.old) }
        ensures err { OnErr result ((self.new ≡ self.old)
            × KeepsSink K.meaning sink.old sink.new) }
        ensures same { K.is_same sink.old sink.new }
        ensures side { is_sender self.new.role.side ≡ false }
    {
        match self.next_block(from, bytes) {
            Some(next) => self.store_next(next, sink, from, bytes),
            None => self.handle_any_as_receiver(sink, from, bytes),
        }
    }

    /// As [`End::handle_datagram_as_receiver`], for a datagram that brings the next block
    /// ([`End::next_block`]).
    #[inline(always)]
    pub fn store_next<K: Sink>(
        &mut self,
        next: NextBlock,
        sink: &mut K,
        from: Endpoint,
        bytes: &[u8],
    ) -> Result<(Step, Outgoing), EndFault>
        requires phase { self.old.position.phase ≡ Receiving next.terms next.newest }
        requires action { (decoded : Option Packet) × Decodes bytes.now decoded
            × (Store next.terms next.number ≡ datagram_action self.old from bytes.now decoded) }
        requires fits { ActionFits self.old (Store next.terms next.number) }
        requires bytes { BytesFit self.old bytes.now (Store next.terms next.number) }
        ensures steps { IfOk result (λ answer. (turn : Turn)
            × ReceiverStep K.meaning from bytes.now self.old sink.old turn sink.new
            × Lends self.old turn self.new answer.0.to answer.1
            × (answer.0 ≡ reported self.old turn)) }
        ensures closed { IsErrOf result EndFault.Closed
            ↔ IsSome (outcome_of self.old.position.phase) }
        ensures unmoved { IsErrOf result EndFault.Closed → sink.new ≡ sink.old }
        ensures memory { IsErrOf result EndFault.Memory
            → HandledBy UsesFile from bytes.now self.old }
        ensures why { IsErrOf result EndFault.Memory → ReceiverLacksMemory K.meaning
            AppendsNothing from bytes.now self.old sink.old sink.new }
        ensures room { IfOk result (λ answer. HandledBy
            (FitsRoom self.old (lent answer.1 self.new)) from bytes.now self.old) }
        ensures err { OnErr result ((self.new ≡ self.old)
            × KeepsSink K.meaning sink.old sink.new) }
        ensures same { K.is_same sink.old sink.new }
        ensures side { is_sender self.new.role.side ≡ false }
    {
        let NextBlock {
            terms,
            newest,
            number,
        } = next;
        let before = Phase::Receiving {
            terms,
            number: newest,
        };
        self.store(before, terms, number, piece_of(bytes), sink, from)
    }

    /// As [`End::handle_datagram_as_receiver`], for any datagram. It takes more time for the DATA of
    /// the next block.
    #[inline(never)]
    pub fn handle_any_as_receiver<K: Sink>(
        &mut self,
        sink: &mut K,
        from: Endpoint,
        bytes: &[u8],
    ) -> Result<(Step, Outgoing), EndFault>
        requires { is_sender self.old.role.side ≡ false }
        ensures steps { IfOk result (λ answer. (turn : Turn)
            × ReceiverStep K.meaning from bytes.now self.old sink.old turn sink.new
            × Lends self.old turn self.new answer.0.to answer.1
            × (answer.0 ≡ reported self.old turn)) }
        ensures closed { IsErrOf result EndFault.Closed
            ↔ IsSome (outcome_of self.old.position.phase) }
        ensures unmoved { IsErrOf result EndFault.Closed → sink.new ≡ sink.old }
        ensures memory { IsErrOf result EndFault.Memory
            → HandledBy UsesFile from bytes.now self.old }
        ensures why { IsErrOf result EndFault.Memory → ReceiverLacksMemory K.meaning
            AppendsNothing from bytes.now self.old sink.old sink.new }
        ensures room { IfOk result (λ answer. HandledBy
            (FitsRoom self.old (lent answer.1 self.new)) from bytes.now self.old) }
        ensures err { OnErr result ((self.new ≡ self.old)
            × KeepsSink K.meaning sink.old sink.new) }
        ensures same { K.is_same sink.old sink.new }
        ensures side { is_sender self.new.role.side ≡ false }
    {
        if self.is_closed() {
            return Err(EndFault::Closed);
        }
        match self.action_as_receiver(from, bytes) {
            Action::Respond(response) => Ok(self.respond(response, from)),
            Action::Send { .. } => unreachable!(),
            Action::Store { terms, number } => {
                self.store(self.phase, terms, number, piece_of(bytes), sink, from)
            }
        }
    }
}
