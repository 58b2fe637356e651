//! An end of a transfer: how it handles datagrams and timeouts.

mod acting;
mod appending;
mod opening;
mod sending;
mod serving;
mod sides;
mod storing;

ghost use Rattle.std.specs.Prelude.{◌≡◌, ◌↔◌, ◌≤◌, length, option_map, Option};
ghost use Rattle.std.specs.Prelude.{Some, false, true, IfOk, IfSome, OnErr, IsErrOf, IsSome, is_some};
ghost use Rattle.tftp_wire.specs.Borrowed.{owned};
ghost use Rattle.tftp_wire.specs.declared.packet.Packet.{Packet};
ghost use Rattle.tftp_ends.specs.declared.action.Action.TheVariants.{Send, Store};
ghost use Rattle.tftp_ends.specs.declared.phase.Phase.TheVariants.{Receiving, Sending};

use crate::action::{Action, Response};
use crate::decoding::decode_packet;
use crate::endpoint::Endpoint;
use crate::error_reply::ErrorReply;
use crate::fault::EndFault;
use crate::next_block::NextBlock;
use crate::outcome::Outcome;
use crate::outgoing::Outgoing;
use crate::phase::{Dally, Phase};
use crate::receiver::{dally_response, data_action, receiver_action};
use crate::record::{DEFAULT_INTERVAL, Held, Record, Step};
use crate::role::Role;
use crate::sender::{acked_action, acknowledges, sender_action};
use crate::waiting::{reader_action, writer_action};
use std::marker::Model;
use tftp_file::{Files, NetDecoder, Sink, Source};
use tftp_negotiate::DEFAULT_BLOCK;
use tftp_wire::{PacketRef, data_in, has_error_opcode};

/// One end of a transfer.
///
/// The caller owns the socket and the clock. It delivers each datagram that arrives at the end's
/// port ([`End::on_datagram`]), and a timeout ([`End::on_timeout`]) when [`End::interval`] seconds
/// have passed since the opening, the last progress or the last timeout. It sends the datagram that
/// a call appends to `out` to [`Step::to`]. [`End::handle_datagram`] and [`End::handle_timeout`]
/// make the same steps, and lend the datagram instead. A closed end refuses every call.
#[derive(Debug, Drop)]
pub struct End {
    role: Role,
    retries_left: u8,
    last_sent: Vec<u8>,
    spare: Vec<u8>,
    last_sent_to: Endpoint,
    decoder: NetDecoder,
    phase: Phase,
}

impl Model for End {
    ghost use Rattle.std.specs.Prelude.{◌≡◌, ◌≤◌, [], true, length, vec_capacity};
    ghost use Rattle.tftp_ends.specs.End.{EndState, is_sender};
    ghost use Rattle.tftp_ends.specs.Sound.{IsSound};

    ghost Value = { EndState };

    ghost view = { λ e. record {
      role = e.role;
      position = record {
        retries_left = e.retries_left;
        last_sent = e.last_sent.items;
        last_sent_to = e.last_sent_to;
        held_back = e.decoder;
        phase = e.phase;
      };
    } };

    ghost invariant = { λ e. IsSound (record {
      role = e.role;
      position = record {
        retries_left = e.retries_left;
        last_sent = e.last_sent.items;
        last_sent_to = e.last_sent_to;
        held_back = e.decoder;
        phase = e.phase;
      };
    }) × (4 ≤ vec_capacity e.last_sent) × (e.spare.items ≡ [])
        × (is_sender e.role.side ≡ true → length e.last_sent.items ≤ vec_capacity e.spare) };
}

impl End {
    ghost use Rattle.tftp_ends.specs.End.{record_of, held_by, outcome_of, terms_of, interval_of};
    ghost use Rattle.tftp_ends.specs.End.{is_sender};
    ghost use Rattle.tftp_ends.specs.Backoff.{timeouts_of};
    ghost use Rattle.tftp_ends.specs.Action.{Decodes, HandledBy, datagram_action, packet_action};
    ghost use Rattle.tftp_ends.specs.Action.{garbled_response, is_wrong_peer, timeout_response};
    ghost use Rattle.tftp_ends.specs.Fits.{ActionFits, BytesFit, ReplyFits, ResponseFits};
    ghost use Rattle.tftp_ends.specs.Room.{FitsRoom, response_room};
    ghost use Rattle.tftp_ends.specs.Shortage.{AppendsNothing, LacksMemory};
    ghost use Rattle.tftp_ends.specs.Sound.{IsSound, ResendsAck, longest_sent};
    ghost use Rattle.tftp_ends.specs.Files.{AreFilesOf, KeepsFiles, AreSame};
    ghost use Rattle.tftp_ends.specs.Step.{Turn, DatagramStep, Lends};
    ghost use Rattle.tftp_ends.specs.Step.{UsesFile, reported, timeout_turn, lent};

    /// The state of the end. A receiver answers a repeated block by the ACK of `number`.
    pub fn record(&self) -> Record
        ensures record { result ≡ record_of self.now }
        ensures resends { ResendsAck self.now self.now.position.phase }
    {
        let (peer, size, timeout) = match self.phase.terms() {
            Some(terms) => (Some(terms.peer), terms.size, terms.timeout),
            None => (None, DEFAULT_BLOCK, None),
        };
        Record {
            side: self.role.side,
            peer,
            size,
            timeout,
            number: self.phase.number(),
            complete: self.phase.is_complete(),
            outcome: self.phase.outcome(),
        }
    }

    /// How the end closed, once it is closed.
    pub fn outcome(&self) -> Option<Outcome>
        ensures { result ≡ outcome_of self.now.position.phase }
    {
        self.phase.outcome()
    }

    /// How many bytes the end keeps between two events: in both buffers together a datagram of at
    /// most a header and a block of the agreed size, or 512 bytes, and at most one byte of text.
    pub fn held(&self) -> Held
        ensures held { result ≡ held_by self.now }
        ensures datagram { result.datagram ≤ longest_sent (terms_of self.now.position.phase) }
        ensures text { result.text ≤ 1 }
    {
        Held {
            datagram: self.last_sent.len() + self.spare.len(),
            text: self.decoder.held(),
        }
    }

    /// The timeout interval in seconds: the agreed one (RFC 2349, "Timeout Interval Option
    /// Specification"), or [`DEFAULT_INTERVAL`].
    pub fn interval(&self) -> u8
        ensures { result ≡ interval_of (terms_of self.now.position.phase) }
    {
        match self.phase.terms() {
            Some(terms) => terms.timeout.unwrap_or(DEFAULT_INTERVAL),
            None => DEFAULT_INTERVAL,
        }
    }

    /// The timeouts since the opening or the last progress: the retries that are used up. With
    /// [`End::interval`] they say how long the end waits ([`Backoff::wait`](crate::Backoff::wait)).
    pub fn timeouts(&self) -> u8
        ensures { result ≡ timeouts_of self.now }
    {
        self.role.retries.saturating_sub(self.retries_left)
    }

    /// Whether a datagram is not from the peer or, while the peer is unknown, not from the server's
    /// address.
    #[inline(always)]
    fn is_wrong_peer(&self, from: Endpoint) -> bool
        ensures { result ≡ is_wrong_peer (terms_of self.now.position.phase)
            self.now.position.last_sent_to from }
    {
        match self.phase.terms() {
            Some(terms) => !terms.peer.is_same(from),
            None => !self.last_sent_to.has_address_of(from),
        }
    }

    /// A malformed ERROR closes the transfer without a reply. In a dally it is ignored.
    fn garbled_response(&self) -> Response
        ensures { result ≡ garbled_response self.now.position.phase }
    {
        match self.phase {
            Phase::Waiting { .. } | Phase::Sending { .. } | Phase::Receiving { .. } =>
                Response::Close {
                    outcome: Outcome::Illegal,
                },
            Phase::Dallying { .. } | Phase::Closed { .. } => Response::Ignore,
        }
    }

    /// How the end handles a packet from its peer, or from the server while the peer is unknown.
    /// `sends` is whether it is a sender: as a constant, it keeps the other side's code out.
    #[inline(always)]
    fn packet_action(&self, sends: bool, from: Endpoint, decoded: &Option<PacketRef<'_>>) -> Action
        requires { is_sender self.now.role.side ≡ sends }
        ensures action { result
            ≡ packet_action self.now from (option_map owned decoded.now) self.now.position.phase }
        ensures fits { ActionFits self.now result }
        ensures sound { IsSound self.now }
    {
        let role = self.role;
        match self.phase {
            Phase::Waiting { asked, limit } => {
                if sends {
                    writer_action(role.mode, &asked, limit, role.length, from, decoded)
                } else {
                    reader_action(role.mode, &asked, limit, from, decoded)
                }
            }
            Phase::Sending { terms, number } => {
                if !sends {
                    unreachable!()
                }
                sender_action(role.side, role.length, terms, number, decoded)
            }
            Phase::Receiving { terms, number } => receiver_action(
                role.side,
                role.mode,
                self.decoder,
                terms,
                number,
                decoded,
            ),
            Phase::Dallying { number, .. } => Action::Respond(dally_response(number, decoded)),
            Phase::Closed { .. } => Action::Respond(Response::Ignore),
        }
    }

    /// How the end handles a datagram: it tests the sender first, and then for a malformed ERROR.
    #[inline(always)]
    fn datagram_action(&self, sends: bool, from: Endpoint, bytes: &[u8]) -> Action
        requires { is_sender self.now.role.side ≡ sends }
        ensures action { (decoded : Option Packet) × Decodes bytes.now decoded
            × (result ≡ datagram_action self.now from bytes.now decoded) }
        ensures fits { ActionFits self.now result }
        ensures bytes { BytesFit self.now bytes.now result }
    {
        let decoded = decode_packet(bytes);
        let is_error = has_error_opcode(bytes);
        if self.is_wrong_peer(from) {
            return Action::Respond(if is_error {
                Response::Ignore
            } else {
                Response::WrongPeer
            });
        }
        if is_error && decoded.is_none() {
            return Action::Respond(self.garbled_response());
        }
        self.packet_action(sends, from, &decoded)
    }

    /// How a receiver handles any datagram.
    #[inline(never)]
    pub(crate) fn action_as_receiver(&self, from: Endpoint, bytes: &[u8]) -> Action
        requires { is_sender self.now.role.side ≡ false }
        ensures action { (decoded : Option Packet) × Decodes bytes.now decoded
            × (result ≡ datagram_action self.now from bytes.now decoded) }
        ensures fits { ActionFits self.now result }
        ensures bytes { BytesFit self.now bytes.now result }
    {
        self.datagram_action(false, from, bytes)
    }

    /// How a sender handles any datagram.
    #[inline(never)]
    pub(crate) fn action_as_sender(&self, from: Endpoint, bytes: &[u8]) -> Action
        requires { is_sender self.now.role.side ≡ true }
        ensures action { (decoded : Option Packet) × Decodes bytes.now decoded
            × (result ≡ datagram_action self.now from bytes.now decoded) }
        ensures fits { ActionFits self.now result }
        ensures bytes { BytesFit self.now bytes.now result }
    {
        self.datagram_action(true, from, bytes)
    }

    /// The block that a receiver stores next, if the datagram is its DATA from the peer, as most are.
    /// [`End::store_next`] stores it.
    #[inline(always)]
    pub fn next_block(&self, from: Endpoint, bytes: &[u8]) -> Option<NextBlock>
        ensures phase { IfSome result
            (λ next. self.now.position.phase ≡ Receiving next.terms next.newest) }
        ensures action { IfSome result (λ next. (decoded : Option Packet)
            × Decodes bytes.now decoded
            × (Store next.terms next.number ≡ datagram_action self.now from bytes.now decoded)) }
        ensures fits { IfSome result (λ next. ActionFits self.now (Store next.terms next.number)) }
        ensures bytes { IfSome result
            (λ next. BytesFit self.now bytes.now (Store next.terms next.number)) }
    {
        let Phase::Receiving {
            terms: agreed,
            number,
        } = self.phase
        else {
            return None;
        };
        if self.is_wrong_peer(from) {
            return None;
        }
        let Some((block, piece)) = data_in(bytes) else {
            return None;
        };
        let action = data_action(self.role.mode, self.decoder, agreed, number, block, piece);
        match action {
            Action::Store {
                terms,
                number: next,
            } => Some(NextBlock {
                terms,
                newest: number,
                number: next,
            }),
            Action::Send { .. } => None,
            Action::Respond(_) => None,
        }
    }

    /// The block that a sender sends next, if the datagram is the ACK of its newest from the peer, as
    /// most are. [`End::send_next`] sends it.
    #[inline(always)]
    pub fn next_ack(&self, from: Endpoint, bytes: &[u8]) -> Option<NextBlock>
        ensures phase { IfSome result
            (λ next. self.now.position.phase ≡ Sending next.terms next.newest) }
        ensures action { IfSome result (λ next. (decoded : Option Packet)
            × Decodes bytes.now decoded
            × (Send next.terms next.number ≡ datagram_action self.now from bytes.now decoded)) }
        ensures fits { IfSome result (λ next. ActionFits self.now (Send next.terms next.number)) }
        ensures bytes { IfSome result
            (λ next. BytesFit self.now bytes.now (Send next.terms next.number)) }
    {
        let Phase::Sending {
            terms: agreed,
            number,
        } = self.phase
        else {
            return None;
        };
        if self.is_wrong_peer(from) {
            return None;
        }
        if !acknowledges(bytes, number) {
            return None;
        }
        let action = acked_action(self.role.length, agreed, number, number);
        match action {
            Action::Send {
                terms,
                number: next,
            } => Some(NextBlock {
                terms,
                newest: number,
                number: next,
            }),
            Action::Store { .. } => None,
            Action::Respond(_) => None,
        }
    }

    /// How the end handles a timeout (RFC 1350, sections 2 and 6).
    fn timeout_response(&self) -> Response
        ensures response { result ≡ timeout_response self.now.position.retries_left
            self.now.position.phase }
        ensures fits { ResponseFits self.now result }
        ensures reply { ReplyFits self.now result }
    {
        match self.phase {
            Phase::Dallying {
                dally: Dally::Fresh,
                ..
            } => Response::Wait,
            Phase::Dallying {
                dally: Dally::Waited,
                ..
            } => Response::Close {
                outcome: Outcome::Complete,
            },
            _ if self.retries_left == 0 => Response::Close {
                outcome: Outcome::TimedOut,
            },
            _ => Response::Retransmit,
        }
    }

    fn is_closed(&self) -> bool
        ensures { result ≡ is_some (outcome_of self.now.position.phase) }
    {
        self.outcome().is_some()
    }

    pub(crate) fn phase(&self) -> Phase
        ensures { result ≡ self.now.position.phase }
    {
        self.phase
    }

    /// The bytes of the datagram to send, until the next call.
    #[inline(always)]
    pub fn bytes_of(&self, outgoing: Outgoing) -> &[u8]
        ensures { result.now ≡ lent outgoing self.now }
    {
        match outgoing {
            Outgoing::Nothing => &[],
            Outgoing::LastSent => &self.last_sent,
            Outgoing::Error(reply) => reply.datagram(),
        }
    }

    /// Handles a datagram that was received from `from` at the end's port, and returns the datagram
    /// to send without a copy. [`End::bytes_of`] lends its bytes; [`Step::to`] is its destination.
    ///
    /// `files` is the source of a sender or the sink of a receiver. After `Closed` and `Memory`
    /// nothing has changed. `Memory` is possible only if a block is read from a file or stored in
    /// one.
    pub fn handle_datagram<S: Source, K: Sink>(
        &mut self,
        files: &mut Files<S, K>,
        from: Endpoint,
        bytes: &[u8],
    ) -> Result<(Step, Outgoing), EndFault>
        requires { AreFilesOf self.old.role.side files.old }
        ensures steps { IfOk result (λ answer. (turn : Turn)
            × DatagramStep S.meaning K.meaning from bytes.now self.old files.old turn files.new
            × Lends self.old turn self.new answer.0.to answer.1
            × (answer.0 ≡ reported self.old turn)) }
        ensures closed { IsErrOf result EndFault.Closed
            ↔ IsSome (outcome_of self.old.position.phase) }
        ensures unmoved { IsErrOf result EndFault.Closed → files.new ≡ files.old }
        ensures memory { IsErrOf result EndFault.Memory
            → HandledBy UsesFile from bytes.now self.old }
        ensures why { IsErrOf result EndFault.Memory → LacksMemory S.meaning K.meaning
            AppendsNothing from bytes.now self.old files.old files.new }
        ensures room { IfOk result (λ answer. HandledBy
            (FitsRoom self.old (lent answer.1 self.new)) from bytes.now self.old) }
        ensures err { OnErr result ((self.new ≡ self.old)
            × KeepsFiles S.meaning K.meaning files.old files.new) }
        ensures same { AreSame S.is_same K.is_same files.old files.new }
        ensures files { AreFilesOf self.new.role.side files.new }
    {
        match files {
            Files::Source(source) => self.handle_datagram_as_sender(source, from, bytes),
            Files::Sink(sink) => self.handle_datagram_as_receiver(sink, from, bytes),
        }
    }

    /// Delivers a timeout, and returns the datagram to send. It allocates no memory: its only fault
    /// is `Closed`, after which nothing has changed.
    pub fn handle_timeout(&mut self) -> Result<(Step, Outgoing), EndFault>
        ensures steps { IfOk result (λ answer.
            Lends self.old (timeout_turn self.old) self.new answer.0.to answer.1
            × (answer.0 ≡ reported self.old (timeout_turn self.old))) }
        ensures closed { IsErrOf result EndFault.Closed
            ↔ IsSome (outcome_of self.old.position.phase) }
        ensures memory { IsErrOf result EndFault.Memory → ⊥ }
        ensures room { IfOk result (λ answer. length (lent answer.1 self.new)
            ≤ response_room self.old (timeout_response self.old.position.retries_left
            self.old.position.phase)) }
        ensures err { OnErr result (self.new ≡ self.old) }
    {
        if self.is_closed() {
            return Err(EndFault::Closed);
        }
        Ok(self.respond(self.timeout_response(), self.last_sent_to))
    }
}
