//! How an end carries out a response: the next phase, and the datagram to send.

ghost use Rattle.std.specs.Prelude.{◌≡◌, ◌≤◌, drop, false, length, Some};
ghost use Rattle.tftp_ends.specs.Step.{Lends, ack_bytes};
ghost use Rattle.tftp_ends.specs.Step.{having_sent, in_phase, response_turn, with_position};
ghost use Rattle.tftp_ends.specs.Step.{lent, reported};
ghost use Rattle.tftp_ends.specs.Phase.{refused};
ghost use Rattle.tftp_ends.specs.Room.{room_of, response_room};
ghost use Rattle.tftp_ends.specs.End.{is_sender, number_of, step_of, terms_of};
ghost use Rattle.tftp_ends.specs.Fits.{ReplyFits, ResponseFits, SentFits};
ghost use Rattle.tftp_ends.specs.Sound.{PhaseFits, ResendsAck};

use crate::action::{Action, Response};
use crate::end::End;
use crate::end::sending::block_length;
use crate::endpoint::Endpoint;
use crate::error_reply::ErrorReply;
use crate::outcome::Outcome;
use crate::outgoing::Outgoing;
use crate::phase::{Phase, Terms};
use crate::record::Step;
use crate::reply::MAX_ERROR;
use tftp_wire::append_ack;

/// The data of a DATA packet, after its opcode and number.
pub(crate) fn piece_of(bytes: &[u8]) -> &[u8]
    ensures { result.now ≡ drop 4 bytes.now }
{
    match bytes {
        [_, _, _, _, piece @ ..] => piece,
        _ => &[],
    }
}

impl End {
    /// Enters a phase. Progress restores the retries.
    pub(crate) fn go_into(&mut self, phase: Phase)
        requires fits { PhaseFits self.old phase }
        requires resends { ResendsAck self.old phase }
        requires sent { SentFits self.old (terms_of phase) }
        ensures { self.new ≡ with_position (in_phase phase self.old) self.old }
    {
        self.retries_left = self
            .phase
            .retries_left(phase, self.role.retries, self.retries_left);
        self.phase = phase;
    }

    /// Closes, with these terms.
    #[inline(never)]
    pub(crate) fn close(&mut self, terms: Option<Terms>, outcome: Outcome)
        requires { SentFits self.old terms }
        ensures { self.new ≡ with_position (in_phase
            (refused terms outcome self.old.position.phase) self.old) self.old }
    {
        let phase = Phase::Closed {
            terms,
            number: self.phase.number(),
            complete: self.phase.is_complete(),
            outcome,
        };
        self.go_into(phase);
    }

    /// Closes because of a fault of the file, with an ERROR for `from`.
    #[inline(never)]
    pub(crate) fn close_for(&mut self, terms: Terms, outcome: Outcome, from: Endpoint) -> Step
        requires { SentFits self.old (Some terms) }
        ensures state { self.new ≡ with_position (in_phase
            (refused (Some terms) outcome self.old.position.phase) self.old) self.old }
        ensures step { result
            ≡ step_of self.old.position.phase self.new.position.phase (Some from) }
    {
        let before = self.phase();
        self.close(Some(terms), outcome);
        before.step_to(self.phase(), Some(from))
    }

    /// As [`End::close_for`], by the terms of the phase.
    #[inline(never)]
    pub(crate) fn close_of(&mut self, outcome: Outcome, from: Endpoint) -> Step
        ensures state { self.new ≡ with_position (in_phase (refused
            (terms_of self.old.position.phase) outcome self.old.position.phase) self.old) self.old }
        ensures step { result
            ≡ step_of self.old.position.phase self.new.position.phase (Some from) }
    {
        let before = self.phase;
        self.close(before.terms(), outcome);
        before.step_to(self.phase(), Some(from))
    }

    /// Enters a phase from the one before it, and acknowledges its block. It allocates no memory.
    #[inline(always)]
    pub(crate) fn acknowledge(&mut self, before: Phase, phase: Phase, from: Endpoint) -> Outgoing
        requires before { self.old.position.phase ≡ before }
        requires fits { PhaseFits self.old phase }
        requires receiver { is_sender self.old.role.side ≡ false }
        ensures state { self.new ≡ with_position (having_sent
            (record { to = from; bytes = ack_bytes (number_of phase) }) (in_phase phase self.old))
            self.old }
        ensures sent { result ≡ Outgoing.LastSent }
    {
        self.last_sent.clear();
        let Ok(()) = append_ack(&mut self.last_sent, phase.number()) else {
            unreachable!()
        };
        self.last_sent_to = from;
        self.retries_left = before.retries_left(phase, self.role.retries, self.retries_left);
        self.phase = phase;
        Outgoing::LastSent
    }

    /// The capacity to reserve for an action, in bytes.
    pub(crate) fn room(&self, action: Action) -> usize
        ensures { result ≡ room_of self.now action }
    {
        match action {
            Action::Respond(response) => self.response_room(response),
            Action::Send { terms, number } => {
                MAX_ERROR + block_length(self.role.length, terms.size, number)
            }
            Action::Store { .. } => MAX_ERROR,
        }
    }

    /// The capacity to reserve for a response, in bytes.
    pub(crate) fn response_room(&self, response: Response) -> usize
        ensures { result ≡ response_room self.now response }
    {
        match response {
            Response::ResendReply | Response::Retransmit => self.last_sent.len(),
            Response::WrongPeer | Response::Refuse { .. } | Response::Accept { .. } => MAX_ERROR,
            Response::Ignore | Response::Wait | Response::Close { .. } | Response::Complete => 0,
        }
    }

    /// Carries out a response. Returns the step and the datagram to send. It allocates no memory.
    pub(crate) fn respond(&mut self, response: Response, from: Endpoint) -> (Step, Outgoing)
        requires fits { ResponseFits self.old response }
        requires reply { ReplyFits self.old response }
        ensures lends { Lends self.old (response_turn response from self.old) self.new
            result.0.to result.1 }
        ensures step { result.0 ≡ reported self.old (response_turn response from self.old) }
        ensures room { length (lent result.1 self.new) ≤ response_room self.old response }
    {
        let before = self.phase();
        let (to, outgoing) = self.carry_out(response, from);
        (before.step_to(self.phase(), to), outgoing)
    }

    /// Changes the state for a response. Returns the destination and the datagram to send.
    fn carry_out(&mut self, response: Response, from: Endpoint) -> (Option<Endpoint>, Outgoing)
        requires fits { ResponseFits self.old response }
        requires reply { ReplyFits self.old response }
        ensures lends { Lends self.old (response_turn response from self.old) self.new
            result.0 result.1 }
        ensures room { length (lent result.1 self.new) ≤ response_room self.old response }
    {
        match response {
            Response::Ignore => (None, Outgoing::Nothing),
            Response::WrongPeer => (Some(from), Outgoing::Error(ErrorReply::UnknownTransferId)),
            Response::ResendReply => (Some(from), Outgoing::LastSent),
            Response::Retransmit => {
                self.retries_left -= 1;
                (Some(self.last_sent_to), Outgoing::LastSent)
            }
            Response::Wait => {
                self.go_into(self.phase.waited());
                (None, Outgoing::Nothing)
            }
            Response::Close { outcome } => {
                self.close(self.phase.terms(), outcome);
                (None, Outgoing::Nothing)
            }
            Response::Refuse {
                terms,
                reply,
                outcome,
            } => {
                self.close(terms, outcome);
                (Some(from), Outgoing::Error(reply))
            }
            Response::Accept { terms } => {
                let phase = Phase::Receiving { terms, number: 0 };
                let outgoing = self.acknowledge(self.phase, phase, from);
                (Some(from), outgoing)
            }
            Response::Complete => {
                let phase = Phase::Closed {
                    terms: self.phase.terms(),
                    number: self.phase.number(),
                    complete: true,
                    outcome: Outcome::Complete,
                };
                self.go_into(phase);
                (None, Outgoing::Nothing)
            }
        }
    }
}
