//! The calls that append the datagram to send to `out`: each makes the step of the call that lends it.

ghost use Rattle.std.specs.Prelude.{ℕ, ◌≡◌, ◌↔◌, ◌+◌, ◌++◌, ◌≤◌, List, length, Option, IfOk, OnOk};
ghost use Rattle.std.specs.Prelude.{OnErr, IsErrOf, IsSome, vec_len, vec_capacity};
ghost use Rattle.tftp_wire.specs.declared.packet.Packet.{Packet};
ghost use Rattle.tftp_ends.specs.Action.{Decodes, HandledBy, datagram_action, timeout_action};
ghost use Rattle.tftp_ends.specs.Action.{timeout_response};
ghost use Rattle.tftp_ends.specs.End.{outcome_of};
ghost use Rattle.tftp_ends.specs.Files.{AreFilesOf, KeepsFiles, AreSame};
ghost use Rattle.tftp_ends.specs.Room.{FitsRoom, response_room, room_of};
ghost use Rattle.tftp_ends.specs.Shortage.{HasNoRoom, LacksMemory};
ghost use Rattle.tftp_ends.specs.Step.{Turn, Carries, DatagramStep, IsAnswered, lent, reported};
ghost use Rattle.tftp_ends.specs.Step.{timeout_turn};

use crate::action::Action;
use crate::end::End;
use crate::endpoint::Endpoint;
use crate::fault::EndFault;
use crate::outgoing::Outgoing;
use crate::record::Step;
use tftp_file::{Files, Sink, Source};
use tftp_wire::laws;

impl End {
    /// Handles a datagram that was received from `from` at the end's port.
    ///
    /// At most one datagram is appended to `out`; [`Step::to`] is its destination. `files` is the
    /// source of a sender or the sink of a receiver. After `Closed` and `Memory` nothing has
    /// changed. `Memory` is possible only if there is a datagram to send.
    pub fn on_datagram<S: Source, K: Sink>(
        &mut self,
        files: &mut Files<S, K>,
        from: Endpoint,
        bytes: &[u8],
        out: &mut Vec<u8>,
    ) -> Result<Step, EndFault>
        requires { AreFilesOf self.old.role.side files.old }
        ensures steps { IfOk result (λ step. (turn : Turn)
            × DatagramStep S.meaning K.meaning from bytes.now self.old files.old turn files.new
            × Carries self.old turn self.new step.to out.old.items out.new.items
            × (step ≡ reported self.old turn)) }
        ensures closed { IsErrOf result EndFault.Closed
            ↔ IsSome (outcome_of self.old.position.phase) }
        ensures unmoved { IsErrOf result EndFault.Closed → files.new ≡ files.old }
        ensures memory { IsErrOf result EndFault.Memory
            → HandledBy IsAnswered from bytes.now self.old }
        ensures why { IsErrOf result EndFault.Memory → LacksMemory S.meaning K.meaning
            (HasNoRoom (vec_capacity out.old) (vec_len out.old)) from bytes.now self.old
            files.old files.new }
        ensures err { OnErr result ((self.new ≡ self.old) × (out.new.items ≡ out.old.items)
            × KeepsFiles S.meaning K.meaning files.old files.new) }
        ensures same { AreSame S.is_same K.is_same files.old files.new }
        ensures files { AreFilesOf self.new.role.side files.new }
    {
        self.reserve_answer(from, bytes, out)?;
        match self.handle_datagram(files, from, bytes) {
            Ok((step, outgoing)) => {
                self.append_outgoing(outgoing, out);
                Ok(step)
            }
            Err(fault) => Err(fault),
        }
    }

    /// Delivers a timeout: [`End::interval`] seconds have passed since the opening, the last
    /// progress or the last timeout. An early or late timeout is allowed; each uses one retry.
    ///
    /// At most one datagram is appended to `out`; [`Step::to`] is its destination. After `Closed`
    /// and `Memory` nothing has changed.
    pub fn on_timeout(&mut self, out: &mut Vec<u8>) -> Result<Step, EndFault>
        ensures steps { IfOk result (λ step.
            Carries self.old (timeout_turn self.old) self.new step.to out.old.items out.new.items
            × (step ≡ reported self.old (timeout_turn self.old))) }
        ensures closed { IsErrOf result EndFault.Closed
            ↔ IsSome (outcome_of self.old.position.phase) }
        ensures memory { IsErrOf result EndFault.Memory
            → IsAnswered (timeout_action self.old.position.retries_left self.old.position.phase) }
        ensures why { IsErrOf result EndFault.Memory
            → HasNoRoom (vec_capacity out.old) (vec_len out.old) (response_room self.old
            (timeout_response self.old.position.retries_left self.old.position.phase)) }
        ensures err { OnErr result ((self.new ≡ self.old) × (out.new.items ≡ out.old.items)) }
    {
        if self.is_closed() {
            return Err(EndFault::Closed);
        }
        let response = self.timeout_response();
        out.reserve(self.response_room(response))?;
        let (step, outgoing) = self.respond(response, self.last_sent_to);
        self.append_outgoing(outgoing, out);
        Ok(step)
    }

    /// How the end handles any datagram, whichever its role.
    fn any_action(&self, from: Endpoint, bytes: &[u8]) -> Action
        ensures { (decoded : Option Packet) × Decodes bytes.now decoded
            × (result ≡ datagram_action self.now from bytes.now decoded) }
    {
        if self.role.side.is_sender() {
            self.action_as_sender(from, bytes)
        } else {
            self.action_as_receiver(from, bytes)
        }
    }

    /// Reserves capacity in `out` for the answer to a datagram, so that it can be appended after the
    /// step. `Closed` if the end is closed, and `Memory` only if there is a datagram to send.
    pub fn reserve_answer(
        &self,
        from: Endpoint,
        bytes: &[u8],
        out: &mut Vec<u8>,
    ) -> Result<(), EndFault>
        ensures room { OnOk result ((datagram : List ℕ)
            → HandledBy (FitsRoom self.now datagram) from bytes.now self.now
            → length datagram + vec_len out.new ≤ vec_capacity out.new) }
        ensures closed { IsErrOf result EndFault.Closed
            ↔ IsSome (outcome_of self.now.position.phase) }
        ensures memory { IsErrOf result EndFault.Memory
            → HandledBy IsAnswered from bytes.now self.now }
        ensures why { IsErrOf result EndFault.Memory → HandledBy (λ action.
            HasNoRoom (vec_capacity out.old) (vec_len out.old) (room_of self.now action))
            from bytes.now self.now }
        ensures items { out.new.items ≡ out.old.items }
    {
        if self.is_closed() {
            return Err(EndFault::Closed);
        }
        // Whichever packet the bytes are said to spell, they are handled by one action.
        laws::one_meaning();
        laws::fault_or_packet();
        Ok(out.reserve(self.room(self.any_action(from, bytes)))?)
    }

    /// Appends the datagram to send, in reserved capacity.
    fn append_outgoing(&self, outgoing: Outgoing, out: &mut Vec<u8>)
        requires { length (lent outgoing self.now) + vec_len out.old ≤ vec_capacity out.old }
        ensures { out.new.items ≡ out.old.items ++ lent outgoing self.now }
    {
        let Ok(()) = out.extend_from_slice(self.bytes_of(outgoing)) else {
            unreachable!()
        };
    }
}
