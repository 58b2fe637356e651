//! How a sender sends a block: it builds DATA in the spare buffer, and swaps that with the buffer of
//! the last datagram sent.

ghost use Rattle.std.specs.Prelude.{◌≡◌, ◌≤◌, ◌<◌, ◌+◌, ◌⊎◌, [], length, OnOk, OnErr};
ghost use Rattle.std.specs.Prelude.{IfOk, IfErr, Some, vec_len, vec_capacity};
ghost use Rattle.tftp_ends.specs.BlockRead.{is_whole};
ghost use Rattle.tftp_ends.specs.Files.{KeepsSource};
ghost use Rattle.tftp_ends.specs.Fits.{SentFits};
ghost use Rattle.tftp_ends.specs.Sound.{IsSending};
ghost use Rattle.tftp_ends.specs.declared.phase.Phase.TheVariants.{Sending};
ghost use Rattle.tftp_ends.specs.Room.{ReadsData};
ghost use Rattle.tftp_ends.specs.Shortage.{FillLacksMemory, SendLacksMemory};
ghost use Rattle.tftp_ends.specs.Step.{Turn, Lends, Sends, block_length, lent, reported};
ghost use Rattle.tftp_ends.specs.declared.reply.TheConstants.{MAX_ERROR};

use crate::end::End;
use crate::endpoint::Endpoint;
use crate::error_reply::ErrorReply;
use crate::fault::EndFault;
use crate::next_block::NextBlock;
use crate::outcome::Outcome;
use crate::outgoing::Outgoing;
use crate::phase::{Phase, Terms};
use crate::record::Step;
use std::alloc::AllocError;
use std::mem;
use tftp_file::{FileFault, Source};
use tftp_wire::{HEADER, append_data_header};

/// How many bytes of a file of this length the block of this number has.
pub(crate) fn block_length(length: u64, size: u16, number: u16) -> usize
    ensures { result ≡ block_length length size number }
{
    let before = u64::from(number.saturating_sub(1)) * u64::from(size);
    length.saturating_sub(before).min(u64::from(size)) as usize
}

/// The result of reading a block.
#[derive(Clone, Copy)]
pub(crate) enum BlockRead {
    /// The source gave the whole block.
    Whole,
    /// The source gave less than the block, or failed.
    Changed,
}

/// Builds DATA of this number in the spare buffer, with a block of `want` bytes from the source, and
/// swaps it with the buffer of the last datagram sent. If the source does not give the whole block,
/// the last datagram sent is unchanged. The buffers grow only for a datagram that is longer than the
/// last one sent.
#[inline(always)]
pub(crate) fn read_data<S: Source>(
    source: &mut S,
    number: u16,
    want: usize,
    last_sent: &mut Vec<u8>,
    spare: &mut Vec<u8>,
) -> Result<BlockRead, AllocError>
    requires short { want < 65536 }
    requires empty { spare.old.items ≡ [] }
    requires room { vec_len last_sent.old ≤ vec_capacity spare.old }
    ensures reads { IfOk result (λ read. ReadsData (S.meaning.left source.old)
        (S.meaning.left source.new) (S.meaning.may_fail source.old want)
        (S.meaning.fails source.old want) (λ piece. S.meaning.gives source.old piece source.new)
        number want last_sent.old.items last_sent.new.items (is_whole read)) }
    ensures header { OnOk result (HEADER ≤ vec_capacity last_sent.new) }
    ensures spare { (spare.new.items ≡ [])
        × (length last_sent.new.items ≤ vec_capacity spare.new) }
    ensures err { OnErr result (KeepsSource S.meaning source.old source.new
        × (last_sent.new.items ≡ last_sent.old.items)
        × (vec_capacity last_sent.old ≤ vec_capacity last_sent.new)) }
    ensures why { OnErr result (((vec_len last_sent.old < HEADER + want)
        × (source.new ≡ source.old)) ⊎ FillLacksMemory S.meaning want source.old source.new) }
    ensures same { S.is_same source.old source.new }
{
    if last_sent.len() < HEADER + want {
        last_sent.reserve(HEADER + want - last_sent.len())?;
        spare.reserve(HEADER + want)?;
    }
    let Ok(()) = append_data_header(spare, number) else {
        unreachable!()
    };
    match source.fill(want, spare) {
        Ok(count) => {
            if count == want {
                mem::swap(last_sent, spare);
                spare.clear();
                return Ok(BlockRead::Whole);
            }
            spare.clear();
            Ok(BlockRead::Changed)
        }
        Err(FileFault::Read) => {
            spare.clear();
            Ok(BlockRead::Changed)
        }
        Err(FileFault::Memory) => {
            spare.clear();
            Err(AllocError)
        }
    }
}

impl End {
    /// Sends the block of this number: DATA, or an ERROR if the source does not give the block. Then
    /// the last datagram sent is unchanged. `before` is the phase: where it is known, no test of it is
    /// left.
    #[inline(always)]
    pub(crate) fn send<S: Source>(
        &mut self,
        before: Phase,
        terms: Terms,
        number: u16,
        source: &mut S,
        from: Endpoint,
    ) -> Result<(Step, Outgoing), EndFault>
        requires before { self.old.position.phase ≡ before }
        requires sending { IsSending self.old terms }
        requires sent { SentFits self.old (Some terms) }
        ensures sends { IfOk result (λ made. (turn : Turn)
            × Sends S.meaning terms number from self.old source.old turn source.new
            × Lends self.old turn self.new made.0.to made.1
            × (made.0 ≡ reported self.old turn)) }
        ensures room { IfOk result (λ made. length (lent made.1 self.new)
            ≤ MAX_ERROR + block_length self.old.role.length terms.size number) }
        ensures why { OnErr result (SendLacksMemory S.meaning
            (block_length self.old.role.length terms.size number) self.old source.old source.new) }
        ensures err { IfErr result (λ fault. (fault ≡ EndFault.Memory) × (self.new ≡ self.old)
            × KeepsSource S.meaning source.old source.new) }
        ensures same { S.is_same source.old source.new }
    {
        let want = block_length(self.role.length, terms.size, number);
        match read_data(source, number, want, &mut self.last_sent, &mut self.spare)? {
            BlockRead::Whole => {
                self.last_sent_to = from;
                let phase = Phase::Sending { terms, number };
                self.retries_left = before.retries_left(
                    phase,
                    self.role.retries,
                    self.retries_left,
                );
                self.phase = phase;
                Ok((before.step_to(phase, Some(from)), Outgoing::LastSent))
            }
            BlockRead::Changed => {
                let step = self.close_for(terms, Outcome::SourceFault, from);
                Ok((step, Outgoing::Error(ErrorReply::FileChanged)))
            }
        }
    }

    /// Sends the next block of a sender, as [`End::send`] does. No terms are copied.
    #[inline(always)]
    pub(crate) fn send_after<S: Source>(
        &mut self,
        next: NextBlock,
        source: &mut S,
        from: Endpoint,
    ) -> Result<(Step, Outgoing), EndFault>
        requires phase { self.old.position.phase ≡ Sending next.terms next.newest }
        requires sending { IsSending self.old next.terms }
        ensures sends { IfOk result (λ made. (turn : Turn)
            × Sends S.meaning next.terms next.number from self.old source.old turn source.new
            × Lends self.old turn self.new made.0.to made.1
            × (made.0 ≡ reported self.old turn)) }
        ensures room { IfOk result (λ made. length (lent made.1 self.new)
            ≤ MAX_ERROR + block_length self.old.role.length next.terms.size next.number) }
        ensures why { OnErr result (SendLacksMemory S.meaning
            (block_length self.old.role.length next.terms.size next.number) self.old
            source.old source.new) }
        ensures err { IfErr result (λ fault. (fault ≡ EndFault.Memory) × (self.new ≡ self.old)
            × KeepsSource S.meaning source.old source.new) }
        ensures same { S.is_same source.old source.new }
    {
        let want = block_length(self.role.length, next.terms.size, next.number);
        match read_data(
            source,
            next.number,
            want,
            &mut self.last_sent,
            &mut self.spare,
        )? {
            BlockRead::Whole => {
                self.last_sent_to = from;
                let NextBlock {
                    terms,
                    newest,
                    number,
                } = next;
                let before = Phase::Sending {
                    terms,
                    number: newest,
                };
                let phase = Phase::Sending { terms, number };
                self.retries_left = before.retries_left(
                    phase,
                    self.role.retries,
                    self.retries_left,
                );
                self.phase.set_number(number);
                Ok((before.step_to(phase, Some(from)), Outgoing::LastSent))
            }
            BlockRead::Changed => {
                let step = self.close_of(Outcome::SourceFault, from);
                Ok((step, Outgoing::Error(ErrorReply::FileChanged)))
            }
        }
    }
}
