//! How a receiver stores a block and acknowledges it.

ghost use Rattle.std.specs.Prelude.{◌≡◌, ◌≤◌, ◌++◌, [], true, false, nat_lt, length, OnErr};
ghost use Rattle.std.specs.Prelude.{IfOk, IfErr, Some, Err, ◌+◌, ◌<◌, vec_capacity};
ghost use Rattle.tftp_file.specs.Decoding.{DecodesPiece};
ghost use Rattle.tftp_ends.specs.BlockStored.{StoresBlock, StoresPiece, is_last};
ghost use Rattle.tftp_ends.specs.Files.{KeepsSink};
ghost use Rattle.tftp_ends.specs.Shortage.{StoreLacksMemory};
ghost use Rattle.tftp_ends.specs.Text.{begins_netascii, is_readable};
ghost use Rattle.tftp_ends.specs.Step.{Turn, Lends, Stores, Appended, commit_reply, lent};
ghost use Rattle.tftp_ends.specs.Step.{reported};
ghost use Rattle.tftp_ends.specs.End.{is_sender};
ghost use Rattle.tftp_ends.specs.Fits.{SentFits};
ghost use Rattle.tftp_ends.specs.declared.reply.TheConstants.{MAX_ERROR};

use crate::end::End;
use crate::endpoint::Endpoint;
use crate::error_reply::ErrorReply;
use crate::fault::EndFault;
use crate::outcome::Outcome;
use crate::outgoing::Outgoing;
use crate::phase::{Dally, Phase, Terms};
use crate::record::Step;
use std::alloc::AllocError;
use tftp_file::{NetDecoder, NetFault, Sink, StoreFault};
use tftp_wire::Mode;

/// Which block of a file it is.
#[derive(Clone, Copy)]
enum BlockKind {
    /// It has the block size, and more follow.
    Full,
    /// It is shorter, and the last one.
    Last,
}

/// Which block this data is (RFC 1350, section 6).
#[inline(always)]
fn block_kind(piece: &[u8], size: u16) -> BlockKind
    ensures { is_last result ≡ nat_lt (length piece.now) size }
{
    if piece.len() < usize::from(size) {
        BlockKind::Last
    } else {
        BlockKind::Full
    }
}

/// The result of storing a block.
#[derive(Clone, Copy)]
enum BlockStored {
    /// The block is stored, and it is not the last one.
    More,
    /// The last block is stored, and the file is committed.
    All,
    /// The sink refused the block.
    Refused,
    /// The last block is stored, and the sink refused the commit.
    Uncommitted(ErrorReply),
}

/// Appends a block's bytes to the sink, if there are any.
#[inline(always)]
fn append_block<K: Sink>(sink: &mut K, piece: &[u8]) -> Result<(), StoreFault>
    ensures appended { Appended K.meaning piece.now sink.old sink.new result }
    ensures same { K.is_same sink.old sink.new }
{
    match piece {
        [] => Ok(()),
        [_, ..] => sink.append(piece),
    }
}

/// The ERROR for a refused commit.
fn commit_reply(fault: StoreFault) -> ErrorReply
    ensures { result ≡ commit_reply fault }
{
    match fault {
        StoreFault::Exists => ErrorReply::FileExists,
        StoreFault::Missing | StoreFault::Full | StoreFault::Io | StoreFault::Memory => {
            ErrorReply::DiskFull
        }
    }
}

/// Appends a block's bytes to the sink, and commits the file after the last block.
#[inline(always)]
fn store_block<K: Sink>(
    sink: &mut K,
    piece: &[u8],
    kind: BlockKind,
) -> Result<BlockStored, AllocError>
    ensures takes { IfOk result (λ block_stored.
        StoresBlock K.meaning piece.now (is_last kind) sink.old sink.new block_stored) }
    ensures err { OnErr result (KeepsSink K.meaning sink.old sink.new) }
    ensures why { OnErr result
        (Appended K.meaning piece.now sink.old sink.new (Err StoreFault.Memory)) }
    ensures same { K.is_same sink.old sink.new }
{
    match append_block(sink, piece) {
        Ok(()) => match kind {
            BlockKind::Full => Ok(BlockStored::More),
            BlockKind::Last => match sink.commit() {
                Ok(()) => Ok(BlockStored::All),
                Err(fault) => Ok(BlockStored::Uncommitted(commit_reply(fault))),
            },
        },
        Err(StoreFault::Memory) => Err(AllocError),
        Err(StoreFault::Missing | StoreFault::Exists | StoreFault::Full | StoreFault::Io) => {
            Ok(BlockStored::Refused)
        }
    }
}

/// Replaces the buffer's bytes by the host bytes of a piece of netascii, and returns the decoder
/// after it. Out of memory, the buffer is left empty.
fn decode_into(
    buffer: &mut Vec<u8>,
    decoder: NetDecoder,
    piece: &[u8],
) -> Result<NetDecoder, AllocError>
    requires { begins_netascii (decoder ++ piece.now) ≡ true }
    ensures decodes { IfOk result (λ after.
        DecodesPiece decoder piece.now buffer.new.items after) }
    ensures err { OnErr result (buffer.new.items ≡ []) }
{
    let mut after = decoder;
    buffer.clear();
    match after.push(piece, buffer) {
        Ok(()) => Ok(after),
        Err(fault) => match fault {
            NetFault::Memory => Err(AllocError),
            _ => unreachable!(),
        },
    }
}

/// Stores the host bytes of a piece, and returns the decoder after it. The buffer is for the
/// decoded bytes: it is empty before and after.
#[inline(always)]
fn store_piece<K: Sink>(
    sink: &mut K,
    mode: Mode,
    decoder: NetDecoder,
    piece: &[u8],
    kind: BlockKind,
    buffer: &mut Vec<u8>,
) -> Result<(BlockStored, NetDecoder), AllocError>
    requires readable { is_readable mode decoder piece.now (is_last kind) ≡ true }
    requires empty { buffer.old.items ≡ [] }
    ensures takes { IfOk result (λ stored.
        StoresPiece K.meaning mode decoder piece.now (is_last kind) sink.old sink.new
        stored.0 stored.1) }
    ensures err { OnErr result (KeepsSink K.meaning sink.old sink.new) }
    ensures why { OnErr result
        (StoreLacksMemory K.meaning mode decoder piece.now sink.old sink.new) }
    ensures empty { buffer.new.items ≡ [] }
    ensures same { K.is_same sink.old sink.new }
{
    match mode {
        Mode::Octet => {
            let stored = store_block(sink, piece, kind)?;
            Ok((stored, decoder))
        }
        Mode::Netascii => {
            let after = decode_into(buffer, decoder, piece)?;
            let stored = store_block(sink, buffer, kind);
            buffer.clear();
            Ok((stored?, after))
        }
    }
}

impl End {
    /// Stores the received data and acknowledges it: the last block only after the commit. If the
    /// sink refuses, it sends an ERROR and closes. `before` is the phase: where it is known, no test
    /// of it is left.
    #[inline(always)]
    pub(crate) fn store<K: Sink>(
        &mut self,
        before: Phase,
        terms: Terms,
        number: u16,
        piece: &[u8],
        sink: &mut K,
        from: Endpoint,
    ) -> Result<(Step, Outgoing), EndFault>
        requires before { self.old.position.phase ≡ before }
        requires receiver { is_sender self.old.role.side ≡ false }
        requires sent { SentFits self.old (Some terms) }
        requires reads { is_readable self.old.role.mode self.old.position.held_back piece.now
            (nat_lt (length piece.now) terms.size) ≡ true }
        ensures stores { IfOk result (λ made. (turn : Turn)
            × Stores K.meaning terms number from piece.now self.old sink.old turn sink.new
            × Lends self.old turn self.new made.0.to made.1
            × (made.0 ≡ reported self.old turn)) }
        ensures room { IfOk result (λ made. length (lent made.1 self.new) ≤ MAX_ERROR) }
        ensures err { IfErr result (λ fault. (fault ≡ EndFault.Memory) × (self.new ≡ self.old)
            × KeepsSink K.meaning sink.old sink.new) }
        ensures why { OnErr result (StoreLacksMemory K.meaning self.old.role.mode
            self.old.position.held_back piece.now sink.old sink.new) }
        ensures same { K.is_same sink.old sink.new }
    {
        let kind = block_kind(piece, terms.size);
        let spare = &mut self.spare;
        let (stored, after) = store_piece(sink, self.role.mode, self.decoder, piece, kind, spare)?;
        match stored {
            BlockStored::More => {
                let phase = Phase::Receiving { terms, number };
                let outgoing = self.acknowledge(before, phase, from);
                self.decoder = after;
                Ok((before.step_to(phase, Some(from)), outgoing))
            }
            BlockStored::All => {
                let phase = Phase::Dallying {
                    terms,
                    number,
                    dally: Dally::Fresh,
                };
                let outgoing = self.acknowledge(before, phase, from);
                self.decoder = after;
                Ok((before.step_to(phase, Some(from)), outgoing))
            }
            BlockStored::Refused => {
                let step = self.close_for(terms, Outcome::StoreFault, from);
                Ok((step, Outgoing::Error(ErrorReply::DiskFull)))
            }
            BlockStored::Uncommitted(reply) => {
                let step = self.close_for(terms, Outcome::StoreFault, from);
                self.decoder = after;
                Ok((step, Outgoing::Error(reply)))
            }
        }
    }
}
