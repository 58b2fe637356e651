//! The openings of a client's end: by its request.

ghost use Rattle.std.specs.Prelude.{ℕ, ◌≡◌, ◌↔◌, ◌++◌, ◌≤◌, ◌⊎◌, IsTrue, IfOk, IfErr, OnOk};
ghost use Rattle.std.specs.Prelude.{OnErr, IsErrOf, [], true, length, vec_capacity};
ghost use Rattle.tftp_wire.specs.Spelling.{canonical};
ghost use Rattle.tftp_wire.specs.declared.packet.Packet.TheVariants.{Read, Write};
ghost use Rattle.tftp_ends.specs.Opening.{MayGet, MayPut, MayAskPut, PutsTooLarge, getting};
ghost use Rattle.tftp_ends.specs.Opening.{putting, opened, opening_step, request_of};
ghost use Rattle.tftp_ends.specs.End.{is_sender, terms_of};
ghost use Rattle.tftp_ends.specs.Sound.{PhaseFits, ResendsAck};
ghost use Rattle.tftp_ends.specs.Fits.{SentFits};

use crate::config::EndConfig;
use crate::end::End;
use crate::end::sending::block_length;
use crate::endpoint::Endpoint;
use crate::fault::OpenFault;
use crate::outgoing::Outgoing;
use crate::phase::Phase;
use crate::record::Step;
use crate::request::{may_ask_put, may_get, read_request, write_request};
use crate::role::Role;
use crate::side::Side;
use crate::waiting::can_be_numbered;
use std::alloc::Global;
use tftp_file::NetDecoder;
use tftp_negotiate::{Asked, DEFAULT_BLOCK};
use tftp_wire::{HEADER, Mode};

/// The step of an opening: one datagram, and no progress.
pub(crate) fn opening_step(to: Endpoint) -> Step
    ensures { result ≡ opening_step to }
{
    Step {
        to: Some(to),
        progress: false,
        closed: None,
    }
}

impl End {
    /// An end at its opening: with all its retries, and `last_sent` sent to `to`. A sender's spare
    /// buffer has the capacity for a datagram of the same length.
    pub(crate) fn opened(
        role: Role,
        phase: Phase,
        to: Endpoint,
        last_sent: Vec<u8>,
        spare: Vec<u8>,
    ) -> End
        requires phase { PhaseFits (opened role phase to last_sent.items) phase }
        requires resends { ResendsAck (opened role phase to last_sent.items) phase }
        requires sent { SentFits (opened role phase to last_sent.items) (terms_of phase) }
        requires room { HEADER ≤ vec_capacity last_sent }
        requires empty { spare.items ≡ [] }
        requires spare { is_sender role.side ≡ true
            → length last_sent.items ≤ vec_capacity spare }
        ensures { result ≡ opened role phase to last_sent.items }
    {
        End {
            role,
            retries_left: role.retries,
            last_sent,
            spare,
            last_sent_to: to,
            decoder: NetDecoder::new(),
            phase,
        }
    }

    /// Opens a client that reads, and lends its request, for `to`, by [`End::bytes_of`].
    ///
    /// It is the end of [`End::get`], and fails as that does. Its only allocation is the buffer of
    /// the request.
    pub fn open_get(
        alloc: Global,
        to: Endpoint,
        name: &[u8],
        mode: Mode,
        asked: &Asked,
        config: &EndConfig,
    ) -> Result<End, OpenFault>
        ensures end { IfOk result (λ end. end ≡ getting to name.now mode asked.now
            config.now.limits.max_file config.now.retries) }
        ensures ok { OnOk result (MayGet name.now mode asked.now) }
        ensures bad_request { IsErrOf result OpenFault.BadRequest
            → MayGet name.now mode asked.now → ⊥ }
        ensures memory { IsErrOf result OpenFault.Memory → MayGet name.now mode asked.now }
        ensures err { IfErr result (λ fault.
            (fault ≡ OpenFault.BadRequest) ⊎ (fault ≡ OpenFault.Memory)) }
    {
        if !may_get(name, mode, asked) {
            return Err(OpenFault::BadRequest);
        }
        let last_sent = read_request(alloc, name, mode, asked)?;
        let phase = Phase::Waiting {
            asked: *asked,
            limit: config.limits.max_file,
        };
        let role = Role {
            side: Side::ClientRead,
            mode,
            length: 0,
            retries: config.retries,
        };
        Ok(End::opened(role, phase, to, last_sent, Vec::new(alloc)))
    }

    /// Opens a client that reads: its request is appended to `out`, for `to`.
    ///
    /// It retries `config.retries` times. It refuses an OACK with a file length (`tsize`) of more
    /// than `config.limits.max_file` bytes. It fails with `BadRequest` if the name is empty, holds
    /// a zero byte or makes the request longer than 512 bytes (RFC 2347), or if an option is out of
    /// range or not for a read, and with `Memory`. After an error `out` is unchanged.
    pub fn get(
        alloc: Global,
        to: Endpoint,
        name: &[u8],
        mode: Mode,
        asked: &Asked,
        config: &EndConfig,
        out: &mut Vec<u8>,
    ) -> Result<(End, Step), OpenFault>
        ensures end { IfOk result (λ opened. opened.0 ≡ getting to name.now mode asked.now
            config.now.limits.max_file config.now.retries) }
        ensures step { IfOk result (λ opened. opened.1 ≡ opening_step to) }
        ensures sent { OnOk result (out.new.items ≡ out.old.items
            ++ canonical (Read (request_of name.now mode asked.now))) }
        ensures ok { OnOk result (MayGet name.now mode asked.now) }
        ensures bad_request { IsErrOf result OpenFault.BadRequest
            → MayGet name.now mode asked.now → ⊥ }
        ensures memory { IsErrOf result OpenFault.Memory → MayGet name.now mode asked.now }
        ensures err { IfErr result (λ fault.
            ((fault ≡ OpenFault.BadRequest) ⊎ (fault ≡ OpenFault.Memory))
            × (out.new.items ≡ out.old.items)) }
    {
        let end = End::open_get(alloc, to, name, mode, asked, config)?;
        match out.extend_from_slice(end.bytes_of(Outgoing::LastSent)) {
            Ok(()) => Ok((end, opening_step(to))),
            Err(_) => Err(OpenFault::Memory),
        }
    }

    /// Opens a client that writes a file of `length` bytes of wire text, and lends its request, for
    /// `to`, by [`End::bytes_of`].
    ///
    /// It is the end of [`End::put`], and fails as that does. Its only allocations are two buffers,
    /// with room for the first block, so that no block allocates.
    pub fn open_put(
        alloc: Global,
        to: Endpoint,
        name: &[u8],
        mode: Mode,
        asked: &Asked,
        length: u64,
        config: &EndConfig,
    ) -> Result<End, OpenFault>
        ensures end { IfOk result (λ end. end ≡ putting to name.now mode asked.now length
            config.now.limits.max_file config.now.retries) }
        ensures ok { OnOk result (MayPut name.now mode asked.now length) }
        ensures bad_request { IsErrOf result OpenFault.BadRequest
            → MayAskPut name.now mode asked.now length → ⊥ }
        ensures too_large { IsErrOf result OpenFault.TooLarge
            → PutsTooLarge name.now mode asked.now length }
        ensures memory { IsErrOf result OpenFault.Memory → MayPut name.now mode asked.now length }
        ensures never { IsErrOf result OpenFault.SourceFault → ⊥ }
    {
        if !may_ask_put(name, mode, asked, length) {
            return Err(OpenFault::BadRequest);
        }
        let size = asked.blksize.unwrap_or(DEFAULT_BLOCK);
        if !can_be_numbered(length, size) {
            return Err(OpenFault::TooLarge);
        }
        // A server that ignores the options is sent blocks of 512 bytes.
        let longest = HEADER + block_length(length, size.max(DEFAULT_BLOCK), 1);
        let last_sent = write_request(alloc, name, mode, asked, longest)?;
        let spare = Vec::with_capacity(alloc, last_sent.len().max(longest))?;
        let phase = Phase::Waiting {
            asked: *asked,
            limit: config.limits.max_file,
        };
        let role = Role {
            side: Side::ClientWrite,
            mode,
            length,
            retries: config.retries,
        };
        Ok(End::opened(role, phase, to, last_sent, spare))
    }

    /// Opens a client that writes a file of `length` bytes of wire text: its request is appended to
    /// `out`, for `to`.
    ///
    /// It retries `config.retries` times. It fails with `BadRequest` as [`End::get`] does, where
    /// the only `tsize` allowed is `length`; then with `TooLarge` if the file's blocks cannot be
    /// numbered at the requested block size, or at 512 bytes without one; and with `Memory`. After
    /// an error `out` is unchanged.
    pub fn put(
        alloc: Global,
        to: Endpoint,
        name: &[u8],
        mode: Mode,
        asked: &Asked,
        length: u64,
        config: &EndConfig,
        out: &mut Vec<u8>,
    ) -> Result<(End, Step), OpenFault>
        ensures end { IfOk result (λ opened. opened.0
            ≡ putting to name.now mode asked.now length config.now.limits.max_file
            config.now.retries) }
        ensures step { IfOk result (λ opened. opened.1 ≡ opening_step to) }
        ensures sent { OnOk result (out.new.items
            ≡ out.old.items ++ canonical (Write (request_of name.now mode asked.now))) }
        ensures ok { OnOk result (MayPut name.now mode asked.now length) }
        ensures bad_request { IsErrOf result OpenFault.BadRequest
            → MayAskPut name.now mode asked.now length → ⊥ }
        ensures too_large { IsErrOf result OpenFault.TooLarge
            → PutsTooLarge name.now mode asked.now length }
        ensures memory { IsErrOf result OpenFault.Memory → MayPut name.now mode asked.now length }
        ensures never { IsErrOf result OpenFault.SourceFault → ⊥ }
        ensures err { OnErr result (out.new.items ≡ out.old.items) }
    {
        let end = End::open_put(alloc, to, name, mode, asked, length, config)?;
        match out.extend_from_slice(end.bytes_of(Outgoing::LastSent)) {
            Ok(()) => Ok((end, opening_step(to))),
            Err(_) => Err(OpenFault::Memory),
        }
    }
}
