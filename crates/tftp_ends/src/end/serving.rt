//! The openings of a server's end: by its answer to the request.

ghost use Rattle.std.specs.Prelude.{ℕ, ◌≡◌, ◌+◌, ◌++◌, ◌*◌, ◌≤◌, ◌<◌, ◌⊎◌, not, true, List, [], length};
ghost use Rattle.std.specs.Prelude.{Ok, IfOk, IfErr, OnOk, OnErr, IsErrOf, vec_capacity};
ghost use Rattle.tftp_ends.specs.End.{is_sender};
ghost use Rattle.tftp_ends.specs.Files.{AreFilesOf, KeepsFiles, KeepsSource, AreSame};
ghost use Rattle.tftp_ends.specs.Opening.{ServesFiles, ServesRead, HasSent, RefusesLength};
ghost use Rattle.tftp_ends.specs.Opening.{RefusesSource, FailsToStart};
ghost use Rattle.tftp_ends.specs.Opening.{serving_write, opened, opening_step, oack_bytes, role_of};
ghost use Rattle.tftp_ends.specs.Step.{AsksFor, ack_bytes, block_length, data_bytes};
ghost use Rattle.tftp_ends.specs.Waiting.{default_terms, agreed_terms};
ghost use Rattle.tftp_negotiate.specs.Agreed.{size};

use crate::end::End;
use crate::end::opening::opening_step;
use crate::end::sending::{BlockRead, block_length, read_data};
use crate::endpoint::Endpoint;
use crate::fault::OpenFault;
use crate::options::{append_options, options_len};
use crate::phase::{Phase, Terms};
use crate::record::Step;
use crate::role::Role;
use crate::service::ReadService;
use crate::side::Side;
use crate::waiting::{agreed_terms, can_be_numbered, default_terms};
use std::alloc::{AllocError, Global};
use tftp_file::{Files, Sink, Source};
use tftp_negotiate::{Agreed, DEFAULT_BLOCK, laws};
use tftp_wire::{HEADER, MAX_REQUEST, Mode, append_oack_header};

/// ACK 0.
const ACK_ZERO: [u8; HEADER] = [0, 4, 0, 0];

/// The OACK of the agreed options.
fn oack(alloc: Global, agreed: &Agreed) -> Result<Vec<u8>, AllocError>
    ensures ok { IfOk result (λ v. v.items ≡ oack_bytes agreed.now) }
    ensures short { IfOk result (λ v. length v.items ≤ MAX_REQUEST) }
    ensures room { IfOk result (λ v. HEADER ≤ vec_capacity v) }
{
    let options = agreed.as_slice();
    // The opcode has two bytes.
    let room = options_len(options).saturating_add(2).max(HEADER);
    let mut bytes = Vec::with_capacity(alloc, room)?;
    append_oack_header(&mut bytes)?;
    append_options(&mut bytes, options)?;
    // At most three options are agreed.
    laws::agreements();
    Ok(bytes)
}

impl End {
    /// Opens a server's end that sends a file of `length` bytes of wire text to a client.
    ///
    /// It appends to `out`, for `peer`, the OACK of the agreed options (RFC 2347, "Negotiation
    /// Protocol"), or DATA 1 if none is agreed (RFC 1350, section 4). It fails with `TooLarge` if
    /// the file's blocks cannot be numbered, with `SourceFault` if DATA 1 cannot be read to the
    /// measured length, and with `Memory`. After an error `out` is unchanged. After `TooLarge` and
    /// `Memory` the source has the same bytes left; after `SourceFault` it has those that the fill
    /// left.
    pub fn serve_read<S: Source, K: Sink>(
        alloc: Global,
        files: &mut Files<S, K>,
        peer: Endpoint,
        mode: Mode,
        agreed: &Agreed,
        length: u64,
        retries: u8,
        out: &mut Vec<u8>,
    ) -> Result<(End, Step), OpenFault>
        requires { AreFilesOf Side.ServerRead files.old }
        ensures serves { IfOk result (λ opened. ServesFiles S.meaning agreed.now peer mode length
            retries files.old files.new opened.0 × HasSent opened.0 out.old.items out.new.items) }
        ensures step { IfOk result (λ opened. opened.1 ≡ opening_step peer) }
        ensures ok { OnOk result (length < 65535 * size agreed.now) }
        ensures bad_request { IsErrOf result OpenFault.BadRequest → ⊥ }
        ensures too_large { RefusesLength result agreed.now length files.old files.new }
        ensures source { RefusesSource S.meaning result agreed.now length files.old files.new }
        ensures plain { IsErrOf result OpenFault.SourceFault → agreed.now ≡ [] }
        ensures memory { IsErrOf result OpenFault.Memory → (length < 65535 * size agreed.now)
            × KeepsFiles S.meaning K.meaning files.old files.new }
        ensures capacity { vec_capacity out.old ≤ vec_capacity out.new }
        ensures err { OnErr result (out.new.items ≡ out.old.items) }
        ensures same { AreSame S.is_same K.is_same files.old files.new }
        ensures files { IfOk result (λ opened. AreFilesOf opened.0.role.side files.new) }
    {
        let read = ReadService {
            peer,
            mode,
            length,
            retries,
        };
        match files {
            Files::Source(source) => End::serve_source(alloc, source, read, agreed, out),
            Files::Sink(_) => unreachable!(),
        }
    }

    /// As [`End::serve_read`], over the source alone.
    pub fn serve_source<S: Source>(
        alloc: Global,
        source: &mut S,
        read: ReadService,
        agreed: &Agreed,
        out: &mut Vec<u8>,
    ) -> Result<(End, Step), OpenFault>
        ensures serves { IfOk result (λ opened. ServesRead S.meaning agreed.now read.peer read.mode
            read.length read.retries source.old source.new opened.0
            × HasSent opened.0 out.old.items out.new.items) }
        ensures step { IfOk result (λ opened. opened.1 ≡ opening_step read.peer) }
        ensures ok { OnOk result (read.length < 65535 * size agreed.now) }
        ensures bad_request { IsErrOf result OpenFault.BadRequest → ⊥ }
        ensures too_large { RefusesLength result agreed.now read.length source.old source.new }
        ensures source { IsErrOf result OpenFault.SourceFault
            → (read.length < 65535 * size agreed.now)
            × FailsToStart S.meaning read.length source.old source.new }
        ensures plain { IsErrOf result OpenFault.SourceFault → agreed.now ≡ [] }
        ensures memory { IsErrOf result OpenFault.Memory → (read.length < 65535 * size agreed.now)
            × KeepsSource S.meaning source.old source.new }
        ensures capacity { vec_capacity out.old ≤ vec_capacity out.new }
        ensures err { OnErr result (out.new.items ≡ out.old.items) }
        ensures same { S.is_same source.old source.new }
        ensures side { IfOk result (λ opened. is_sender opened.0.role.side ≡ true) }
    {
        if !can_be_numbered(read.length, agreed.block_size()) {
            return Err(OpenFault::TooLarge);
        }
        let role = Role {
            side: Side::ServerRead,
            mode: read.mode,
            length: read.length,
            retries: read.retries,
        };
        if agreed.is_empty() {
            return End::send_first(alloc, source, read.peer, role, out);
        }
        End::send_oack(alloc, read.peer, agreed, role, out)
    }

    /// Opens a server's end that sends, by DATA 1.
    fn send_first<S: Source>(
        alloc: Global,
        source: &mut S,
        peer: Endpoint,
        role: Role,
        out: &mut Vec<u8>,
    ) -> Result<(End, Step), OpenFault>
        requires sends { is_sender role.side ≡ true }
        requires fits { role.length < 65535 * DEFAULT_BLOCK }
        ensures sent { IfOk result (λ o. (piece : List ℕ)
            × AsksFor S.meaning (block_length role.length DEFAULT_BLOCK 1) source.old
            (S.meaning.left source.new) piece (Ok (block_length role.length DEFAULT_BLOCK 1))
            × (o.0 ≡ opened role (Phase.Sending (default_terms peer) 1) peer (data_bytes 1 piece))
            × S.meaning.gives source.old piece source.new
            × HasSent o.0 out.old.items out.new.items) }
        ensures step { IfOk result (λ o. o.1 ≡ opening_step peer) }
        ensures source { IsErrOf result OpenFault.SourceFault
            → FailsToStart S.meaning role.length source.old source.new }
        ensures memory { IsErrOf result OpenFault.Memory
            → KeepsSource S.meaning source.old source.new }
        ensures capacity { vec_capacity out.old ≤ vec_capacity out.new }
        ensures err { IfErr result (λ fault.
            ((fault ≡ OpenFault.SourceFault) ⊎ (fault ≡ OpenFault.Memory))
            × (out.new.items ≡ out.old.items)) }
        ensures same { S.is_same source.old source.new }
    {
        let want = block_length(role.length, DEFAULT_BLOCK, 1);
        out.reserve(HEADER + want)?;
        let mut last_sent = Vec::new(alloc);
        let mut spare = Vec::new(alloc);
        match read_data(source, 1, want, &mut last_sent, &mut spare)? {
            BlockRead::Changed => Err(OpenFault::SourceFault),
            BlockRead::Whole => {
                let Ok(()) = out.extend_from_slice(&last_sent) else {
                    unreachable!()
                };
                let phase = Phase::Sending {
                    terms: default_terms(peer),
                    number: 1,
                };
                let end = End::opened(role, phase, peer, last_sent, spare);
                Ok((end, opening_step(peer)))
            }
        }
    }

    /// Opens a server's end that sends, by the OACK of the agreed options.
    fn send_oack(
        alloc: Global,
        peer: Endpoint,
        agreed: &Agreed,
        role: Role,
        out: &mut Vec<u8>,
    ) -> Result<(End, Step), OpenFault>
        requires sends { is_sender role.side ≡ true }
        requires fits { role.length < 65535 * size agreed.now }
        ensures end { IfOk result (λ o. (o.0 ≡ opened role
            (Phase.Sending (agreed_terms peer agreed.now) 0) peer (oack_bytes agreed.now))
            × (out.new.items ≡ out.old.items ++ oack_bytes agreed.now)) }
        ensures step { IfOk result (λ o. o.1 ≡ opening_step peer) }
        ensures capacity { vec_capacity out.old ≤ vec_capacity out.new }
        ensures err { IfErr result (λ fault. (fault ≡ OpenFault.Memory)
            × (out.new.items ≡ out.old.items)) }
    {
        let last_sent = oack(alloc, agreed)?;
        let spare = Vec::with_capacity(alloc, last_sent.len())?;
        out.extend_from_slice(&last_sent)?;
        let phase = Phase::Sending {
            terms: agreed_terms(peer, agreed),
            number: 0,
        };
        let end = End::opened(role, phase, peer, last_sent, spare);
        Ok((end, opening_step(peer)))
    }

    /// Opens a server's end that receives a file from a client.
    ///
    /// It appends to `out`, for `peer`, the OACK of the agreed options (RFC 2347, "Negotiation
    /// Protocol"), or ACK 0 if none is agreed (RFC 1350, section 4). It fails only with `Memory`,
    /// and then `out` is unchanged.
    pub fn serve_write(
        alloc: Global,
        peer: Endpoint,
        mode: Mode,
        agreed: &Agreed,
        retries: u8,
        out: &mut Vec<u8>,
    ) -> Result<(End, Step), OpenFault>
        ensures end { IfOk result (λ opened. (opened.0 ≡ serving_write agreed.now peer mode retries)
            × HasSent opened.0 out.old.items out.new.items) }
        ensures step { IfOk result (λ opened. opened.1 ≡ opening_step peer) }
        ensures capacity { vec_capacity out.old ≤ vec_capacity out.new }
        ensures err { IfErr result (λ fault. (fault ≡ OpenFault.Memory)
            × (out.new.items ≡ out.old.items)) }
    {
        if agreed.is_empty() {
            let ack = Vec::from_slice(alloc, &ACK_ZERO)?;
            return End::receive(alloc, default_terms(peer), mode, retries, ack, out);
        }
        let oack = oack(alloc, agreed)?;
        End::receive(alloc, agreed_terms(peer, agreed), mode, retries, oack, out)
    }

    /// Opens a server's end that receives, by `answer`.
    fn receive(
        alloc: Global,
        terms: Terms,
        mode: Mode,
        retries: u8,
        answer: Vec<u8>,
        out: &mut Vec<u8>,
    ) -> Result<(End, Step), OpenFault>
        requires resends { not terms.by_oack ≡ true → answer.items ≡ ack_bytes 0 }
        requires short { length answer.items ≤ MAX_REQUEST }
        requires room { HEADER ≤ vec_capacity answer }
        ensures end { IfOk result (λ o. (o.0 ≡ opened (role_of Side.ServerWrite mode 0 retries)
            (Phase.Receiving terms 0) terms.peer answer.items)
            × (out.new.items ≡ out.old.items ++ answer.items)) }
        ensures step { IfOk result (λ o. o.1 ≡ opening_step terms.peer) }
        ensures capacity { vec_capacity out.old ≤ vec_capacity out.new }
        ensures err { IfErr result (λ fault. (fault ≡ OpenFault.Memory)
            × (out.new.items ≡ out.old.items)) }
    {
        out.extend_from_slice(&answer)?;
        let phase = Phase::Receiving { terms, number: 0 };
        let role = Role {
            side: Side::ServerWrite,
            mode,
            length: 0,
            retries,
        };
        let end = End::opened(role, phase, terms.peer, answer, Vec::new(alloc));
        Ok((end, opening_step(terms.peer)))
    }
}
