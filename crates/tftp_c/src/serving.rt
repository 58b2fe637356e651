//! How a server's end opens for C: by a request that the caller has read, and looked up.

ghost use Rattle.std.specs.Prelude.{◌≡◌, ◌-◌, ◌*◌, ◌<◌, ◌≤◌, List, ℕ, None, length};
ghost use Rattle.std.specs.Prelude.{IfOk, IfErr, IfSome, OnOk, length as list_length, max};
ghost use Rattle.tftp_negotiate.specs.Ranges.{IsBlockSize};
ghost use Rattle.tftp_wire.specs.Borrowed.{owned_request};
ghost use Rattle.tftp_wire.specs.Spelling.{Spells};
ghost use Rattle.tftp_wire.specs.declared.packet.Packet.TheVariants.{Read, Write};
ghost use Rattle.tftp_file.specs.Memory.{memory_source};
ghost use Rattle.tftp_negotiate.specs.Agreed.{size};
ghost use Rattle.tftp_ends.specs.Opening.{ServesRead};
ghost use Rattle.tftp_c.specs.Faults.{GetUnserved, NoRequest, packet_of, PutUnopened, SendRefused};
ghost use Rattle.tftp_c.specs.Faults.{ServeGetFault, ServePutFault};
ghost use Rattle.tftp_c.specs.Options.{HasSize, options_in};
ghost use Rattle.tftp_c.specs.Waits.{backoff_of};
ghost use Rattle.tftp_c.specs.ServerOpens.{limits_of, read_limits, AnswersGet, AnswersPut};
ghost use Rattle.tftp_c.specs.ServerOpens.{HoldsSuch, LimitsBlocks, ServesGet, ServesPut};
ghost use Rattle.tftp_c.specs.Handled.{HoldsClient};
ghost use Rattle.tftp_c.specs.Stated.{KnowsFirst};

use crate::answering::answer;
use crate::client::Client;
use crate::event::{self, TftpEndpoint, TftpEvent, TftpOptions};
use crate::given;
use crate::handle::TftpEnd;
use crate::opening::{open, open_fault};
use crate::report::endpoint;
use crate::slice_source::SliceSource;
use crate::stated::stated_length;
use std::alloc::Global;
use tftp_ends::{End, OpenFault, Outgoing, ReadService};
use tftp_negotiate::{Agreed, DEFAULT_BLOCK, Kind, Limits, is_block_size};
use tftp_wire::{HEADER, MAX_BLOCK, PacketRef, RequestRef, decode_ref};

/// A server's end that has opened, before anything is reported.
#[derive(Drop)]
pub(crate) struct Served {
    pub(crate) end: End,
    /// How many bytes of the file it has taken.
    pub(crate) count: usize,
}

/// The limits of a server: the largest block size, and the longest file.
pub(crate) fn limits(options: &TftpOptions) -> Limits
    ensures { result ≡ limits_of options.now }
{
    Limits {
        max_block: if options.blksize == 0 {
            MAX_BLOCK
        } else {
            options.blksize
        },
        max_file: options.max_file,
    }
}

/// The same, or `None` if the largest block size is none.
fn valid_limits(options: &TftpOptions) -> Option<Limits>
    ensures some { IfSome result (λ l. (l ≡ limits_of options.now) × LimitsBlocks options.now) }
    ensures none { result ≡ None → LimitsBlocks options.now → ⊥ }
{
    let limits = limits(options);
    if is_block_size(u64::from(limits.max_block)) {
        Some(limits)
    } else {
        None
    }
}

/// The limits of a read, whose buffer for a datagram has this length, or `None` if the largest block
/// size is none. No block is longer than the buffer has room for behind a header, except one of the
/// default size.
fn read_limits(options: &TftpOptions, room: usize) -> Option<Limits>
    ensures some { IfSome result (λ l. (l ≡ read_limits options.now room)
        × IsBlockSize l.max_block × LimitsBlocks options.now) }
    ensures none { result ≡ None → LimitsBlocks options.now → ⊥ }
{
    let Some(limits) = valid_limits(options) else {
        return None;
    };
    let most = room.saturating_sub(HEADER).max(usize::from(DEFAULT_BLOCK));
    if usize::from(limits.max_block) <= most {
        return Some(limits);
    }
    Some(Limits {
        max_block: most as u16,
        max_file: limits.max_file,
    })
}

/// The request of this kind that a datagram spells, if it spells one.
fn request_in(datagram: &[u8], kind: Kind) -> Option<RequestRef<'_>>
    ensures some { IfSome result (λ r. Spells (packet_of kind (owned_request r)) datagram.now) }
    ensures none { result ≡ None → NoRequest kind datagram.now }
{
    match decode_ref(datagram) {
        Ok(PacketRef::Read(request)) => match kind {
            Kind::Read => Some(request),
            Kind::Write => None,
        },
        Ok(PacketRef::Write(request)) => match kind {
            Kind::Read => None,
            Kind::Write => Some(request),
        },
        Ok(PacketRef::Data { .. }) => None,
        Ok(PacketRef::Ack { .. }) => None,
        Ok(PacketRef::Error { .. }) => None,
        Ok(PacketRef::Oack(_)) => None,
        Err(_) => None,
    }
}

/// An end that sends a file, whose first bytes are `next`.
fn serve(
    alloc: Global,
    read: ReadService,
    agreed: &Agreed,
    next: &[u8],
) -> Result<Served, OpenFault>
    ensures ok { IfOk result (λ s. (rest : List ℕ)
        × ServesRead memory_source agreed.now read.peer read.mode read.length read.retries next.now
        rest s.end
        × (s.count ≡ length next.now - length rest)) }
    ensures fits { OnOk result (read.length < 65535 * size agreed.now) }
    ensures err { IfErr result (SendRefused agreed.now read.length next.now) }
{
    let mut source = SliceSource::of(next);
    let mut first = Vec::new(alloc);
    match End::serve_source(alloc, &mut source, read, agreed, &mut first) {
        Ok((end, _)) => {
            let count = source.taken_of(next);
            Ok(Served { end, count })
        }
        Err(fault) => Err(fault),
    }
}

/// A client that knows the length which the first datagram of its end states.
fn client_of(end: End, options: &TftpOptions) -> Client
    ensures end { result.end ≡ end }
    ensures stated { KnowsFirst result }
    ensures backoff { result.backoff ≡ backoff_of options.now }
{
    let stated = stated_length(end.bytes_of(Outgoing::LastSent));
    Client {
        end,
        stated,
        backoff: options.backoff(),
    }
}

/// An end that sends the file of a read request. A block that it sends has this room.
pub(crate) fn serve_get(
    alloc: Global,
    client: &TftpEndpoint,
    request: &[u8],
    length: u64,
    next: &[u8],
    options: &TftpOptions,
    room: usize,
) -> Result<Served, u8>
    ensures ok { IfOk result (λ s. AnswersGet client.now request.now length next.now options.now
        room s.end s.count) }
    ensures err { IfErr result (GetUnserved request.now length next.now options.now room) }
{
    let Some(limits) = read_limits(options, room) else {
        return Err(event::BAD_REQUEST);
    };
    match request_in(request, Kind::Read) {
        Some(asked) => {
            let mode = asked.mode;
            match answer(alloc, options, &asked, Kind::Read, length, &limits) {
                Ok(agreed) => {
                    if room < HEADER + usize::from(agreed.block_size()) {
                        return Err(event::NO_ROOM);
                    }
                    let read = ReadService {
                        peer: endpoint(client),
                        mode,
                        length,
                        retries: options.retries,
                    };
                    match serve(alloc, read, &agreed, next) {
                        Ok(served) => Ok(served),
                        Err(fault) => Err(open_fault(fault)),
                    }
                }
                Err(fault) => Err(fault),
            }
        }
        None => Err(event::BAD_REQUEST),
    }
}

/// An end that receives the file of a write request.
pub(crate) fn serve_put(
    alloc: Global,
    client: &TftpEndpoint,
    request: &[u8],
    options: &TftpOptions,
) -> Result<End, u8>
    ensures ok { IfOk result (AnswersPut client.now request.now options.now) }
    ensures err { IfErr result (PutUnopened request.now options.now) }
{
    let Some(limits) = valid_limits(options) else {
        return Err(event::BAD_REQUEST);
    };
    match request_in(request, Kind::Write) {
        Some(asked) => {
            let mode = asked.mode;
            match answer(alloc, options, &asked, Kind::Write, 0, &limits) {
                Ok(agreed) => {
                    let mut first = Vec::new(alloc);
                    let peer = endpoint(client);
                    match End::serve_write(
                        alloc,
                        peer,
                        mode,
                        &agreed,
                        options.retries,
                        &mut first,
                    ) {
                        Ok((end, _)) => Ok(end),
                        Err(_) => Err(event::MEMORY),
                    }
                }
                Err(fault) => Err(fault),
            }
        }
        None => Err(event::BAD_REQUEST),
    }
}

/// Opens a server's end that sends the file of a read request from `client`: `length` bytes, of which
/// `next` are the first. After a fault `end` is closed.
#[unsafe(no_mangle)]
pub extern "C" fn tftp_open_serve_get(
    alloc: Global,
    end: &mut TftpEnd,
    client: &TftpEndpoint,
    request: &[u8],
    length: u64,
    next: &[u8],
    options: &[u8],
    reply: &mut [u8],
    event: &mut TftpEvent,
) -> u8
    ensures ok { result ≡ 0 → HoldsSuch end.new.slot.value (λ e. ServesGet client.now request.now
        length next.now (options_in options.now) e reply.new event.new) }
    ensures stated { result ≡ 0 → HoldsClient end.new.slot.value KnowsFirst }
    ensures backoff { result ≡ 0 → HoldsClient end.new.slot.value
        (λ c. c.backoff ≡ backoff_of (options_in options.now)) }
    ensures allowed { result ≡ 0 → HasSize options.now }
    ensures fault { (result ≡ 0 → ⊥)
        → ServeGetFault request.now length next.now options.now (list_length reply.old) result }
    ensures fits { result ≡ 0 → event.new.send_len ≤ list_length reply.old }
    ensures err { (result ≡ 0 → ⊥) → end.new.slot.value ≡ None }
    ensures unmoved { (result ≡ 0 → ⊥) → (event.new ≡ event.old) × (reply.new ≡ reply.old) }
{
    end.close(alloc);
    let options = match given::options(options) {
        Ok(options) => options,
        Err(fault) => return fault,
    };
    match serve_get(alloc, client, request, length, next, &options, reply.len()) {
        Ok(Served { end: opened, count }) => {
            let served = client_of(opened, &options);
            open(alloc, end, served, endpoint(client), count, reply, event)
        }
        Err(fault) => fault,
    }
}

/// Opens a server's end that receives the file of a write request from `client`. After a fault `end`
/// is closed.
#[unsafe(no_mangle)]
pub extern "C" fn tftp_open_serve_put(
    alloc: Global,
    end: &mut TftpEnd,
    client: &TftpEndpoint,
    request: &[u8],
    options: &[u8],
    reply: &mut [u8],
    event: &mut TftpEvent,
) -> u8
    ensures ok { result ≡ 0 → HoldsSuch end.new.slot.value (λ e. ServesPut client.now request.now
        (options_in options.now) e reply.new event.new) }
    ensures stated { result ≡ 0 → HoldsClient end.new.slot.value KnowsFirst }
    ensures backoff { result ≡ 0 → HoldsClient end.new.slot.value
        (λ c. c.backoff ≡ backoff_of (options_in options.now)) }
    ensures allowed { result ≡ 0 → HasSize options.now }
    ensures fits { result ≡ 0 → event.new.send_len ≤ list_length reply.old }
    ensures fault { (result ≡ 0 → ⊥)
        → ServePutFault request.now options.now (list_length reply.old) result }
    ensures err { (result ≡ 0 → ⊥) → end.new.slot.value ≡ None }
    ensures unmoved { (result ≡ 0 → ⊥) → (event.new ≡ event.old) × (reply.new ≡ reply.old) }
{
    end.close(alloc);
    let options = match given::options(options) {
        Ok(options) => options,
        Err(fault) => return fault,
    };
    match serve_put(alloc, client, request, &options) {
        Ok(opened) => {
            let served = client_of(opened, &options);
            open(alloc, end, served, endpoint(client), 0, reply, event)
        }
        Err(fault) => fault,
    }
}
