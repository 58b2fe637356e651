//! The tests of a request that ask no store, in order.

ghost use Rattle.std.specs.Prelude.{◌≡◌, ◌≢◌, IfOk, IfErr, OnErr, IsOk, option_map};
ghost use Rattle.tftp_wire.specs.Borrowed.{owned};
ghost use Rattle.tftp_negotiate.specs.Ranges.{IsBlockSize};
ghost use Rattle.tftp_file.specs.Path.{path_of_name};
ghost use Rattle.tftp_server.specs.Port.{Ignores, asks, by_kind, by_name, by_room};
ghost use Rattle.tftp_server.specs.Request.{IsRequest, ask_of, kind_and_request};
ghost use Rattle.tftp_server.specs.Shortage.{NamesNewPath};

use crate::config::Config;
use crate::fault::ServerFault;
use crate::server::admission::{Occupancy, PortAction, ReadRequest, WriteRequest};
use crate::server::reply::accept_reply;
use std::alloc::Global;
use tftp_ends::ErrorReply;
use tftp_file::{Path, PathFault, path_of};
use tftp_negotiate::{Kind, accept_ref};
use tftp_wire::{PacketRef, RequestRef, has_error_opcode};

/// The request and its kind, if it is one.
fn request_of<'a>(decoded: Option<PacketRef<'a>>) -> Option<(Kind, RequestRef<'a>)>
    ensures { IsRequest (option_map owned decoded.entry) (option_map kind_and_request result) }
{
    match decoded {
        Some(PacketRef::Read(request)) => Some((Kind::Read, request)),
        Some(PacketRef::Write(request)) => Some((Kind::Write, request)),
        _ => None,
    }
}

/// All of them. A datagram with the opcode of ERROR is never answered; every other that is not a
/// request is refused.
pub(crate) fn by_packet<'a>(
    alloc: Global,
    config: &Config,
    occupancy: Occupancy,
    bytes: &'a [u8],
    decoded: Option<PacketRef<'a>>,
) -> Result<PortAction<'a>, ServerFault>
    requires { IsBlockSize config.now.limits.max_block }
    ensures asks { IfOk result (λ action. ask_of action ≡ asks config.now.cap occupancy.count
        occupancy.is_repeated config.now.limits bytes.now (option_map owned decoded.entry)) }
    ensures memory { IfErr result (λ fault. fault ≡ ServerFault.Memory) }
    ensures acts { OnErr result (asks config.now.cap occupancy.count occupancy.is_repeated
        config.now.limits bytes.now (option_map owned decoded.entry) ≢ Ignores) }
    ensures why { OnErr result (NamesNewPath occupancy.is_repeated
        (option_map owned decoded.entry)) }
{
    let Occupancy { count, is_repeated } = occupancy;
    if has_error_opcode(bytes) {
        return Ok(PortAction::Nothing);
    }
    match request_of(decoded) {
        Some((kind, request)) => {
            if is_repeated {
                return Ok(PortAction::Nothing);
            }
            by_name(alloc, config, count, kind, request)
        }
        None => Ok(PortAction::Refuse(ErrorReply::IllegalOperation)),
    }
}

/// The name must be a path.
fn by_name<'a>(
    alloc: Global,
    config: &Config,
    count: usize,
    kind: Kind,
    request: RequestRef<'a>,
) -> Result<PortAction<'a>, ServerFault>
    requires { IsBlockSize config.now.limits.max_block }
    ensures named { IfOk result (λ action. ask_of action ≡ by_name config.now.cap count
        (by_kind kind request.entry.mode request.entry.options config.now.limits)
        (path_of_name request.entry.name.now)) }
    ensures memory { IfErr result (λ fault. fault ≡ ServerFault.Memory) }
    ensures why { OnErr result (IsOk (path_of_name request.entry.name.now)) }
{
    match path_of(alloc, request.name) {
        Ok(path) => Ok(by_room(config, count, kind, path, request)),
        Err(PathFault::Memory) => Err(ServerFault::Memory),
        Err(PathFault::Empty | PathFault::Segment | PathFault::Depth | PathFault::Length) => {
            Ok(PortAction::Refuse(ErrorReply::AccessViolation))
        }
    }
}

/// The server must be below its limit of transfers. A read then asks the store, and a write has its
/// options answered first: the length of its file is known from `tsize` alone (RFC 2349, "Transfer
/// Size Option Specification").
fn by_room<'a>(
    config: &Config,
    count: usize,
    kind: Kind,
    path: Path,
    request: RequestRef<'a>,
) -> PortAction<'a>
    requires { IsBlockSize config.now.limits.max_block }
    ensures { ask_of result ≡ by_room config.now.cap count
        (by_kind kind request.entry.mode request.entry.options config.now.limits) path }
{
    if count >= usize::from(config.cap) {
        return PortAction::Refuse(ErrorReply::ServerBusy);
    }
    let RequestRef { mode, options, .. } = request;
    match kind {
        Kind::Read => PortAction::Read(ReadRequest {
            path,
            mode,
            options,
        }),
        Kind::Write => match accept_ref(&options, kind, mode, 0, &config.limits) {
            Ok(agreed) => PortAction::Write(WriteRequest { path, mode, agreed }),
            Err(refusal) => PortAction::Refuse(accept_reply(refusal)),
        },
    }
}
