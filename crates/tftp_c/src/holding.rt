//! How a server for C opens, and how a transfer opens in it: once its caller has found the file.

ghost use Rattle.std.specs.Prelude.{◌≡◌, ◌⊎◌, ◌≤◌, None, length as list_length};
ghost use Rattle.tftp_ends.specs.Files.{AreFilesOf};
ghost use Rattle.tftp_server.specs.Config.{IsConfig};
ghost use Rattle.tftp_c.specs.Faults.{FirstTooLong, ReturnsHeld, StartRefused};
ghost use Rattle.tftp_c.specs.HeldServer.{config_of, table_fault, HoldsServer, OpensAt};
ghost use Rattle.tftp_c.specs.HeldServer.{Starts};
ghost use Rattle.tftp_c.specs.Elsewhere.{stated_in_files};
ghost use Rattle.tftp_c.specs.Opens.{FirstSent};
ghost use Rattle.tftp_c.specs.Options.{HasSize, options_in};
ghost use Rattle.tftp_c.specs.Reports.{endpoint_of};
ghost use Rattle.tftp_c.specs.Stated.{StatedBy};

use crate::elsewhere::{Absent, Elsewhere};
use crate::event::{self, TftpEndpoint, TftpEvent, TftpOptions};
use crate::given;
use crate::held_server::HeldServer;
use crate::opening::fits;
use crate::report::{endpoint, opening_step};
use crate::server_handle::TftpServer;
use crate::serving::limits;
use crate::stated::stated_length;
use crate::transfers::report_at;
use std::alloc::Global;
use tftp_ends::{Backoff, End, Outgoing};
use tftp_file::Files;
use tftp_server::{Config, Server, ServerFault};

fn config(options: &TftpOptions, transfers: u8) -> Config
    ensures { result ≡ config_of options.now transfers }
{
    Config {
        limits: limits(options),
        retries: options.retries,
        cap: transfers,
        overwrite: false,
    }
}

/// Opens a server that holds at most so many transfers at once, after closing what `server` held.
/// After a fault `server` is closed.
#[unsafe(no_mangle)]
pub extern "C" fn tftp_open_server(
    alloc: Global,
    server: &mut TftpServer,
    options: &[u8],
    transfers: u8,
) -> u8
    ensures ok { result ≡ 0
        → HoldsServer server.new.slot.value (λ s. Starts (options_in options.now) transfers s) }
    ensures allowed { result ≡ 0
        → HasSize options.now × IsConfig (config_of (options_in options.now) transfers) }
    ensures fault { (result ≡ 0 → ⊥) → StartRefused options.now transfers result }
    ensures err { (result ≡ 0 → ⊥) → server.new.slot.value ≡ None }
{
    server.close(alloc);
    let options = match given::options(options) {
        Ok(options) => options,
        Err(fault) => return fault,
    };
    let config = config(&options, transfers);
    if !config.is_valid() {
        return event::BAD_REQUEST;
    }
    match Server::new(alloc, config, Elsewhere) {
        Ok(opened) => match Box::new(
            alloc,
            HeldServer {
                server: opened,
                options,
            },
        ) {
            Ok(opened) => {
                server.put(opened);
                0
            }
            Err(_) => event::MEMORY,
        },
        Err(_) => event::MEMORY,
    }
}

/// The number that a call returns for this fault.
pub(crate) fn table_fault(fault: ServerFault) -> u8
    ensures { result ≡ table_fault fault }
{
    match fault {
        ServerFault::TidInUse => event::IN_USE,
        ServerFault::NoSuchTid => event::NO_TRANSFER,
        ServerFault::Memory => event::MEMORY,
    }
}

/// In place of the files of an end, which the caller has, with the length that its first datagram
/// states.
fn absent_files(end: &End) -> Files<Absent, Absent>
    ensures files { AreFilesOf end.now.role.side result }
    ensures stated { StatedBy end.now.position.last_sent (stated_in_files result) }
{
    let stated = stated_length(end.bytes_of(Outgoing::LastSent));
    if end.record().side.is_sender() {
        Files::Source(Absent { stated })
    } else {
        Files::Sink(Absent { stated })
    }
}

/// Holds the end of a request under an unused identifier, if the request port admits it.
fn hold(
    server: &mut Server<Elsewhere>,
    tid: u16,
    from: &TftpEndpoint,
    request: &[u8],
    end: End,
) -> u8
    ensures ok { result ≡ 0
        → OpensAt tid from.now request.now (λ e. e ≡ end) server.old server.new }
    ensures fault { (result ≡ 0 → ⊥) → ReturnsHeld tid from.now request.now server.old result }
    ensures err { (result ≡ 0 → ⊥) → server.new ≡ server.old }
{
    let Ok(admission) = server.admit(endpoint(from), request) else {
        return event::MEMORY;
    };
    let files = absent_files(&end);
    match server.hold(admission, tid, end, files) {
        Ok(()) => 0,
        Err(fault) => table_fault(fault),
    }
}

/// Holds the end that has opened for a request, and only then reports its opening.
pub(crate) fn open(
    server: &mut Server<Elsewhere>,
    tid: u16,
    from: &TftpEndpoint,
    request: &[u8],
    end: End,
    count: usize,
    reply: &mut [u8],
    event: &mut TftpEvent,
) -> u8
    ensures ok { result ≡ 0
        → OpensAt tid from.now request.now (λ e. e ≡ end) server.old server.new }
    ensures sent { result ≡ 0 → FirstSent end (endpoint_of from.now) reply.new event.new }
    ensures fits { result ≡ 0 → event.new.send_len ≤ list_length reply.old }
    ensures file { result ≡ 0 → event.new.file_len ≡ count }
    ensures fault { (result ≡ 0 → ⊥) → FirstTooLong end (list_length reply.old) result
        ⊎ ReturnsHeld tid from.now request.now server.old result }
    ensures err { (result ≡ 0 → ⊥) → server.new ≡ server.old }
    ensures unmoved { (result ≡ 0 → ⊥) → (event.new ≡ event.old) × (reply.new ≡ reply.old) }
{
    if !fits(&end, reply) {
        return event::NO_ROOM;
    }
    let fault = hold(server, tid, from, request, end);
    if fault == 0 {
        let step = opening_step(endpoint(from));
        let first = Outgoing::LastSent;
        report_at(
            server,
            tid,
            Backoff::Constant,
            step,
            first,
            reply,
            count,
            event,
        );
    }
    fault
}
