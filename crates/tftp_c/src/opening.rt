//! How a client opens for C.

ghost use Rattle.std.specs.Prelude.{◌≡◌, ◌↔◌, ◌≤◌, IsTrue, None, Some, length as list_length};
ghost use Rattle.tftp_ends.specs.Opening.{MayGet, MayPut};
ghost use Rattle.tftp_c.specs.Faults.{open_fault, GetFault, HandleRefused, PutFault};
ghost use Rattle.tftp_c.specs.Handled.{HoldsClient};
ghost use Rattle.tftp_c.specs.Opens.{asked_of, gets, mode_of, puts, FirstSent, Opens};
ghost use Rattle.tftp_c.specs.Options.{HasSize, options_in};
ghost use Rattle.tftp_c.specs.Waits.{backoff_of};

use crate::client::Client;
use crate::event::{self, TftpEndpoint, TftpEvent, TftpOptions};
use crate::given;
use crate::handle::TftpEnd;
use crate::report::{endpoint, report_opening};
use std::alloc::Global;
use tftp_ends::{End, EndConfig, Endpoint, OpenFault, Outgoing};
use tftp_negotiate::{Asked, Limits};
use tftp_wire::{MAX_BLOCK, Mode};

/// The options that a request asks. `length` is stated if its length is asked.
fn asked(options: &TftpOptions, length: u64) -> Asked
    ensures { result ≡ asked_of options.now length }
{
    Asked {
        blksize: if options.blksize == 0 {
            None
        } else {
            Some(options.blksize)
        },
        timeout: if options.timeout == 0 {
            None
        } else {
            Some(options.timeout)
        },
        tsize: if options.asks_tsize {
            Some(length)
        } else {
            None
        },
    }
}

fn mode(options: &TftpOptions) -> Mode
    ensures { result ≡ mode_of options.now }
{
    if options.is_netascii {
        Mode::Netascii
    } else {
        Mode::Octet
    }
}

fn config(options: &TftpOptions) -> EndConfig
    ensures limit { result.limits.max_file ≡ options.now.max_file }
    ensures retries { result.retries ≡ options.now.retries }
{
    EndConfig {
        limits: Limits {
            max_block: MAX_BLOCK,
            max_file: options.max_file,
        },
        retries: options.retries,
    }
}

/// The number that a call returns for this fault.
pub(crate) fn open_fault(fault: OpenFault) -> u8
    ensures { result ≡ open_fault fault }
{
    match fault {
        OpenFault::BadRequest => event::BAD_REQUEST,
        OpenFault::TooLarge => event::TOO_LARGE,
        OpenFault::SourceFault => event::NO_SOURCE,
        OpenFault::Memory => event::MEMORY,
    }
}

/// A client whose peer has stated nothing yet.
fn client_of(end: End, options: &TftpOptions) -> Client
    ensures { result ≡ record {
      end = end;
      stated = None;
      backoff = backoff_of options.now;
    } }
{
    Client {
        end,
        stated: None,
        backoff: options.backoff(),
    }
}

/// Whether the first datagram of an end fits the buffer.
pub(crate) fn fits(end: &End, reply: &[u8]) -> bool
    ensures { IsTrue result ↔ (list_length end.now.position.last_sent ≤ list_length reply.now) }
{
    end.bytes_of(Outgoing::LastSent).len() <= reply.len()
}

/// Puts a client that has opened into a handle that is closed, and only then reports its opening.
pub(crate) fn open(
    alloc: Global,
    handle: &mut TftpEnd,
    client: Client,
    to: Endpoint,
    file_len: usize,
    reply: &mut [u8],
    event: &mut TftpEvent,
) -> u8
    requires { handle.old.slot.value ≡ None }
    ensures ok { result ≡ 0 → handle.new.slot.value ≡ Some client }
    ensures sent { result ≡ 0 → FirstSent client.end to reply.new event.new }
    ensures file { result ≡ 0 → event.new.file_len ≡ file_len }
    ensures fits { result ≡ 0 → event.new.send_len ≤ list_length reply.old }
    ensures fault { (result ≡ 0 → ⊥) → HandleRefused client.end (list_length reply.old) result }
    ensures err { (result ≡ 0 → ⊥) → handle.new.slot.value ≡ None }
    ensures unmoved { (result ≡ 0 → ⊥) → (event.new ≡ event.old) × (reply.new ≡ reply.old) }
{
    if !fits(&client.end, reply) {
        return event::NO_ROOM;
    }
    match Box::new(alloc, client) {
        Ok(client) => {
            report_opening(&client.end, to, reply, file_len, event);
            handle.put(client);
            0
        }
        Err(_) => event::MEMORY,
    }
}

/// Opens a client that gets a file, by the bytes of its options, after closing what `end` held. The
/// request to send is written to `request`. After a fault `end` is closed.
#[unsafe(no_mangle)]
pub extern "C" fn tftp_open_get(
    alloc: Global,
    end: &mut TftpEnd,
    server: &TftpEndpoint,
    name: &[u8],
    options: &[u8],
    request: &mut [u8],
    event: &mut TftpEvent,
) -> u8
    ensures ok { result ≡ 0 → Opens end.new.slot.value
        (gets server.now name.now (options_in options.now)) server.now request.new event.new }
    ensures unstated { result ≡ 0
        → HoldsClient end.new.slot.value (λ c. c.stated ≡ None) }
    ensures backoff { result ≡ 0 → HoldsClient end.new.slot.value
        (λ c. c.backoff ≡ backoff_of (options_in options.now)) }
    ensures allowed { result ≡ 0 → HasSize options.now
        × MayGet name.now (mode_of (options_in options.now))
        (asked_of (options_in options.now) 0) }
    ensures fits { result ≡ 0 → event.new.send_len ≤ list_length request.old }
    ensures fault { (result ≡ 0 → ⊥)
        → GetFault name.now options.now (list_length request.old) result }
    ensures err { (result ≡ 0 → ⊥) → end.new.slot.value ≡ None }
    ensures unmoved { (result ≡ 0 → ⊥)
        → (event.new ≡ event.old) × (request.new ≡ request.old) }
{
    end.close(alloc);
    let options = match given::options(options) {
        Ok(options) => options,
        Err(fault) => return fault,
    };
    let to = endpoint(server);
    let asked = asked(&options, 0);
    match End::open_get(alloc, to, name, mode(&options), &asked, &config(&options)) {
        Ok(opened) => {
            let client = client_of(opened, &options);
            open(alloc, end, client, to, 0, request, event)
        }
        Err(fault) => open_fault(fault),
    }
}

/// Opens a client that puts a file of `length` bytes, after closing what `end` held. The request to
/// send is written to `request`. After a fault `end` is closed.
#[unsafe(no_mangle)]
pub extern "C" fn tftp_open_put(
    alloc: Global,
    end: &mut TftpEnd,
    server: &TftpEndpoint,
    name: &[u8],
    length: u64,
    options: &[u8],
    request: &mut [u8],
    event: &mut TftpEvent,
) -> u8
    ensures ok { result ≡ 0 → Opens end.new.slot.value
        (puts server.now name.now length (options_in options.now)) server.now request.new event.new }
    ensures unstated { result ≡ 0
        → HoldsClient end.new.slot.value (λ c. c.stated ≡ None) }
    ensures backoff { result ≡ 0 → HoldsClient end.new.slot.value
        (λ c. c.backoff ≡ backoff_of (options_in options.now)) }
    ensures allowed { result ≡ 0 → HasSize options.now
        × MayPut name.now (mode_of (options_in options.now))
        (asked_of (options_in options.now) length) length }
    ensures fits { result ≡ 0 → event.new.send_len ≤ list_length request.old }
    ensures fault { (result ≡ 0 → ⊥)
        → PutFault name.now length options.now (list_length request.old) result }
    ensures err { (result ≡ 0 → ⊥) → end.new.slot.value ≡ None }
    ensures unmoved { (result ≡ 0 → ⊥)
        → (event.new ≡ event.old) × (request.new ≡ request.old) }
{
    end.close(alloc);
    let options = match given::options(options) {
        Ok(options) => options,
        Err(fault) => return fault,
    };
    let to = endpoint(server);
    let asked = asked(&options, length);
    let config = config(&options);
    match End::open_put(alloc, to, name, mode(&options), &asked, length, &config) {
        Ok(opened) => {
            let client = client_of(opened, &options);
            open(alloc, end, client, to, 0, request, event)
        }
        Err(fault) => open_fault(fault),
    }
}
