//! The ERRORs of the request port, and their sending.

ghost use Rattle.std.specs.Prelude.{◌≡◌, ◌≢◌, ◌+◌, ◌++◌, ◌≤◌, IfOk, IfErr, OnOk, OnErr, None};
ghost use Rattle.std.specs.Prelude.{Some, length, vec_capacity, vec_len};
ghost use Rattle.tftp_ends.specs.Step.{error_bytes};
ghost use Rattle.tftp_server.specs.Port.{accept_reply, begin_reply, open_reply, unopened_by};
ghost use Rattle.tftp_server.specs.Port.{IsAnsweredBy, unserved_by};
ghost use Rattle.tftp_server.specs.Shortage.{LacksMemoryFor};

use crate::fault::ServerFault;
use crate::opened::Opened;
use tftp_ends::{Endpoint, ErrorReply, MAX_ERROR, OpenFault};
use tftp_file::StoreFault;
use tftp_negotiate::Refusal;

/// Why no transfer opens for a request that is not ignored.
#[derive(Clone, Copy)]
pub(crate) enum Unopened {
    /// An ERROR is sent from the request port.
    Refused(ErrorReply),
    /// Out of memory.
    Memory,
}

/// The ERROR for refused options.
pub(crate) fn accept_reply(refusal: Refusal) -> ErrorReply
    ensures { result ≡ accept_reply refusal }
{
    match refusal {
        Refusal::TooLarge => ErrorReply::DiskFull,
        Refusal::Repeated | Refusal::NotAsked | Refusal::BadValue => ErrorReply::OptionRefused,
    }
}

/// Why no transfer opens for a file that could not be opened.
pub(crate) fn open_refused(fault: StoreFault) -> Unopened
    ensures { result ≡ unopened_by fault (open_reply fault) }
{
    match fault {
        StoreFault::Missing => Unopened::Refused(ErrorReply::FileNotFound),
        StoreFault::Exists => Unopened::Refused(ErrorReply::AccessViolation),
        StoreFault::Full => Unopened::Refused(ErrorReply::AccessViolation),
        StoreFault::Io => Unopened::Refused(ErrorReply::AccessViolation),
        StoreFault::Memory => Unopened::Memory,
    }
}

/// Why no transfer opens for a file that was opened but is not served.
pub(crate) fn serve_refused(fault: OpenFault) -> Unopened
    requires { fault ≢ OpenFault.BadRequest }
    ensures { result ≡ unserved_by fault }
{
    match fault {
        OpenFault::TooLarge => Unopened::Refused(ErrorReply::FileTooLarge),
        OpenFault::SourceFault => Unopened::Refused(ErrorReply::FileChanged),
        OpenFault::Memory => Unopened::Memory,
        OpenFault::BadRequest => unreachable!(),
    }
}

/// Why no transfer opens for a draft that could not be begun.
pub(crate) fn begin_refused(fault: StoreFault) -> Unopened
    ensures { result ≡ unopened_by fault (begin_reply fault) }
{
    match fault {
        StoreFault::Exists => Unopened::Refused(ErrorReply::FileExists),
        StoreFault::Full => Unopened::Refused(ErrorReply::DiskFull),
        StoreFault::Missing => Unopened::Refused(ErrorReply::AccessViolation),
        StoreFault::Io => Unopened::Refused(ErrorReply::AccessViolation),
        StoreFault::Memory => Unopened::Memory,
    }
}

/// Appends the ERROR, to be sent from the request port. `Memory` is its one fault: the transfer was
/// out of memory, or `out` has no capacity for the ERROR.
pub(crate) fn refuse(
    unopened: Unopened,
    from: Endpoint,
    out: &mut Vec<u8>,
) -> Result<Opened, ServerFault>
    ensures opened { IfOk result (λ opened. opened ≡ record { tid = None; to = Some from }) }
    ensures ok { OnOk result (IsAnsweredBy unopened (λ reply. out.new.items
        ≡ out.old.items ++ error_bytes reply)) }
    ensures memory { IfErr result (λ fault. fault ≡ ServerFault.Memory) }
    ensures why { OnErr result (LacksMemoryFor (vec_capacity out.old) (vec_len out.old)
        unopened) }
    ensures room { length out.old.items + MAX_ERROR ≤ vec_capacity out.old
        → OnErr result (unopened ≡ Unopened.Memory) }
    ensures capacity { vec_capacity out.old ≤ vec_capacity out.new }
    ensures err { OnErr result (out.new.items ≡ out.old.items) }
{
    let Unopened::Refused(reply) = unopened else {
        return Err(ServerFault::Memory);
    };
    let Ok(()) = reply.append_to(out) else {
        return Err(ServerFault::Memory);
    };
    Ok(Opened {
        tid: None,
        to: Some(from),
    })
}
