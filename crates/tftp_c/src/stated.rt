//! The length of the file that a packet states, for C.

ghost use Rattle.std.specs.Prelude.{◌≡◌, None, true, false};
ghost use Rattle.tftp_c.specs.Stated.{Learns, StatedBy, States, StatesNone};

use crate::options::listed_in;
use tftp_ends::Endpoint;
use tftp_negotiate::stated_tsize;

/// The length of the file that the packet which a datagram spells states by its option `tsize`, in
/// bytes of wire text (RFC 2349, "Transfer Size Option Specification").
pub(crate) fn stated_length(datagram: &[u8]) -> Option<u64>
    ensures { StatedBy datagram.now result }
{
    match listed_in(datagram) {
        Some(options) => stated_tsize(&options),
        None => None,
    }
}

/// The length that an end knows after a datagram, by its peer before and after it.
pub(crate) fn stated_after(
    before: Option<Endpoint>,
    after: Option<Endpoint>,
    datagram: &[u8],
    known: Option<u64>,
) -> Option<u64>
    ensures { Learns before after datagram.now known result }
{
    match before {
        Some(_) => known,
        None => match after {
            Some(_) => stated_length(datagram),
            None => known,
        },
    }
}

/// Whether the packet that a datagram spells states the length of its file, which is written to
/// `length`.
#[unsafe(no_mangle)]
pub extern "C" fn tftp_stated_length(datagram: &[u8], length: &mut u64) -> bool
    ensures stated { result ≡ true → States datagram.now length.new }
    ensures none { result ≡ false → StatesNone datagram.now }
    ensures unmoved { result ≡ false → length.new ≡ length.old }
{
    match stated_length(datagram) {
        Some(stated) => {
            *length = stated;
            true
        }
        None => false,
    }
}
